//! The program's calls, as calls on one store.

ghost use Rattle.std.specs.Prelude.{◌≡◌, ◌-◌, ◌++◌, ◌∷◌, ℕ, List, [], Some, ◌⊎◌, length};
ghost use Rattle.std.specs.List.{AllByRecursion};
ghost use Rattle.fn_tree.specs.declared.program.Item.{Item};
ghost use Rattle.r3_desk.specs.Crash.{LeavesOnly};
ghost use Rattle.r3_desk.specs.Disk.{told_len};
ghost use Rattle.r3_entry.specs.declared.entry.Entry.{Entry};
ghost use Rattle.r3_entry.specs.Image.{IsHistoryOf};
ghost use Rattle.r3_model.specs.Event.{Call, Reply};
ghost use Rattle.r3_model.specs.Functions.{language_of};
ghost use Rattle.r3_model.specs.Held.{Mark, Said};
ghost use Rattle.r3_model.specs.Language.{Language, Text};
ghost use Rattle.r3_model.specs.Machine.{State};
ghost use Rattle.r3_model.specs.Made.{IsMade};
ghost use Rattle.r3_model.specs.Script.{Line as L};
ghost use Rattle.r3_exec.specs.Runs.{language};
ghost use Rattle.r3_exec.specs.declared.exec.Exec.{Exec};
ghost use Rattle.r3_session.specs.Begun.{StopsOpening};
ghost use Rattle.r3_serve.specs.Held.{IsHeld, asked_marks};
ghost use Rattle.r3_serve.specs.Served.{Calls, Voice, Served, Stopped};
ghost use Rattle.r3_repeats.specs.Invocations.{Invocation, AreOnOneStore, told_in};
ghost use Rattle.r3_repeats.specs.Steps.{HasStepsOnce, IsExpected};
ghost use Rattle.r3_invoked.specs.Left.{AreBegun, AreOnOneDisk, IsAllOf, IsLeftBy, IsOneOnDisk, bytes_of};

use r3_desk::Desk;
use r3_entry::one_history;
use r3_laws::programs_are_lawful;
use r3_repeats::stores_steps_once;
use r3_store::reads_as_settled;

/// A call of the program goes by the machine: one that answered its lines, at its end and at any moment
/// before, and one that ended early, in its opening or within a line. Its replies are said or, as the
/// generator's, not.
pub fn calls_fit<D: Desk>()
    ensures ends { (from now : D) (exec : Exec) (voice : Voice) (text : Text) (h : List Entry) (lines : List L) (image : List ℕ) →
        Served D.size D.image D.may_leave D.moment D.reach D.said D.asked from now exec voice text h lines →
        (D.image now ≡ Some image) ⊎ D.may_leave now image →
        IsAllOf (language exec) text h lines (bytes_of voice (told_len (D.said now) - told_len (D.said from))) (told_len (D.asked now) - told_len (D.asked from)) image }
    ensures crashes { (from now : D) (exec : Exec) (voice : Voice) (text : Text) (h : List Entry) (lines : List L) →
        Served D.size D.image D.may_leave D.moment D.reach D.said D.asked from now exec voice text h lines →
        LeavesOnly D.moment D.reach from now (λ image n m.
        IsLeftBy (language exec) text h lines (bytes_of voice (n - told_len (D.said from))) (m - told_len (D.asked from)) image) }
    ensures stops { (from now : D) (P : Language) (voice : Voice) (text : Text) (h : List Entry) (lines : List L) (line : L) →
        Stopped D.image D.moment D.reach D.said D.asked from now P voice text h lines line →
        LeavesOnly D.moment D.reach from now (λ image n m.
        (begun : List L) × AreBegun lines line begun
        × IsLeftBy P text h begun (bytes_of voice (n - told_len (D.said from))) (m - told_len (D.asked from)) image) }
    ensures reads { (from now : D) (P : Language) (voice : Voice) (text : Text) (h : List Entry) (lines : List L) (line : L) (image : List ℕ) →
        Stopped D.image D.moment D.reach D.said D.asked from now P voice text h lines line → D.image now ≡ Some image →
        (begun : List L) × AreBegun lines line begun
        × IsLeftBy P text h begun (bytes_of voice (told_len (D.said now) - told_len (D.said from))) (told_len (D.asked now) - told_len (D.asked from)) image }
    ensures opening { (from now : D) (P : Language) (text : Text) (h : List Entry) →
        StopsOpening D.image D.moment D.reach D.said D.asked P from now text h →
        LeavesOnly D.moment D.reach from now (λ image n m.
        IsLeftBy P text h [] (n - told_len (D.said from)) (m - told_len (D.asked from)) image) }
    ensures opening_reads { (from now : D) (P : Language) (text : Text) (h : List Entry) (n m : ℕ) (image : List ℕ) →
        StopsOpening D.image D.moment D.reach D.said D.asked P from now text h → D.image now ≡ Some image →
        IsLeftBy P text h [] n m image }

    // So does any call of which the machine's calls, marks and replies are told, as the program tells them of its own.
    ensures answered { (P : Language) (text : Text) (h : List Entry) (lines : List L) (after : State) (calls : List Call)
        (marks : List Mark) (replies : List Reply) (n m : ℕ) (image : List ℕ) →
        Calls P text h lines after calls marks replies → IsHistoryOf after.history image → IsAllOf P text h lines n m image }
    ensures held { (P : Language) (text : Text) (h : List Entry) (lines : List L) (after : State) (calls : List Call)
        (marks : List Mark) (replies : List Reply) (n m : ℕ) (image : List ℕ) →
        Calls P text h lines after calls marks replies → IsHeld after.history (length h) marks n m image →
        IsLeftBy P text h lines n m image }

    // And so does one whose replies aren't said, as the generator tells it of its own, without its summary and with it.
    ensures unsaid { (P : Language) (text : Text) (h : List Entry) (lines : List L) (after : State) (calls : List Call)
        (marks : List Mark) (replies : List Reply) (n m : ℕ) (image : List ℕ) →
        Calls P text h lines after calls marks replies → IsHeld after.history (length h) (asked_marks marks) n m image →
        IsLeftBy P text h lines 0 m image }
    ensures summary { (P : Language) (text : Text) (h : List Entry) (lines : List L) (after : State) (calls : List Call)
        (marks : List Mark) (replies : List Reply) (bytes kept n m : ℕ) (image : List ℕ) →
        Calls P text h lines after calls marks replies →
        IsHeld after.history (length h) (asked_marks marks ++ Said bytes kept ∷ []) n m image →
        IsLeftBy P text h lines 0 m image }
{
    reads_as_settled::<D>();
}

/// So calls one after another on one disk are calls on one store, and one workflow ID has one reply.
pub fn calls_are_on_one_store()
    ensures { (P : Language) (image : List ℕ) (h : List Entry) (calls : List Invocation) →
        IsHistoryOf h image → AreOnOneDisk P image calls → AreOnOneStore P h calls }
{
    one_history();
}

/// So what the program's calls leave of a store that began empty is what it made, whatever crashes: each step is stored
/// once, one of a transaction with its body's writes, and no turn is unexpected.
pub fn calls_store_steps_once()
    ensures made { (items : List Item) (i : Invocation) → IsOneOnDisk items i → IsMade (language_of items) i.left }
    ensures once { (items : List Item) (i : Invocation) → IsOneOnDisk items i → HasStepsOnce (language_of items) i.left }
    ensures expects { (items : List Item) (i : Invocation) → IsOneOnDisk items i →
        AllByRecursion IsExpected (told_in (language_of items) i).said
        × AllByRecursion IsExpected (told_in (language_of items) i).trail.replies }
{
    one_history();
    stores_steps_once();
    programs_are_lawful();
}

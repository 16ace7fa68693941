//! The opening.

ghost use Rattle.std.specs.Prelude.{◌≡◌, ◌⊎◌, ◌≤◌, List, [], false, length, Err, IfOk, IfErr, OnErr, IsErrOf, IsErrAnd};
ghost use Rattle.std.specs.Option.{ForSome};
ghost use Rattle.r3_desk.specs.Causes.{Rose};
ghost use Rattle.r3_desk.specs.Crash.{NothingPending};
ghost use Rattle.r3_entry.specs.declared.entry.Entry.{Entry};
ghost use Rattle.r3_entry.specs.Image.{IsHistoryOf};
ghost use Rattle.r3_model.specs.Functions.{language_of};
ghost use Rattle.r3_recover.specs.Opened.{HasProgram, HasCause, IsHalted, IsNoneOf, WasRead};
ghost use Rattle.r3_session.specs.Begun.{StopsOpening};
ghost use Rattle.r3_serve.specs.Served.{Voice, Served};

use fn_tree::checked::Checked;
use r3_desk::Desk;
use r3_recover::StartFault;
use r3_session::Session;
use std::alloc::Global;

/// Takes up the store that the file is, with the program that it was begun with, whose text this is. No line is
/// answered yet, and all is settled.
pub fn open<D: Desk>(
    alloc: Global,
    desk: &mut D,
    program: Checked,
    text: &str,
) -> Result<Session, StartFault>
    requires pending { NothingPending (D.image desk.old) (D.may_leave desk.old) }
    requires short { length text.now ≤ 1048576 }
    ensures serves { (voice : Voice) → IfOk result (λ s. (h : List Entry) × ForSome (D.image desk.old) (IsHistoryOf h) × HasProgram h text.now
        × Served D.size D.image D.may_leave D.moment D.reach D.said D.asked desk.old desk.new s.exec voice text.now h []) }
    ensures program { IfOk result (λ s. s.exec.program ≡ program) }
    ensures whole { IfOk result (λ s. s.failed ≡ false) }
    ensures causes { IfErr result (HasCause (D.image desk.old) text.now) }

    // No other answer comes where the image is told, but for a disk that fails and want of memory.
    ensures other { (h : List Entry) → ForSome (D.image desk.old) (λ i. IsHistoryOf h i → (HasProgram h text.now → ⊥) →
        IsErrAnd result (λ fault. (fault ≡ StartFault.Other) ⊎ IsHalted fault)) }
    ensures opens { (h : List Entry) → ForSome (D.image desk.old) (λ i. IsHistoryOf h i → HasProgram h text.now →
        IfErr result IsHalted) }
    ensures stops { (h : List Entry) → ForSome (D.image desk.old) (λ i. IsHistoryOf h i →
        OnErr result (StopsOpening D.image D.moment D.reach D.said D.asked (language_of program) desk.old desk.new text.now h)) }
    ensures kept { (fault : _) → result ≡ Err (StartFault.Store fault) → D.image desk.new ≡ D.image desk.old }
    ensures other_kept { result ≡ Err StartFault.Other → D.image desk.new ≡ D.image desk.old }

    // Where the file is no store, or one of another program, it is left alone, whatever is answered.
    ensures alone { ForSome (D.image desk.old) (λ i. IsNoneOf text.now i →
        WasRead D.image D.may_leave D.moment D.reach D.said D.asked D.syncs desk.old desk.new) }

    ensures disk { IsErrOf result StartFault.Disk → Rose (D.disk_faults desk.old) (D.disk_faults desk.new) }
    ensures no_fault { (IsErrOf result StartFault.Disk → ⊥) → D.disk_faults desk.new ≡ D.disk_faults desk.old }
    ensures said { D.said desk.new ≡ D.said desk.old }
    ensures asked { D.asked desk.new ≡ D.asked desk.old }
    ensures say_faults { D.say_faults desk.new ≡ D.say_faults desk.old }
{
    Session::open(alloc, desk, program, text)
}

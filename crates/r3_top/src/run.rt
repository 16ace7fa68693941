//! The commands on a store.

ghost use Rattle.std.specs.Prelude.{◌≡◌, ◌⊎◌, ◌≤◌, true, List, [], Err, Option, Some, OnOk};
ghost use Rattle.r3_desk.specs.Causes.{Rose};
ghost use Rattle.r3_desk.specs.Crash.{NothingPending};
ghost use Rattle.r3_entry.specs.declared.entry.Entry.{Entry};
ghost use Rattle.r3_entry.specs.Image.{IsHistoryOf};
ghost use Rattle.r3_model.specs.Language.{Text};
ghost use Rattle.r3_recover.specs.Opened.{HasProgram};
ghost use Rattle.r3_words.specs.Forms.{run as run_form, recover as recover_form};
ghost use Rattle.r3_top.specs.Causes.{HasCause, IsReady};
ghost use Rattle.r3_top.specs.Statuses.{IsBroken};
ghost use Rattle.r3_top.specs.Refusals.{EndsAtFile, IsFunctionFile};
ghost use Rattle.r3_top.specs.Closes.{EndsAtStore};
ghost use Rattle.r3_top.specs.Going.{RecoverGoes, RunGoes};
ghost use Rattle.r3_top.specs.Ends.{RecoverComes, RunComes, end_of};

use crate::begin::begin;
use crate::halt::Halt;
use r3_desk::{Desk, Shelf, Source};
use r3_entry::one_history;
use r3_lines::Line;
use r3_serve::{ScriptStop, ServeFault, serve, serve_script};
use r3_session::Session;
use r3_store::reads_as_settled;
use std::alloc::Global;

// A session that isn't used again.
fn let_go(_session: Session) {}

/// The command `run`: answers the lines of the script over the store, with functions from a file.
pub fn run<D: Desk, S: Source, F: Shelf>(
    alloc: Global,
    path: &str,
    desk: &mut D,
    source: &mut S,
    shelf: &mut F,
) -> Result<(), Halt>
    requires { NothingPending (D.image desk.old) (D.may_leave desk.old) }
    ensures comes { (text : Text) → F.text_of shelf.old path.now ≡ Some text →
        IsBroken (end_of result) ⊎ RunComes D.image D.may_leave D.moment D.reach D.said D.asked desk.old desk.new
        (S.left source.old) (S.left source.new) text (end_of result) [] }
    ensures goes { (text image script : Text) (h : List Entry) → F.text_of shelf.old path.now ≡ Some text →
        D.image desk.old ≡ Some image → S.left source.old ≡ Some script → IsHistoryOf h image → HasProgram h text →
        RunGoes D.image D.may_leave D.moment D.reach D.said D.asked desk.old desk.new text h script (end_of result) [] }
    ensures causes { (text : Text) → F.text_of shelf.old path.now ≡ Some text →
        HasCause (run_form path.now) text (D.image desk.old) (S.left source.old) (end_of result) }

    // The function file comes first, then the store, and then the script.
    ensures file_first { (text : Text) → F.text_of shelf.old path.now ≡ Some text → (IsFunctionFile text → ⊥) →
        (desk.new ≡ desk.old) × (source.new ≡ source.old) × EndsAtFile text (end_of result) }
    ensures store_first { (text image : Text) → F.text_of shelf.old path.now ≡ Some text → D.image desk.old ≡ Some image →
        (IsReady text (Some image) → ⊥) → (source.new ≡ source.old)
        × EndsAtStore D.image D.may_leave D.moment D.reach D.said D.asked D.syncs desk.old desk.new text (end_of result) [] }
    ensures ended { OnOk result (S.ended source.new ≡ true) }
    ensures usage { result ≡ Err Halt.Usage → ⊥ }
    ensures disk { result ≡ Err Halt.Disk → Rose (D.disk_faults desk.old) (D.disk_faults desk.new) }
    ensures disk_kept { (result ≡ Err Halt.Disk → ⊥) → D.disk_faults desk.new ≡ D.disk_faults desk.old }
    ensures say { result ≡ Err Halt.Say → Rose (D.say_faults desk.old) (D.say_faults desk.new) }
    ensures say_kept { (result ≡ Err Halt.Say → ⊥) → D.say_faults desk.new ≡ D.say_faults desk.old }
    ensures files { result ≡ Err Halt.Files → Rose (F.faults shelf.old) (F.faults shelf.new)
        × (desk.new ≡ desk.old) × (source.new ≡ source.old) }
    ensures files_kept { (result ≡ Err Halt.Files → ⊥) → F.faults shelf.new ≡ F.faults shelf.old }
    ensures script { result ≡ Err Halt.Script → Rose (S.faults source.old) (S.faults source.new) }
    ensures script_kept { (result ≡ Err Halt.Script → ⊥) → S.faults source.new ≡ S.faults source.old }
{
    one_history();
    reads_as_settled::<D>();
    let mut session = match begin(alloc, path, desk, shelf) {
        Ok(session) => session,
        Err(halt) => return Err(halt),
    };
    let end = serve_script(alloc, &mut session, desk, source);
    let_go(session);
    match end {
        Ok(()) => Ok(()),
        Err(ScriptStop::Disk) => Err(Halt::Disk),
        Err(ScriptStop::Memory) => Err(Halt::Memory),
        Err(ScriptStop::Say) => Err(Halt::Say),
        Err(ScriptStop::Source) => Err(Halt::Script),
        Err(ScriptStop::TooLong) => Err(Halt::LongScript),
    }
}

/// The command `recover`: a drain of so many turns over the store, with functions from a file.
pub fn recover<D: Desk, F: Shelf>(
    alloc: Global,
    path: &str,
    turns: u32,
    desk: &mut D,
    shelf: &mut F,
) -> Result<(), Halt>
    requires some { 1 ≤ turns }
    requires within { turns ≤ 1000000 }
    requires pending { NothingPending (D.image desk.old) (D.may_leave desk.old) }
    ensures comes { (text : Text) → F.text_of shelf.old path.now ≡ Some text →
        IsBroken (end_of result) ⊎ RecoverComes D.image D.may_leave D.moment D.reach D.said D.asked desk.old desk.new turns text (end_of result) [] }
    ensures goes { (text image : Text) (h : List Entry) → F.text_of shelf.old path.now ≡ Some text →
        D.image desk.old ≡ Some image → IsHistoryOf h image → HasProgram h text →
        RecoverGoes D.image D.may_leave D.moment D.reach D.said D.asked desk.old desk.new text h turns (end_of result) [] }
    ensures causes { (text : Text) (left : Option Text) → F.text_of shelf.old path.now ≡ Some text →
        HasCause (recover_form path.now turns) text (D.image desk.old) left (end_of result) }

    // The function file comes first, and then the store.
    ensures file_first { (text : Text) → F.text_of shelf.old path.now ≡ Some text → (IsFunctionFile text → ⊥) →
        (desk.new ≡ desk.old) × EndsAtFile text (end_of result) }
    ensures store_first { (text image : Text) → F.text_of shelf.old path.now ≡ Some text → D.image desk.old ≡ Some image →
        (IsReady text (Some image) → ⊥) → EndsAtStore D.image D.may_leave D.moment D.reach D.said D.asked D.syncs desk.old desk.new text (end_of result) [] }
    ensures usage { result ≡ Err Halt.Usage → ⊥ }
    ensures script { result ≡ Err Halt.Script → ⊥ }
    ensures disk { result ≡ Err Halt.Disk → Rose (D.disk_faults desk.old) (D.disk_faults desk.new) }
    ensures disk_kept { (result ≡ Err Halt.Disk → ⊥) → D.disk_faults desk.new ≡ D.disk_faults desk.old }
    ensures say { result ≡ Err Halt.Say → Rose (D.say_faults desk.old) (D.say_faults desk.new) }
    ensures say_kept { (result ≡ Err Halt.Say → ⊥) → D.say_faults desk.new ≡ D.say_faults desk.old }
    ensures files { result ≡ Err Halt.Files → Rose (F.faults shelf.old) (F.faults shelf.new) × (desk.new ≡ desk.old) }
    ensures files_kept { (result ≡ Err Halt.Files → ⊥) → F.faults shelf.new ≡ F.faults shelf.old }
{
    one_history();
    reads_as_settled::<D>();
    let mut session = match begin(alloc, path, desk, shelf) {
        Ok(session) => session,
        Err(halt) => return Err(halt),
    };
    let end = serve(alloc, &mut session, desk, &Line::Drain { turns });
    let_go(session);
    match end {
        Ok(()) => Ok(()),
        Err(ServeFault::Disk) => Err(Halt::Disk),
        Err(ServeFault::Memory) => Err(Halt::Memory),
        Err(ServeFault::Say) => Err(Halt::Say),
    }
}

//! The function file and the store of a command.

ghost use Rattle.std.specs.Prelude.{◌≡◌, ◌⊎◌, List, [], false, Err, Some, IfOk, IfErr, OnErr};
ghost use Rattle.std.specs.Option.{ForSome};
ghost use Rattle.r3_desk.specs.Causes.{Rose};
ghost use Rattle.r3_desk.specs.Crash.{NothingPending};
ghost use Rattle.r3_entry.specs.declared.entry.Entry.{Entry};
ghost use Rattle.r3_entry.specs.Image.{IsHistoryOf};
ghost use Rattle.r3_model.specs.Language.{Text};
ghost use Rattle.r3_recover.specs.Opened.{HasProgram};
ghost use Rattle.r3_serve.specs.Served.{Loud, Served};
ghost use Rattle.r3_top.specs.Statuses.{IsBroken};
ghost use Rattle.r3_top.specs.Functions.{IsRefused};
ghost use Rattle.r3_top.specs.Refusals.{EndsAtFile, IsEarly, IsFunctionFile, IsOpened, IsRefusal};
ghost use Rattle.r3_top.specs.Causes.{HasEarlyCause, IsReady};
ghost use Rattle.r3_top.specs.Answered.{Says, Untouched};
ghost use Rattle.r3_top.specs.Going.{Goes, NoWork};
ghost use Rattle.r3_top.specs.Ends.{end_of};
ghost use Rattle.r3_top.specs.declared.functions.FunctionsFault.{FunctionsFault};

use crate::files::{accept, fetch};
use crate::halt::{Halt, entry_of};
use r3_desk::{Desk, Shelf};
use r3_recover::StartFault;
use r3_serve::open;
use r3_session::Session;
use std::alloc::Global;

/// Takes up the store with the functions of a file: these are fetched and read first, then the store is read, then
/// its program is compared, and then the opening is done.
pub fn begin<D: Desk, F: Shelf>(
    alloc: Global,
    path: &str,
    desk: &mut D,
    shelf: &mut F,
) -> Result<Session, Halt>
    requires { NothingPending (D.image desk.old) (D.may_leave desk.old) }
    ensures begins { IfOk result (λ s. (text : Text) × (h : List Entry) × ForSome (F.text_of shelf.old path.now) (λ t. text ≡ t)
        × IsOpened text (D.image desk.old) s.exec.program h
        × Served D.size D.image D.may_leave D.moment D.reach D.said D.asked desk.old desk.new s.exec Loud text h []) }
    ensures whole { IfOk result (λ s. s.failed ≡ false) }
    ensures refuses { (text : Text) → F.text_of shelf.old path.now ≡ Some text →
        IfErr result (λ halt. IsBroken (Some halt)
        ⊎ (IsRefusal text (D.image desk.old) (Some halt) × Says D.image D.said D.asked desk.old desk.new [])) }

    ensures faultless { (text : Text) → F.text_of shelf.old path.now ≡ Some text →
        IfOk result (λ _. (fault : FunctionsFault) → IsRefused text fault → ⊥) }
    ensures causes { (text : Text) → F.text_of shelf.old path.now ≡ Some text →
        IfErr result (λ halt. HasEarlyCause text (D.image desk.old) (Some halt)) }

    // The disk isn't touched before the function file is taken.
    ensures file_first { (text : Text) → F.text_of shelf.old path.now ≡ Some text → (IsFunctionFile text → ⊥) →
        (desk.new ≡ desk.old) × EndsAtFile text (end_of result) }
    ensures unsaid { OnErr result ((D.said desk.new ≡ D.said desk.old) × (D.asked desk.new ≡ D.asked desk.old)) }

    // Where the file is no store, or one of another program, it is left alone, whatever is answered.
    ensures alone { (text image : Text) → F.text_of shelf.old path.now ≡ Some text → D.image desk.old ≡ Some image →
        (IsReady text (Some image) → ⊥) →
        OnErr result (Untouched D.image D.may_leave D.moment D.reach D.said D.asked D.syncs desk.old desk.new) }

    // Where the store is this program's, nothing was done, or the opening may not be settled.
    ensures goes { (text image : Text) (h : List Entry) → F.text_of shelf.old path.now ≡ Some text →
        D.image desk.old ≡ Some image → IsHistoryOf h image → HasProgram h text →
        IfErr result (λ halt. Goes D.image D.may_leave D.moment D.reach D.said D.asked desk.old desk.new text h NoWork (Some halt) []) }
    ensures early { IfErr result IsEarly }
    ensures disk { result ≡ Err Halt.Disk → Rose (D.disk_faults desk.old) (D.disk_faults desk.new) }
    ensures disk_kept { (result ≡ Err Halt.Disk → ⊥) → D.disk_faults desk.new ≡ D.disk_faults desk.old }
    ensures say_faults { D.say_faults desk.new ≡ D.say_faults desk.old }
    ensures files { result ≡ Err Halt.Files → Rose (F.faults shelf.old) (F.faults shelf.new) × (desk.new ≡ desk.old) }
    ensures files_kept { (result ≡ Err Halt.Files → ⊥) → F.faults shelf.new ≡ F.faults shelf.old }
{
    let text = match fetch(alloc, shelf, path) {
        Ok(text) => text,
        Err(halt) => return Err(halt),
    };
    let program = match accept(alloc, &text) {
        Ok(program) => program,
        Err(halt) => return Err(halt),
    };
    // The tokens of functions are ASCII, so there is no other cause.
    let Ok(text) = String::from_utf8(text) else {
        return Err(Halt::Memory);
    };
    match open(alloc, desk, program, text.as_str()) {
        Ok(session) => Ok(session),
        Err(StartFault::Store(fault)) => Err(Halt::Store {
            entry: entry_of(fault),
        }),
        Err(StartFault::Other) => Err(Halt::Program),
        Err(StartFault::Disk) => Err(Halt::Disk),
        Err(StartFault::Memory) => Err(Halt::Memory),
    }
}

//! The command `gen`.

ghost use Rattle.std.specs.Prelude.{◌≡◌, ◌⊎◌, ◌≤◌, ◌^◌, List, [], length, Err, Option, Some, IfErr};
ghost use Rattle.r3_desk.specs.Causes.{Rose};
ghost use Rattle.r3_desk.specs.Crash.{NothingPending};
ghost use Rattle.r3_entry.specs.declared.entry.Entry.{Entry};
ghost use Rattle.r3_entry.specs.Image.{IsHistoryOf};
ghost use Rattle.r3_model.specs.Language.{Text};
ghost use Rattle.r3_recover.specs.Opened.{HasProgram};
ghost use Rattle.r3_words.specs.Forms.{gen as gen_form};
ghost use Rattle.r3_top.specs.Causes.{HasCause, IsReady};
ghost use Rattle.r3_top.specs.Statuses.{IsBroken};
ghost use Rattle.r3_top.specs.Refusals.{EndsAtFile, IsFunctionFile, ReadsNone};
ghost use Rattle.r3_top.specs.Closes.{EndsAtStore};
ghost use Rattle.r3_top.specs.Going.{GenGoes};
ghost use Rattle.r3_top.specs.Ends.{GenComes, end_of};

use crate::files::accept;
use crate::halt::{Halt, entry_of};
use r3_desk::Desk;
use r3_entry::one_history;
use r3_gen::{GenFault, run};
use r3_recover::StartFault;
use r3_store::reads_as_settled;
use std::alloc::Global;

/// Runs the generator's script over the store, with the functions of this text, and says its summary.
pub fn generate<D: Desk>(
    alloc: Global,
    text: &str,
    number: u64,
    count: u32,
    desk: &mut D,
) -> Result<(), Halt>
    requires short { length text.now ≤ 2 ^ 20 }
    requires pending { NothingPending (D.image desk.old) (D.may_leave desk.old) }
    ensures comes { IsBroken (end_of result) ⊎ GenComes D.image D.may_leave D.moment D.reach D.said D.asked desk.old desk.new
        number count text.now (end_of result) [] }
    ensures goes { (image : Text) (h : List Entry) → D.image desk.old ≡ Some image → IsHistoryOf h image → HasProgram h text.now →
        GenGoes D.image D.may_leave D.moment D.reach D.said D.asked desk.old desk.new text.now h number count (end_of result) [] }
    ensures causes { (left : Option Text) →
        HasCause (gen_form number count) text.now (D.image desk.old) left (end_of result) }

    // The functions come first, and then the store.
    ensures file_first { (IsFunctionFile text.now → ⊥) → (desk.new ≡ desk.old) × EndsAtFile text.now (end_of result) }
    ensures store_first { (image : Text) → D.image desk.old ≡ Some image → (IsReady text.now (Some image) → ⊥) →
        EndsAtStore D.image D.may_leave D.moment D.reach D.said D.asked D.syncs desk.old desk.new text.now (end_of result) [] }
    ensures reads_none { IfErr result ReadsNone }
    ensures usage { result ≡ Err Halt.Usage → ⊥ }
    ensures files { result ≡ Err Halt.Files → ⊥ }
    ensures script { result ≡ Err Halt.Script → ⊥ }
    ensures disk { result ≡ Err Halt.Disk → Rose (D.disk_faults desk.old) (D.disk_faults desk.new) }
    ensures disk_kept { (result ≡ Err Halt.Disk → ⊥) → D.disk_faults desk.new ≡ D.disk_faults desk.old }
    ensures say { result ≡ Err Halt.Say → Rose (D.say_faults desk.old) (D.say_faults desk.new) }
    ensures say_kept { (result ≡ Err Halt.Say → ⊥) → D.say_faults desk.new ≡ D.say_faults desk.old }
{
    one_history();
    reads_as_settled::<D>();
    let program = match accept(alloc, text.as_bytes()) {
        Ok(program) => program,
        Err(halt) => return Err(halt),
    };
    match run(alloc, desk, program, text, number, count) {
        Ok(()) => Ok(()),
        Err(GenFault::Start(StartFault::Store(fault))) => Err(Halt::Store {
            entry: entry_of(fault),
        }),
        Err(GenFault::Start(StartFault::Other)) => Err(Halt::Program),
        Err(GenFault::Start(StartFault::Disk)) => Err(Halt::Disk),
        Err(GenFault::Start(StartFault::Memory)) => Err(Halt::Memory),
        Err(GenFault::Disk) => Err(Halt::Disk),
        Err(GenFault::Memory) => Err(Halt::Memory),
        Err(GenFault::Say) => Err(Halt::Say),
    }
}

//! A run of the script, from the opening to the summary.

ghost use Rattle.std.specs.Prelude.{◌≡◌, ◌⊎◌, ◌≤◌, List, [], false, length, Err, OnOk, OnErr, IsErrOf, IsErrAnd};
ghost use Rattle.std.specs.Option.{ForSome};
ghost use Rattle.r3_desk.specs.Causes.{Rose};
ghost use Rattle.r3_desk.specs.Crash.{NothingPending};
ghost use Rattle.r3_entry.specs.declared.entry.Entry.{Entry};
ghost use Rattle.r3_entry.specs.Image.{IsHistoryOf};
ghost use Rattle.r3_model.specs.Functions.{language_of};
ghost use Rattle.r3_model.specs.Generator.{generated};
ghost use Rattle.r3_model.specs.Language.{Text};
ghost use Rattle.r3_exec.specs.Runs.{language};
ghost use Rattle.r3_exec.specs.declared.exec.Exec.{Exec};
ghost use Rattle.r3_recover.specs.Opened.{HasProgram, HasCause, IsHalted, IsNoneOf, WasRead};
ghost use Rattle.r3_session.specs.Begun.{StopsOpening};
ghost use Rattle.r3_serve.specs.Served.{Quiet, Served};
ghost use Rattle.r3_gen.specs.Ran.{Ran, SummaryFailed, EndsEarly};

use crate::fault::GenFault;
use crate::script::generate;
use crate::summary::summary_of;
use fn_tree::checked::Checked;
use r3_desk::Desk;
use r3_recover::StartFault;
use r3_serve::{ServeFault, open};
use r3_session::Session;
use r3_store::reads_as_settled;
use std::alloc::Global;

/// Runs the script over a store that was opened, and says its summary.
pub fn run_opened<D: Desk>(
    alloc: Global,
    session: &mut Session,
    desk: &mut D,
    number: u64,
    count: u32,
) -> Result<(), ServeFault>
    requires whole { session.old.failed ≡ false }
    requires served { (from : D) × (text : Text) × (h : List Entry) ×
        Served D.size D.image D.may_leave D.moment D.reach D.said D.asked from desk.old session.old.exec Quiet text h [] }
    ensures runs { (from : D) (text : Text) (h : List Entry) →
        Served D.size D.image D.may_leave D.moment D.reach D.said D.asked from desk.old session.old.exec Quiet text h [] →
        OnOk result (Ran D.image D.moment D.reach D.said D.asked from desk.new (language session.old.exec) text h (generated number count) count) }
    ensures stops { (from : D) (text : Text) (h : List Entry) →
        Served D.size D.image D.may_leave D.moment D.reach D.said D.asked from desk.old session.old.exec Quiet text h [] →
        OnErr result (EndsEarly D.size D.image D.may_leave D.moment D.reach D.said D.asked from desk.new session.new.exec text h (generated number count) count) }

    // A say failed only where the summary's did. With each other fault nothing is said.
    ensures say_whole { (from : D) (text : Text) (h : List Entry) →
        Served D.size D.image D.may_leave D.moment D.reach D.said D.asked from desk.old session.old.exec Quiet text h [] →
        IsErrOf result ServeFault.Say →
        SummaryFailed D.image D.moment D.reach D.said D.asked from desk.new (language session.old.exec) text h (generated number count) count }
    ensures silent { (IsErrOf result ServeFault.Say → ⊥) → OnErr result (D.said desk.new ≡ D.said desk.old) }
    ensures program { session.new.exec.program ≡ session.old.exec.program }
    ensures disk { IsErrOf result ServeFault.Disk → Rose (D.disk_faults desk.old) (D.disk_faults desk.new) }
    ensures no_fault { (IsErrOf result ServeFault.Disk → ⊥) → D.disk_faults desk.new ≡ D.disk_faults desk.old }
    ensures say { IsErrOf result ServeFault.Say → Rose (D.say_faults desk.old) (D.say_faults desk.new) }
    ensures no_say { (IsErrOf result ServeFault.Say → ⊥) → D.say_faults desk.new ≡ D.say_faults desk.old }
{
    reads_as_settled::<D>();
    match generate(alloc, session, desk, number, count) {
        Ok(()) => {}
        Err(fault) => return Err(fault),
    }
    let summary = match summary_of(alloc, session, count) {
        Ok(summary) => summary,
        Err(_) => return Err(ServeFault::Memory),
    };
    match desk.say(summary.as_slice()) {
        Ok(()) => Ok(()),
        Err(_) => Err(ServeFault::Say),
    }
}

/// Takes up the store that the file is, with the program that it was begun with, whose text this is, runs the
/// script, and says its summary.
pub fn run<D: Desk>(
    alloc: Global,
    desk: &mut D,
    program: Checked,
    text: &str,
    number: u64,
    count: u32,
) -> Result<(), GenFault>
    requires pending { NothingPending (D.image desk.old) (D.may_leave desk.old) }
    requires short { length text.now ≤ 1048576 }
    ensures runs { OnOk result ((h : List Entry) × ForSome (D.image desk.old) (IsHistoryOf h) × HasProgram h text.now
        × Ran D.image D.moment D.reach D.said D.asked desk.old desk.new (language_of program) text.now h (generated number count) count) }

    // It isn't opened: as an opening says.
    ensures causes { (fault : StartFault) → result ≡ Err (GenFault.Start fault) → HasCause (D.image desk.old) text.now fault }
    ensures other { (h : List Entry) → ForSome (D.image desk.old) (λ i. IsHistoryOf h i → (HasProgram h text.now → ⊥) →
        IsErrAnd result (λ fault. (start : StartFault) × (fault ≡ GenFault.Start start) × ((start ≡ StartFault.Other) ⊎ IsHalted start))) }
    ensures opens { (h : List Entry) → ForSome (D.image desk.old) (λ i. IsHistoryOf h i → HasProgram h text.now →
        (fault : StartFault) → result ≡ Err (GenFault.Start fault) → IsHalted fault) }
    ensures unopened { (h : List Entry) → ForSome (D.image desk.old) (λ i. IsHistoryOf h i →
        (fault : StartFault) → result ≡ Err (GenFault.Start fault) →
        StopsOpening D.image D.moment D.reach D.said D.asked (language_of program) desk.old desk.new text.now h) }
    ensures kept { (fault : _) → result ≡ Err (GenFault.Start (StartFault.Store fault)) → D.image desk.new ≡ D.image desk.old }
    ensures other_kept { result ≡ Err (GenFault.Start StartFault.Other) → D.image desk.new ≡ D.image desk.old }

    // Where the file is no store, or one of another program, it is left alone, whatever is answered.
    ensures alone { ForSome (D.image desk.old) (λ i. IsNoneOf text.now i →
        WasRead D.image D.may_leave D.moment D.reach D.said D.asked D.syncs desk.old desk.new) }

    ensures unsaid { (fault : StartFault) → result ≡ Err (GenFault.Start fault) → D.said desk.new ≡ D.said desk.old }
    ensures unasked { (fault : StartFault) → result ≡ Err (GenFault.Start fault) → D.asked desk.new ≡ D.asked desk.old }

    // It was opened, and has ended early.
    ensures stops { OnErr result (((fault : StartFault) × (result ≡ Err (GenFault.Start fault))) ⊎
        ((h : List Entry) × ForSome (D.image desk.old) (IsHistoryOf h) × HasProgram h text.now
        × (exec : Exec) × (exec.program ≡ program)
        × EndsEarly D.size D.image D.may_leave D.moment D.reach D.said D.asked desk.old desk.new exec text.now h (generated number count) count)) }

    // A say failed only where the summary's did. With each other fault nothing is said.
    ensures say_whole { result ≡ Err GenFault.Say →
        (h : List Entry) × ForSome (D.image desk.old) (IsHistoryOf h) × HasProgram h text.now
        × SummaryFailed D.image D.moment D.reach D.said D.asked desk.old desk.new (language_of program) text.now h (generated number count) count }
    ensures silent { (result ≡ Err GenFault.Say → ⊥) → OnErr result (D.said desk.new ≡ D.said desk.old) }
    ensures disk { (result ≡ Err GenFault.Disk) ⊎ (result ≡ Err (GenFault.Start StartFault.Disk)) → Rose (D.disk_faults desk.old) (D.disk_faults desk.new) }
    ensures no_fault { (result ≡ Err GenFault.Disk → ⊥) → (result ≡ Err (GenFault.Start StartFault.Disk) → ⊥) → D.disk_faults desk.new ≡ D.disk_faults desk.old }
    ensures say { result ≡ Err GenFault.Say → Rose (D.say_faults desk.old) (D.say_faults desk.new) }
    ensures no_say { (result ≡ Err GenFault.Say → ⊥) → D.say_faults desk.new ≡ D.say_faults desk.old }
{
    let mut session = match open(alloc, desk, program, text) {
        Ok(session) => session,
        Err(fault) => return Err(GenFault::Start(fault)),
    };
    match run_opened(alloc, &mut session, desk, number, count) {
        Ok(()) => Ok(()),
        Err(ServeFault::Disk) => Err(GenFault::Disk),
        Err(ServeFault::Memory) => Err(GenFault::Memory),
        Err(ServeFault::Say) => Err(GenFault::Say),
    }
}

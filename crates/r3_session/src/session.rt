//! A session.

ghost use Rattle.std.specs.Prelude.{◌≡◌, ◌⊎◌, ◌≤◌, ℕ, List, true, false, length, Err, IfOk, IfErr, OnOk, OnErr, IsErrOf, IsErrAnd};
ghost use Rattle.std.specs.Option.{ForSome};
ghost use Rattle.r3_desk.specs.Causes.{Rose};
ghost use Rattle.r3_desk.specs.Crash.{NothingPending};
ghost use Rattle.r3_entry.specs.declared.entry.Entry.{Entry};
ghost use Rattle.r3_entry.specs.Image.{IsHistoryOf};
ghost use Rattle.r3_model.specs.Forms.{line_of};
ghost use Rattle.r3_model.specs.Functions.{language_of};
ghost use Rattle.r3_model.specs.Machine.{State};
ghost use Rattle.r3_exec.specs.Does.{SyncsWithin};
ghost use Rattle.r3_exec.specs.Runs.{Runs, language};
ghost use Rattle.r3_recover.specs.Drained.{Raised};
ghost use Rattle.r3_recover.specs.Opened.{HasProgram, HasCause, IsHalted, IsNoneOf, WasRead};
ghost use Rattle.r3_session.specs.Answered.{DoesLine, StopsLine};
ghost use Rattle.r3_lines.specs.Lines.{as_line, IsKept};
ghost use Rattle.r3_session.specs.Begun.{HasBegun, StopsOpening};

use crate::answering::answered;
use fn_tree::checked::Checked;
use r3_desk::Desk;
use r3_entry::one_history;
use r3_exec::{Exec, ExecFault};
use r3_lines::{Line, read_line};
use r3_model::drains_by_turns;
use r3_recover::{StartFault, open_exec};
use r3_store::reads_as_settled;
use std::alloc::Global;
use thiserror::Error;

/// Why a line has no reply.
#[derive(Clone, Copy, Debug, PartialEq, Eq, Error)]
pub enum SessionFault {
    /// The disk has failed.
    #[error("the disk has failed")]
    Disk,
    /// There was no memory.
    #[error("out of memory")]
    Memory,
}

/// The lines of a script over a store, answered one after another.
#[derive(Drop)]
pub struct Session {
    pub(crate) exec: Exec,
    pub(crate) failed: bool,
}

// An executor that isn't used again.
fn let_go(_exec: Exec) {}

impl Session {
    /// Takes up the store that the file is, with the program that it was begun with, whose text this is.
    ///
    /// To an empty store the program is appended. Else each running workflow is recovered, the first started
    /// first; where there is no more room, it stays as it is. All is settled.
    pub fn open<D: Desk>(
        alloc: Global,
        desk: &mut D,
        program: Checked,
        text: &str,
    ) -> Result<Session, StartFault>
        requires pending { NothingPending (D.image desk.old) (D.may_leave desk.old) }
        requires short { length text.now ≤ 1048576 }
        ensures does { IfOk result (λ s. HasBegun D.size D.image D.may_leave D.moment D.reach D.said D.asked D.syncs
            desk.old desk.new s.exec text.now) }
        ensures program { IfOk result (λ s. s.exec.program ≡ program) }
        ensures whole { IfOk result (λ s. s.failed ≡ false) }
        ensures causes { IfErr result (HasCause (D.image desk.old) text.now) }

        // No other answer comes where the image is told, but for a disk that fails and want of memory.
        ensures other { (h : List Entry) → ForSome (D.image desk.old) (λ i. IsHistoryOf h i → (HasProgram h text.now → ⊥) →
            IsErrAnd result (λ fault. (fault ≡ StartFault.Other) ⊎ IsHalted fault)) }
        ensures opens { (h : List Entry) → ForSome (D.image desk.old) (λ i. IsHistoryOf h i → HasProgram h text.now →
            IfErr result IsHalted) }

        // Where it comes to none, a crash leaves what stood before, or what the opening has added too.
        ensures stops { (h : List Entry) → ForSome (D.image desk.old) (λ i. IsHistoryOf h i →
            OnErr result (StopsOpening D.image D.moment D.reach D.said D.asked (language_of program) desk.old desk.new text.now h)) }

        // The header of a new file costs one, and settling two.
        ensures few_syncs { SyncsWithin (D.syncs desk.old) (D.syncs desk.new) 3 }
        ensures kept { (fault : _) → result ≡ Err (StartFault.Store fault) → D.image desk.new ≡ D.image desk.old }
        ensures other_kept { result ≡ Err StartFault.Other → D.image desk.new ≡ D.image desk.old }

        // Where the file is no store, or one of another program, it is left alone, whatever is answered.
        ensures alone { ForSome (D.image desk.old) (λ i. IsNoneOf text.now i →
            WasRead D.image D.may_leave D.moment D.reach D.said D.asked D.syncs desk.old desk.new) }

        ensures disk { IsErrOf result StartFault.Disk → Rose (D.disk_faults desk.old) (D.disk_faults desk.new) }
        ensures no_fault { (IsErrOf result StartFault.Disk → ⊥) → D.disk_faults desk.new ≡ D.disk_faults desk.old }
        ensures said { D.said desk.new ≡ D.said desk.old }
        ensures asked { D.asked desk.new ≡ D.asked desk.old }
        ensures say_faults { D.say_faults desk.new ≡ D.say_faults desk.old }
        ensures ask_faults { D.ask_faults desk.new ≡ D.ask_faults desk.old }
    {
        one_history();
        match open_exec(alloc, desk, program, text) {
            Ok(mut exec) => match exec.settle(desk) {
                Ok(()) => Ok(Session {
                    exec,
                    failed: false,
                }),
                Err(ExecFault::Disk) => {
                    let_go(exec);
                    Err(StartFault::Disk)
                }
                Err(ExecFault::Memory) => {
                    let_go(exec);
                    Err(StartFault::Memory)
                }
            },
            Err(fault) => Err(fault),
        }
    }

    /// The state: what the executor reads.
    pub fn exec(&self) -> &Exec
        ensures { result.now ≡ self.now.exec }
    {
        &self.exec
    }

    /// Whether a line has ended with a fault. Then the session isn't used again: open the store anew.
    pub fn failed(&self) -> bool
        ensures { result ≡ self.now.failed }
    {
        self.failed
    }

    /// Answers a line that was read already. The reply is its text, a line of JSON; all is settled when it is
    /// handed out.
    pub fn answer<D: Desk>(
        &mut self,
        alloc: Global,
        desk: &mut D,
        line: &Line,
    ) -> Result<Vec<u8>, SessionFault>
        requires whole { self.old.failed ≡ false }
        requires kept { IsKept line.now }
        requires runs { (st : State) × Runs D.size D.image D.may_leave desk.old self.old.exec st (length st.history) }
        ensures does { (st : State) → Runs D.size D.image D.may_leave desk.old self.old.exec st (length st.history) →
            IfOk result (λ text. DoesLine D.size D.image D.may_leave D.moment D.reach D.said D.asked D.syncs
            desk.old desk.new self.new.exec st (as_line line.now) text.items) }
        ensures stops { (st : State) → Runs D.size D.image D.may_leave desk.old self.old.exec st (length st.history) →
            OnErr result (StopsLine D.image D.moment D.reach D.said D.asked D.syncs (language self.old.exec) desk.old desk.new st (as_line line.now)) }
        ensures program { self.new.exec.program ≡ self.old.exec.program }
        ensures on_ok { OnOk result (self.new.failed ≡ false) }
        ensures on_fault { OnErr result (self.new.failed ≡ true) }
        ensures disk { IsErrOf result SessionFault.Disk → Rose (D.disk_faults desk.old) (D.disk_faults desk.new) }
        ensures no_fault { (IsErrOf result SessionFault.Disk → ⊥) → D.disk_faults desk.new ≡ D.disk_faults desk.old }
        ensures ask_faults { (n : ℕ) × Raised n (D.ask_faults desk.old) (D.ask_faults desk.new) }
        ensures said { D.said desk.new ≡ D.said desk.old }
        ensures say_faults { D.say_faults desk.new ≡ D.say_faults desk.old }
    {
        let answer = answered(alloc, &mut self.exec, desk, line);
        self.failed = answer.is_err();
        match answer {
            Ok(text) => Ok(text),
            Err(ExecFault::Disk) => Err(SessionFault::Disk),
            Err(ExecFault::Memory) => Err(SessionFault::Memory),
        }
    }

    /// Answers a line, with or without its newline.
    pub fn step<D: Desk>(
        &mut self,
        alloc: Global,
        desk: &mut D,
        line: &[u8],
    ) -> Result<Vec<u8>, SessionFault>
        requires whole { self.old.failed ≡ false }
        requires runs { (st : State) × Runs D.size D.image D.may_leave desk.old self.old.exec st (length st.history) }
        ensures does { (st : State) → Runs D.size D.image D.may_leave desk.old self.old.exec st (length st.history) →
            IfOk result (λ text. DoesLine D.size D.image D.may_leave D.moment D.reach D.said D.asked D.syncs
            desk.old desk.new self.new.exec st (line_of line.now) text.items) }
        ensures stops { (st : State) → Runs D.size D.image D.may_leave desk.old self.old.exec st (length st.history) →
            OnErr result (StopsLine D.image D.moment D.reach D.said D.asked D.syncs (language self.old.exec) desk.old desk.new st (line_of line.now)) }
        ensures program { self.new.exec.program ≡ self.old.exec.program }
        ensures on_ok { OnOk result (self.new.failed ≡ false) }
        ensures on_fault { OnErr result (self.new.failed ≡ true) }
        ensures disk { IsErrOf result SessionFault.Disk → Rose (D.disk_faults desk.old) (D.disk_faults desk.new) }
        ensures no_fault { (IsErrOf result SessionFault.Disk → ⊥) → D.disk_faults desk.new ≡ D.disk_faults desk.old }
        ensures ask_faults { (n : ℕ) × Raised n (D.ask_faults desk.old) (D.ask_faults desk.new) }
        ensures said { D.said desk.new ≡ D.said desk.old }
        ensures say_faults { D.say_faults desk.new ≡ D.say_faults desk.old }
    {
        reads_as_settled::<D>();
        drains_by_turns();
        match read_line(alloc, line) {
            Ok(line) => self.answer(alloc, desk, &line),
            Err(_) => {
                self.failed = true;
                Err(SessionFault::Memory)
            }
        }
    }
}

//! Commands.

ghost use Rattle.std.specs.Prelude.{◌+◌, List, length, take, ◌≡◌, ℕ, IfOk, OnOk, IsErrOf};
ghost use Rattle.std.specs.Option.{ForSome};
ghost use Rattle.r3_desk.specs.Causes.{Rose};
ghost use Rattle.r3_desk.specs.Moments.{LeavesImage};
ghost use Rattle.r3_entry.specs.Image.{IsHistoryOf};
ghost use Rattle.r3_model.specs.Machine.{State};
ghost use Rattle.r3_model.specs.Event.{Run};
ghost use Rattle.r3_model.specs.Fits.{IsFit};
ghost use Rattle.r3_exec.specs.Discards.{DiscardsWhenDue};
ghost use Rattle.r3_exec.specs.Runs.{Runs, language};
ghost use Rattle.r3_exec.specs.Does.{Does, IsRead, Leaves};
ghost use Rattle.r3_exec.specs.Ends.{command_reply};
ghost use Rattle.r3_exec.specs.Entered.{HasNumber, reply_after};
ghost use Rattle.r3_entry.specs.declared.entry.Entry.{Entry as E};
ghost use Rattle.r3_store.specs.Holds.{Stands as StoreStands};
ghost use Rattle.r3_model.specs.Commands.{commanded};
ghost use Rattle.r3_commands.specs.Drafts.{given_of, reply_of};

use crate::ends::{CommandEnd, ExecFault};
use crate::enter::Entered;
use crate::exec::Exec;
use r3_commands::{Draft, draft};
use r3_desk::Desk;
use r3_entry::Entry;
use r3_store::reads_as_settled;
use r3_value::Txt;
use std::alloc::Global;
use sys_flow::Command;

// What a command came to whose entry came to this.
fn command_end(entered: Entered, id: Option<Txt>) -> CommandEnd
    ensures { (h : List E) → HasNumber h entered → command_reply result ≡ reply_after (reply_of (length h + 1) id) entered }
{
    match entered {
        Entered::Number(number) => CommandEnd::Made { number, id },
        Entered::Full(limit) => CommandEnd::Full { limit },
    }
}

impl Exec {
    // The entry of a command that isn't refused.
    fn enter_command<D: Desk>(
        &mut self,
        alloc: Global,
        desk: &mut D,
        command: &Command,
        entry: Entry,
        id: Option<Txt>,
    ) -> Result<CommandEnd, ExecFault>
        requires drafted { (h : List E) → StoreStands self.old.store h → given_of (length h) (Draft.Enters entry id) ≡ commanded (language self.old) h command.now }
        requires given { IsFit command.now }
        requires runs { (st : State) × (k : ℕ) × Runs D.size D.image D.may_leave desk.old self.old st k }
        ensures does { (st : State) (k : ℕ) → Runs D.size D.image D.may_leave desk.old self.old st k →
            IfOk result (λ end. Does D.size D.image D.may_leave D.asked D.syncs desk.old desk.new self.new st k (Run command.now) (command_reply end)) }
        ensures program { self.new.program ≡ self.old.program }
        ensures discards { OnOk result (DiscardsWhenDue self.old self.new) }

        // Whatever it comes to, a crash at any moment leaves what was settled before, or all that stood before the event,
        // and that for sure once its call is asked. So reads the disk.
        ensures crash { (st : State) (k : ℕ) → Runs D.size D.image D.may_leave desk.old self.old st k →
            Leaves D.moment D.reach D.said D.asked desk.old desk.new st.history k }
        ensures reads { (st : State) (k : ℕ) → Runs D.size D.image D.may_leave desk.old self.old st k →
            ForSome (D.image desk.new) (IsRead st.history k) }

        // More exactly: what is staged by then isn't on the disk.
        ensures staged { (st : State) (k : ℕ) → Runs D.size D.image D.may_leave desk.old self.old st k →
            LeavesImage D.moment D.reach D.may_leave D.said D.asked desk.old desk.new (IsHistoryOf (take k st.history)) }
        ensures reads_settled { (st : State) (k : ℕ) → Runs D.size D.image D.may_leave desk.old self.old st k →
            ForSome (D.image desk.new) (IsHistoryOf (take k st.history)) }

        // The entry isn't settled.
        ensures syncs { D.syncs desk.new ≡ D.syncs desk.old }
        ensures asked { D.asked desk.new ≡ D.asked desk.old }
        ensures disk { IsErrOf result ExecFault.Disk → Rose (D.disk_faults desk.old) (D.disk_faults desk.new) }
        ensures no_fault { (IsErrOf result ExecFault.Disk → ⊥) → D.disk_faults desk.new ≡ D.disk_faults desk.old }
        ensures ask_faults { D.ask_faults desk.new ≡ D.ask_faults desk.old }
        ensures said { D.said desk.new ≡ D.said desk.old }
        ensures say_faults { D.say_faults desk.new ≡ D.say_faults desk.old }
    {
        match self.enter(alloc, desk, entry) {
            Ok(entered) => Ok(command_end(entered, id)),
            Err(fault) => Err(fault),
        }
    }

    /// Does a command, or tells its first refusal, after which all is as before.
    ///
    /// A load has 1 to 1,024 rows, and arguments are a list. Where an ID is used again for the same function
    /// nothing is appended, and the answer is that of its first use. A recovery is refused where no workflow has
    /// the ID, and with its status where it doesn't run.
    pub fn append<D: Desk>(
        &mut self,
        alloc: Global,
        desk: &mut D,
        command: &Command,
    ) -> Result<CommandEnd, ExecFault>
        requires given { IsFit command.now }
        requires runs { (st : State) × (k : ℕ) × Runs D.size D.image D.may_leave desk.old self.old st k }
        ensures does { (st : State) (k : ℕ) → Runs D.size D.image D.may_leave desk.old self.old st k →
            IfOk result (λ end. Does D.size D.image D.may_leave D.asked D.syncs desk.old desk.new self.new st k (Run command.now) (command_reply end)) }
        ensures program { self.new.program ≡ self.old.program }

        // Versions are discarded where it closes a snapshot, if 1,024 entries were added since the last time.
        ensures discards { OnOk result (DiscardsWhenDue self.old self.new) }

        // Whatever it comes to, a crash at any moment leaves what was settled before, or all that stood before the event,
        // and that for sure once its call is asked. So reads the disk.
        ensures crash { (st : State) (k : ℕ) → Runs D.size D.image D.may_leave desk.old self.old st k →
            Leaves D.moment D.reach D.said D.asked desk.old desk.new st.history k }
        ensures reads { (st : State) (k : ℕ) → Runs D.size D.image D.may_leave desk.old self.old st k →
            ForSome (D.image desk.new) (IsRead st.history k) }

        // More exactly: what is staged by then isn't on the disk.
        ensures staged { (st : State) (k : ℕ) → Runs D.size D.image D.may_leave desk.old self.old st k →
            LeavesImage D.moment D.reach D.may_leave D.said D.asked desk.old desk.new (IsHistoryOf (take k st.history)) }
        ensures reads_settled { (st : State) (k : ℕ) → Runs D.size D.image D.may_leave desk.old self.old st k →
            ForSome (D.image desk.new) (IsHistoryOf (take k st.history)) }

        // The entry isn't settled.
        ensures syncs { D.syncs desk.new ≡ D.syncs desk.old }
        ensures asked { D.asked desk.new ≡ D.asked desk.old }
        ensures disk { IsErrOf result ExecFault.Disk → Rose (D.disk_faults desk.old) (D.disk_faults desk.new) }
        ensures no_fault { (IsErrOf result ExecFault.Disk → ⊥) → D.disk_faults desk.new ≡ D.disk_faults desk.old }
        ensures ask_faults { D.ask_faults desk.new ≡ D.ask_faults desk.old }
        ensures said { D.said desk.new ≡ D.said desk.old }
        ensures say_faults { D.say_faults desk.new ≡ D.say_faults desk.old }
    {
        reads_as_settled::<D>();
        match draft(alloc, self, &self.program, command) {
            Ok(Draft::Enters { entry, id }) => self.enter_command(alloc, desk, command, entry, id),
            Ok(Draft::Known { number, id }) => Ok(CommandEnd::Made {
                number,
                id: Some(id),
            }),
            Ok(Draft::Refused(refusal)) => Ok(CommandEnd::Refused(refusal)),
            Err(_) => Err(ExecFault::Memory),
        }
    }
}

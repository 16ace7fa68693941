//! One dequeue of a queue.

ghost use Rattle.std.specs.Prelude.{◌≡◌, ◌+◌, ℕ, List, length, IfOk, OnOk, IsErrOf, IsTrue, Some, None, Ok};
ghost use Rattle.std.specs.Option.{ForSome};
ghost use Rattle.std.specs.List.{list_any};
ghost use Rattle.r3_desk.specs.Causes.{Rose};
ghost use Rattle.r3_entry.specs.declared.entry.Entry.{Entry as E};
ghost use Rattle.r3_rows.specs.declared.rows.FlowRow.{FlowRow as Row};
ghost use Rattle.r3_store.specs.Holds.{Stands as StoreStands};
ghost use Rattle.r3_model.specs.Acts.{dequeue_entry};
ghost use Rattle.r3_model.specs.Machine.{State};
ghost use Rattle.r3_model.specs.Rows.{flow_at};
ghost use Rattle.std.specs.Str.{bytes_eq};
ghost use Rattle.r3_model.specs.Language.{Queue};
ghost use Rattle.r3_model.specs.Event.{Dequeue, EntryOf};
ghost use Rattle.r3_model.specs.Given.{Answers};
ghost use Rattle.r3_model.specs.Queues.{dequeued};
ghost use Rattle.r3_exec.specs.Runs.{Runs, Stands, language};
ghost use Rattle.r3_exec.specs.Discards.{DiscardsWhenDue};
ghost use Rattle.r3_exec.specs.Does.{Does, IsRead, Leaves};
ghost use Rattle.r3_exec.specs.Ends.{dequeue_reply};
ghost use Rattle.r3_exec.specs.Entered.{Gives, HasNumber, reply_after};

use crate::ends::{DequeueEnd, ExecFault};
use crate::enter::Entered;
use crate::exec::Exec;
use r3_acts::dequeue_entry;
use r3_desk::Desk;
use r3_entry::Entry;
use r3_laws::queues_tell;
use r3_past::flow_row;
use r3_store::reads_as_settled;
use r3_value::{Memory, Txt};
use std::alloc::Global;
use sys_queue::Next;

// What a queue comes to.
#[derive(Drop)]
enum Dequeued {
    // This entry starts this workflow.
    Starts { entry: Entry, id: Txt },
    // No workflow is started.
    Stays(DequeueEnd),
}

// What a dequeue came to whose entry came to this.
fn dequeue_end(entered: Entered, id: Txt) -> DequeueEnd
    ensures { (h : List E) → HasNumber h entered → dequeue_reply result ≡ reply_after (EntryOf (length h + 1) id) entered }
{
    match entered {
        Entered::Number(number) => DequeueEnd::Started { id, number },
        Entered::Full(limit) => DequeueEnd::Full { limit },
    }
}

impl Exec {
    // The entry that starts a workflow, with the workflow.
    fn start_of(&self, alloc: Global, id: &Txt) -> Result<(Entry, Txt), Memory>
        requires there { (h : List E) × (row : Row) × StoreStands self.now.store h × (flow_at h (length h) id.now ≡ Some row) }
        ensures { (h : List E) (row : Row) → StoreStands self.now.store h → flow_at h (length h) id.now ≡ Some row →
            IfOk result (λ s. (s.0 ≡ dequeue_entry h id.now row) × (s.1 ≡ id.now)) }
    {
        match flow_row(alloc, self, id.as_str())? {
            Some(row) => {
                let copy = id.copy()?;
                let entry = dequeue_entry(alloc, self.store.len(), id, row)?;
                Ok((entry, copy))
            }
            None => unreachable!(),
        }
    }

    // What the queue comes to.
    fn dequeued(&self, alloc: Global, queue: &str) -> Result<Dequeued, Memory>
        requires declared { IsTrue (list_any (λ (q : Queue). bytes_eq q.name queue.now) (language self.now).queues) }
        requires stands { (st : State) × Stands self.now st }
        ensures starts { (st : State) (entry : E) (id : List ℕ) → Stands self.now st → result ≡ Ok (Dequeued.Starts entry id) →
            Gives (language self.now) st (Dequeue queue.now) None entry (EntryOf (length st.history + 1) id) }
        ensures stays { (st : State) (end : DequeueEnd) → Stands self.now st → result ≡ Ok (Dequeued.Stays end) →
            dequeued st.history (language self.now) queue.now ≡ Answers (dequeue_reply end) }
    {
        queues_tell();
        match self.queues.next(queue) {
            Next::Ready { id } => {
                let (entry, id) = self.start_of(alloc, id)?;
                Ok(Dequeued::Starts { entry, id })
            }
            Next::Empty => Ok(Dequeued::Stays(DequeueEnd::Empty)),
            Next::Limit { running } => Ok(Dequeued::Stays(DequeueEnd::Limit { running })),
        }
    }

    // The entry that starts the workflow of this ID.
    fn enter_start<D: Desk>(
        &mut self,
        alloc: Global,
        desk: &mut D,
        queue: &str,
        entry: Entry,
        id: Txt,
    ) -> Result<DequeueEnd, ExecFault>
        requires gives { (st : State) → Stands self.old st → Gives (language self.old) st (Dequeue queue.now) None entry (EntryOf (length st.history + 1) id) }
        requires runs { (st : State) × (k : ℕ) × Runs D.size D.image D.may_leave desk.old self.old st k }
        ensures does { (st : State) (k : ℕ) → Runs D.size D.image D.may_leave desk.old self.old st k →
            IfOk result (λ end. Does D.size D.image D.may_leave D.asked D.syncs desk.old desk.new self.new st k (Dequeue queue.now) (dequeue_reply end)) }
        ensures program { self.new.program ≡ self.old.program }
        ensures discards { OnOk result (DiscardsWhenDue self.old self.new) }

        // Whatever it comes to, a crash at any moment leaves what was settled before, or all that stood before the event,
        // and that for sure once its call is asked. So reads the disk.
        ensures crash { (st : State) (k : ℕ) → Runs D.size D.image D.may_leave desk.old self.old st k →
            Leaves D.moment D.reach D.said D.asked desk.old desk.new st.history k }
        ensures reads { (st : State) (k : ℕ) → Runs D.size D.image D.may_leave desk.old self.old st k →
            ForSome (D.image desk.new) (IsRead st.history k) }

        // The entry isn't settled.
        ensures syncs { D.syncs desk.new ≡ D.syncs desk.old }
        ensures asked { D.asked desk.new ≡ D.asked desk.old }
        ensures disk { IsErrOf result ExecFault.Disk → Rose (D.disk_faults desk.old) (D.disk_faults desk.new) }
        ensures no_fault { (IsErrOf result ExecFault.Disk → ⊥) → D.disk_faults desk.new ≡ D.disk_faults desk.old }
        ensures ask_faults { D.ask_faults desk.new ≡ D.ask_faults desk.old }
        ensures said { D.said desk.new ≡ D.said desk.old }
        ensures say_faults { D.say_faults desk.new ≡ D.say_faults desk.old }
    {
        match self.enter(alloc, desk, entry) {
            Ok(entered) => Ok(dequeue_end(entered, id)),
            Err(fault) => Err(fault),
        }
    }

    /// Starts the workflow of a declared queue that comes next, where the bound allows it.
    pub fn dequeue<D: Desk>(
        &mut self,
        alloc: Global,
        desk: &mut D,
        queue: &str,
    ) -> Result<DequeueEnd, ExecFault>
        requires declared { IsTrue (list_any (λ (q : Queue). bytes_eq q.name queue.now) (language self.old).queues) }
        requires runs { (st : State) × (k : ℕ) × Runs D.size D.image D.may_leave desk.old self.old st k }
        ensures does { (st : State) (k : ℕ) → Runs D.size D.image D.may_leave desk.old self.old st k →
            IfOk result (λ end. Does D.size D.image D.may_leave D.asked D.syncs desk.old desk.new self.new st k (Dequeue queue.now) (dequeue_reply end)) }
        ensures program { self.new.program ≡ self.old.program }

        // It closes no snapshot, so that nothing is discarded, and none is noted as done.
        ensures discards { OnOk result (DiscardsWhenDue self.old self.new) }

        // Whatever it comes to, a crash at any moment leaves what was settled before, or all that stood before the event,
        // and that for sure once its call is asked. So reads the disk.
        ensures crash { (st : State) (k : ℕ) → Runs D.size D.image D.may_leave desk.old self.old st k →
            Leaves D.moment D.reach D.said D.asked desk.old desk.new st.history k }
        ensures reads { (st : State) (k : ℕ) → Runs D.size D.image D.may_leave desk.old self.old st k →
            ForSome (D.image desk.new) (IsRead st.history k) }

        // The entry isn't settled.
        ensures syncs { D.syncs desk.new ≡ D.syncs desk.old }
        ensures asked { D.asked desk.new ≡ D.asked desk.old }
        ensures disk { IsErrOf result ExecFault.Disk → Rose (D.disk_faults desk.old) (D.disk_faults desk.new) }
        ensures no_fault { (IsErrOf result ExecFault.Disk → ⊥) → D.disk_faults desk.new ≡ D.disk_faults desk.old }
        ensures ask_faults { D.ask_faults desk.new ≡ D.ask_faults desk.old }
        ensures said { D.said desk.new ≡ D.said desk.old }
        ensures say_faults { D.say_faults desk.new ≡ D.say_faults desk.old }
    {
        reads_as_settled::<D>();
        match self.dequeued(alloc, queue) {
            Ok(Dequeued::Starts { entry, id }) => self.enter_start(alloc, desk, queue, entry, id),
            Ok(Dequeued::Stays(end)) => Ok(end),
            Err(_) => Err(ExecFault::Memory),
        }
    }
}

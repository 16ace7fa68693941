//! What a turn comes to, before anything is asked or appended.

ghost use Rattle.std.specs.Prelude.{◌≡◌, List, length, IfOk, IsSome};
ghost use Rattle.r3_entry.specs.declared.entry.Entry.{Entry as E};
ghost use Rattle.r3_store.specs.Holds.{Stands as StoreStands};
ghost use Rattle.r3_model.specs.Rows.{flow_at};
ghost use Rattle.r3_model.specs.Turns.{asked, asks_outside, call_of_turn, turned};
ghost use Rattle.r3_exec.specs.Runs.{language};
ghost use Rattle.r3_exec.specs.Turning.{Comes, IsAsked};

use crate::exec::Exec;
use fn_tree::flow::{AskKind, FlowEnd, Request};
use r3_acts::finish_entry;
use r3_entry::Entry;
use r3_past::flow_row;
use r3_rows::Status;
use r3_steps::Steps;
use r3_turns::{AwaitDraft, await_draft, child_draft, flow_end};
use r3_value::{Memory, Txt};
use std::alloc::Global;
use std::sync::ledger::Ledger;

/// What a turn comes to.
#[derive(Drop)]
pub enum Turning {
    /// The workflow doesn't run.
    NotPending(Status),
    /// Its function asks for another name than was recorded.
    Unexpected { n: u32, recorded: Txt, asked: Txt },
    /// It awaits one that hasn't ended.
    Waiting { id: Txt },
    /// The entry is to be appended.
    Enters(Entry),
    /// It asks for a transaction.
    Commits(Request),
    /// It asks for an external call.
    Calls(Request),
}

impl Exec {
    // It asks for a child.
    fn bearing(&self, alloc: Global, id: &Txt, request: &Request) -> Result<Turning, Memory>
        requires stands { (h : List E) × StoreStands self.now.store h }
        requires kind { request.now.kind ≡ AskKind.Child }
        ensures { IfOk result (λ t. (h : List E) → StoreStands self.now.store h →
            Comes (language self.now) h id.now (λ snap answer. asked (language self.now) h id.now snap answer request.now.kind request.now)
            (asks_outside (language self.now) h id.now (FlowEnd.Asks request.now)) t) }
    {
        let entry = child_draft(alloc, self, id, request)?;
        Ok(Turning::Enters(entry))
    }

    // It awaits another.
    fn awaiting(&self, alloc: Global, id: &Txt, request: &Request) -> Result<Turning, Memory>
        requires stands { (h : List E) × StoreStands self.now.store h }
        requires kind { request.now.kind ≡ AskKind.Await }
        ensures { IfOk result (λ t. (h : List E) → StoreStands self.now.store h →
            Comes (language self.now) h id.now (λ snap answer. asked (language self.now) h id.now snap answer request.now.kind request.now)
            (asks_outside (language self.now) h id.now (FlowEnd.Asks request.now)) t) }
    {
        match await_draft(alloc, self, id, request) {
            Ok(AwaitDraft::Waiting { id }) => Ok(Turning::Waiting { id }),
            Ok(AwaitDraft::Enters(entry)) => Ok(Turning::Enters(entry)),
            Err(fault) => Err(fault),
        }
    }

    // What it comes to that a workflow's function asked so.
    fn asking(&self, alloc: Global, id: &Txt, request: Request) -> Result<Turning, Memory>
        requires stands { (h : List E) × StoreStands self.now.store h }
        requires asked { (h : List E) → StoreStands self.now.store h → IsAsked (language self.now) h id.now request }
        ensures { IfOk result (λ t. (h : List E) → StoreStands self.now.store h →
            Comes (language self.now) h id.now (λ snap answer. asked (language self.now) h id.now snap answer request.kind request)
            (asks_outside (language self.now) h id.now (FlowEnd.Asks request)) t) }
    {
        match request.kind {
            AskKind::Txn => Ok(Turning::Commits(request)),
            AskKind::Outside => Ok(Turning::Calls(request)),
            AskKind::Child => self.bearing(alloc, id, &request),
            AskKind::Await => self.awaiting(alloc, id, &request),
        }
    }

    /// What a turn of a workflow that is there comes to.
    pub(crate) fn turning<L: Ledger>(
        &self,
        alloc: Global,
        id: &Txt,
        steps: &mut Steps<L>,
    ) -> Result<Turning, Memory>
        requires stands { (h : List E) × StoreStands self.now.store h × IsSome (flow_at h (length h) id.now) }
        ensures { IfOk result (λ t. (h : List E) → StoreStands self.now.store h →
            Comes (language self.now) h id.now (turned (language self.now) h id.now) (call_of_turn (language self.now) h id.now) t) }
    {
        let Some(row) = flow_row(alloc, self, id.as_str())? else {
            unreachable!()
        };
        match row.status {
            Status::Pending => {}
            status => return Ok(Turning::NotPending(status)),
        }
        match flow_end(alloc, self, &self.program, id, row, steps)? {
            FlowEnd::Unexpected { n, recorded, asked } => Ok(Turning::Unexpected {
                n,
                recorded,
                asked,
            }),
            FlowEnd::Done(outcome) => Ok(Turning::Enters(finish_entry(
                alloc,
                self.store.len(),
                id,
                row,
                outcome,
            )?)),
            FlowEnd::Asks(request) => self.asking(alloc, id, request),
        }
    }
}

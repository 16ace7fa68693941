//! Commands on a workflow that is there.

ghost use Rattle.std.specs.Prelude.{◌≡◌, ◌+◌, List, length, IfOk};
ghost use Rattle.r3_entry.specs.declared.entry.Entry.{Entry};
ghost use Rattle.r3_rows.specs.declared.rows.FlowRow.{FlowRow};
ghost use Rattle.sys_flow.specs.Statuses as statuses;
ghost use Rattle.sys_queue.specs.Rows as queues;
ghost use Rattle.r3_model.specs.Acts as acts;
ghost use Rattle.r3_model.specs.Event as reply;
ghost use Rattle.r3_model.specs.Given.{Enters};
ghost use Rattle.r3_model.specs.Rows.{flow_at};
ghost use Rattle.r3_model.specs.Commands.{on_flow};
ghost use Rattle.r3_commands.specs.Drafts.{given_of};

use crate::counts::count_of;
use crate::drafts::Draft;
use crate::texts::copy_of;
use r3_acts::{cancel_entry, recover_entry, resume_entry};
use r3_past::{Past, flow_row};
use r3_rows::Status;
use r3_value::Memory;
use std::alloc::Global;
use sys_flow::{Refusal, may_cancel, may_resume, recovered};

/// A workflow is to be cancelled.
pub fn cancelled<P: Past>(alloc: Global, past: &P, id: &str) -> Result<Draft, Memory>
    requires stands { (h : List Entry) × P.stands past.now h }
    ensures { IfOk result (λ d. (h : List Entry) → P.stands past.now h → given_of (length h) d
        ≡ on_flow statuses.may_cancel (λ row. Enters (acts.cancel_entry h id.now row) (reply.Entry (length h + 1)))
        (flow_at h (length h) id.now)) }
{
    match flow_row(alloc, past, id)? {
        None => Ok(Draft::Refused(Refusal::UnknownId)),
        Some(row) => {
            if !may_cancel(row.status) {
                return Ok(Draft::Refused(Refusal::Status { status: row.status }));
            }
            let id = copy_of(alloc, id)?;
            let entry = cancel_entry(alloc, count_of(past), &id, row)?;
            Ok(Draft::Enters { entry, id: None })
        }
    }
}

/// A workflow is to be taken up again.
pub fn resumed<P: Past>(alloc: Global, past: &P, id: &str) -> Result<Draft, Memory>
    requires stands { (h : List Entry) × P.stands past.now h }
    ensures { IfOk result (λ d. (h : List Entry) → P.stands past.now h → given_of (length h) d
        ≡ on_flow statuses.may_resume (λ row. Enters (acts.resume_entry h id.now row) (reply.Entry (length h + 1)))
        (flow_at h (length h) id.now)) }
{
    match flow_row(alloc, past, id)? {
        None => Ok(Draft::Refused(Refusal::UnknownId)),
        Some(row) => {
            if !may_resume(row.status) {
                return Ok(Draft::Refused(Refusal::Status { status: row.status }));
            }
            let id = copy_of(alloc, id)?;
            let entry = resume_entry(alloc, count_of(past), &id, row)?;
            Ok(Draft::Enters { entry, id: None })
        }
    }
}

fn is_pending(status: Status) -> bool
    ensures { result ≡ queues.is_pending status }
{
    matches!(status, Status::Pending)
}

/// A recovery of a running workflow is to be counted.
pub fn recovered_again<P: Past>(alloc: Global, past: &P, id: &str) -> Result<Draft, Memory>
    requires stands { (h : List Entry) × P.stands past.now h }
    ensures { IfOk result (λ d. (h : List Entry) → P.stands past.now h → given_of (length h) d
        ≡ on_flow queues.is_pending
        (λ row. Enters (acts.recover_entry h id.now row (statuses.recovered row.status row.attempts)) (reply.Entry (length h + 1)))
        (flow_at h (length h) id.now)) }
{
    match flow_row(alloc, past, id)? {
        None => Ok(Draft::Refused(Refusal::UnknownId)),
        Some(row) => {
            if !is_pending(row.status) {
                return Ok(Draft::Refused(Refusal::Status { status: row.status }));
            }
            let id = copy_of(alloc, id)?;
            let next = recovered(row.status, row.attempts);
            let entry = recover_entry(alloc, count_of(past), &id, row, next)?;
            Ok(Draft::Enters { entry, id: None })
        }
    }
}

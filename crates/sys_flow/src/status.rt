//! The commands that a status allows.

ghost use Rattle.std.specs.Prelude.{◌≡◌};
ghost use Rattle.sys_flow.specs.Statuses as rule;

use r3_rows::Status;

const MAX_RECOVERIES: u32 = 50;

/// Whether a workflow may be cancelled: it waits or runs.
pub fn may_cancel(status: Status) -> bool
    ensures { result ≡ rule.may_cancel status }
{
    matches!(status, Status::Enqueued | Status::Pending)
}

/// Whether a workflow may be resumed: it was cancelled, or recovered too often.
pub fn may_resume(status: Status) -> bool
    ensures { result ≡ rule.may_resume status }
{
    matches!(
        status,
        Status::Cancelled | Status::MaxRecoveryAttemptsExceeded
    )
}

/// The status and the attempts after one more recovery. The 51st is one too many, and so is each later one,
/// which isn't counted.
pub fn recovered(status: Status, attempts: u32) -> (Status, u32)
    ensures { (result.0, result.1) ≡ rule.recovered status attempts }
{
    if attempts < MAX_RECOVERIES {
        (status, attempts + 1)
    } else {
        (Status::MaxRecoveryAttemptsExceeded, MAX_RECOVERIES + 1)
    }
}

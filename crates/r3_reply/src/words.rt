//! The words of replies.

ghost use Rattle.std.specs.Prelude.{◌≡◌};
ghost use Rattle.r3_rows.specs.Words as rows;
ghost use Rattle.r3_model.specs.Replies as model;
ghost use Rattle.r3_reply.specs.Replies.{as_limit};

use r3_gate::Limit;
use r3_rows::Status;

/// The word of a status.
pub fn status_word(status: Status) -> &'static str
    ensures { result.now ≡ rows.status_word status }
{
    match status {
        Status::Enqueued => "ENQUEUED",
        Status::Pending => "PENDING",
        Status::Success => "SUCCESS",
        Status::Error => "ERROR",
        Status::Cancelled => "CANCELLED",
        Status::MaxRecoveryAttemptsExceeded => "MAX_RECOVERY_ATTEMPTS_EXCEEDED",
    }
}

/// The word of what there is no more room for.
pub fn limit_word(limit: Limit) -> &'static str
    ensures { result.now ≡ model.limit_word (as_limit limit) }
{
    match limit {
        Limit::Entries => "entries",
        Limit::Bytes => "bytes",
    }
}

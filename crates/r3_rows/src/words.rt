//! The words of statuses and of kinds of steps.

ghost use Rattle.std.specs.Prelude.{◌≡◌};
ghost use Rattle.r3_rows.specs.Words.{status_word, kind_word};

use crate::rows::{Status, StepKind};

impl Status {
    /// The word by which a reply tells the status.
    pub fn word(self) -> &'static str
        ensures { result.now ≡ status_word self }
    {
        match self {
            Status::Enqueued => "ENQUEUED",
            Status::Pending => "PENDING",
            Status::Success => "SUCCESS",
            Status::Error => "ERROR",
            Status::Cancelled => "CANCELLED",
            Status::MaxRecoveryAttemptsExceeded => "MAX_RECOVERY_ATTEMPTS_EXCEEDED",
        }
    }
}

impl StepKind {
    /// The word by which a trace tells the kind.
    pub fn word(self) -> &'static str
        ensures { result.now ≡ kind_word self }
    {
        match self {
            StepKind::Txn => "txn",
            StepKind::Outside => "outside",
            StepKind::Child => "child",
            StepKind::Await => "await",
        }
    }
}

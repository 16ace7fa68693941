//! The source of a script.

ghost use Rattle.std.specs.Prelude.{◌≡◌, ℕ, List, length, Bool, ◌||◌};
ghost use Rattle.std.specs.Io.{ReadsAtMost};
ghost use Rattle.std.specs.Io.KnownBytes.{ReadConsumes};
ghost use Rattle.std.specs.declared.option.Option.{Option};
ghost use Rattle.r3_desk.specs.Causes.{HasCause};
ghost use Rattle.r3_desk.specs.Sources.{ends};

use thiserror::Error;

/// The source has failed.
#[derive(Clone, Copy, Debug, PartialEq, Eq, Error)]
#[error("the source has failed")]
pub struct ReadFault;

/// A source of bytes, which are read in order.
pub trait Source {
    /// The bytes that are left, where they are told.
    ghost left: { Self → Option (List ℕ) };

    /// Whether a read has given the end.
    ghost ended: { Self → Bool };

    /// How often the source has failed.
    ghost faults: { Self → ℕ };

    /// Reads some of the bytes that are left. None for a buffer that isn't empty is the end.
    fn read(&mut self, into: &mut [u8]) -> Result<usize, ReadFault>
        ensures bound { ReadsAtMost result into.new }
        ensures bytes { ReadConsumes (left self.old) (left self.new) result into.new }
        ensures ended { ended self.new ≡ (ended self.old || ends result (length into.new)) }
        ensures cause { HasCause (faults self.old) (faults self.new) result };
}

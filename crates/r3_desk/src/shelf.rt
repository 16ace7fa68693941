//! The texts of files.

ghost use Rattle.std.specs.Prelude.{◌≡◌, ◌<◌, ◌≤◌, ◌↔◌, List, ℕ, length, IfOk, IsErrOf};
ghost use Rattle.std.specs.Option.{ForSome};
ghost use Rattle.std.specs.declared.option.Option.{Option};
ghost use Rattle.r3_desk.specs.Causes.{Rose};

use std::alloc::Global;
use thiserror::Error;

/// Why a text isn't given.
#[derive(Clone, Copy, Debug, PartialEq, Eq, Error)]
pub enum ShelfFault {
    /// The shelf has failed.
    #[error("the shelf has failed")]
    Fault,
    /// The text has more bytes than the limit.
    #[error("the text is too long")]
    TooLong,
    /// There was no memory.
    #[error("out of memory")]
    Memory,
}

/// The texts of files, by their paths.
pub trait Shelf {
    /// The text of a path, where it is told.
    ghost text_of: { Self → List ℕ → Option (List ℕ) };

    /// How often the shelf has failed.
    ghost faults: { Self → ℕ };

    /// The whole text of a path, of at most so many bytes.
    fn text(&mut self, alloc: Global, path: &str, limit: u64) -> Result<Vec<u8>, ShelfFault>
        ensures whole { IfOk result (λ v. ForSome (text_of self.old path.now) (λ text. v.items ≡ text)) }
        ensures too_long { (IsErrOf result ShelfFault.Fault → ⊥) → (IsErrOf result ShelfFault.Memory → ⊥) →
            ForSome (text_of self.old path.now) (λ text. (IsErrOf result ShelfFault.TooLong) ↔ (limit < length text)) }
        ensures same { text_of self.new ≡ text_of self.old }
        ensures never_falls { faults self.old ≤ faults self.new }
        ensures fault { IsErrOf result ShelfFault.Fault → Rose (faults self.old) (faults self.new) }
        ensures no_fault { (IsErrOf result ShelfFault.Fault → ⊥) → faults self.new ≡ faults self.old };
}

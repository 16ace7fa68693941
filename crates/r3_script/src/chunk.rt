//! Reading a source in chunks.

ghost use Rattle.std.specs.Prelude.{◌<◌, ◌≤◌, length};

use r3_desk::{ReadFault, Source};
use r3_value::Memory;
use std::alloc::Global;

const ROOM: usize = 1 << 16;

/// The bytes that the last read gave, of which some were taken.
#[derive(Drop)]
pub struct Chunk {
    bytes: Vec<u8>,
    at: usize,
    end: usize,
    ghost taken: { at ≤ end },
    ghost given: { end ≤ length bytes.items },
    ghost room: { 0 < length bytes.items },
}

impl Chunk {
    ghost use Rattle.std.specs.Prelude.{◌≡◌, true, [], ◌∷◌, None, Ok, IfOk, IsOk, MatchOption, MatchResult};
    ghost use Rattle.std.specs.Io.KnownBytes.{Consumes, Keeps, IsAtEnd};
    ghost use Rattle.r3_desk.specs.Causes.{HasCause};
    ghost use Rattle.r3_script.specs.Chunk.{unread, Fetched};

    /// A chunk of which nothing was read yet.
    pub fn new(alloc: Global) -> Result<Chunk, Memory>
        ensures { IfOk result (λ c. unread c ≡ []) }
    {
        let bytes = vec![in alloc; 0u8; ROOM]?;
        Ok(Chunk {
            bytes,
            at: 0,
            end: 0,
        })
    }

    /// Takes the next byte of the source; None is the end.
    pub fn next<S: Source>(&mut self, source: &mut S) -> Result<Option<u8>, ReadFault>
        ensures bytes { Fetched (S.left source.old) (S.left source.new) (unread self.old) (unread self.new) result }
        ensures end { result ≡ Ok None → (S.ended source.new ≡ true) × IsAtEnd (S.left source.new) }
        ensures cause { HasCause (S.faults source.old) (S.faults source.new) result }
    {
        if let Some(byte) = self.take() {
            return Ok(Some(byte));
        }
        self.refill(source)?;
        Ok(self.take())
    }

    fn take(&mut self) -> Option<u8>
        ensures { MatchOption result ((unread self.old ≡ []) × (unread self.new ≡ []))
            (λ byte. unread self.old ≡ byte ∷ unread self.new) }
    {
        if self.at == self.end {
            return None;
        }
        let byte = self.bytes[self.at];
        self.at += 1;
        Some(byte)
    }

    // What wasn't taken is dropped.
    fn refill<S: Source>(&mut self, source: &mut S) -> Result<(), ReadFault>
        ensures bytes { MatchResult result (λ _. Consumes (S.left source.old) (S.left source.new) (unread self.new))
            (λ _. Keeps (S.left source.old) (S.left source.new) × (unread self.new ≡ [])) }
        ensures end { IsOk result → unread self.new ≡ [] →
            (S.ended source.new ≡ true) × IsAtEnd (S.left source.new) }
        ensures cause { HasCause (S.faults source.old) (S.faults source.new) result }
    {
        self.at = 0;
        self.end = 0;
        let count = source.read(&mut self.bytes)?;
        self.end = count;
        Ok(())
    }
}

//! A source in memory.

ghost use Rattle.std.specs.Prelude.{◌≡◌, ◌≤◌, Some, length, drop, false, ◌||◌};
ghost use Rattle.std.specs.Io.{ReadsAtMost};
ghost use Rattle.std.specs.Io.KnownBytes.{ReadConsumes};
ghost use Rattle.r3_desk.specs.Causes.{HasCause};
ghost use Rattle.r3_desk.specs.Sources.{ends, ReadCall, fresh_source};

use crate::{ReadFault, Source};

/// Bytes in memory, of which a read gives as many as it can.
#[derive(Drop)]
pub struct MemSource {
    bytes: Vec<u8>,
    at: usize,
    fails: Vec<u64>,
    made: u64,
    faults: u64,
    ended: bool,
    ghost within: { at ≤ length bytes.items },
}

impl MemSource {
    ghost use Rattle.r3_desk.specs.MemSource.{source_contents};

    /// A source of these bytes. The reads of these numbers fail, counted from 1.
    pub fn new(bytes: Vec<u8>, fails: Vec<u64>) -> Self
        ensures contents { source_contents result ≡ fresh_source bytes.items fails.items }
        ensures left { ⟦<MemSource as Source>⟧.left result ≡ Some bytes.items }
        ensures ended { ⟦<MemSource as Source>⟧.ended result ≡ false }
        ensures faults { ⟦<MemSource as Source>⟧.faults result ≡ 0 }
    {
        MemSource {
            bytes,
            at: 0,
            fails,
            made: 0,
            faults: 0,
            ended: false,
        }
    }
}

impl Source for MemSource {
    ghost use Rattle.r3_desk.specs.MemSource.{source_contents};

    ghost left = { λ s. Some (drop s.at s.bytes.items) };

    ghost ended = { λ s. s.ended };

    ghost faults = { λ s. s.faults };

    fn read(&mut self, into: &mut [u8]) -> Result<usize, ReadFault>
        ensures exact { ReadCall (source_contents self.old) (source_contents self.new) into.new result }
        ensures bound { ReadsAtMost result into.new }
        ensures bytes { ReadConsumes (⟦<MemSource as Source>⟧.left self.old) (⟦<MemSource as Source>⟧.left self.new) result into.new }
        ensures ended { ⟦<MemSource as Source>⟧.ended self.new ≡ (⟦<MemSource as Source>⟧.ended self.old || ends result (length into.new)) }
        ensures cause { HasCause (⟦<MemSource as Source>⟧.faults self.old) (⟦<MemSource as Source>⟧.faults self.new) result }
    {
        self.made = self.made.saturating_add(1);
        if self.fails.contains(&self.made) {
            self.faults = self.faults.saturating_add(1);
            return Err(ReadFault);
        }
        let count = into.len().min(self.bytes.len() - self.at);
        into[..count].copy_from_slice(&self.bytes[self.at..self.at + count]);
        self.at += count;
        self.ended |= (count == 0) & !into.is_empty();
        Ok(count)
    }
}

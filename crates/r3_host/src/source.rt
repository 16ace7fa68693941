//! Standard input.

ghost use Rattle.std.specs.Prelude.{None};
ghost use Rattle.std.specs.Io.{ReadsAtMost};

use r3_desk::{ReadFault, Source};
use std::io;
use std::io::{ErrorKind, Input, Read};

/// Standard input, as a source of a script.
#[derive(Drop)]
pub struct HostSource<B: Read + Drop> {
    reader: B,
    ended: bool,
    faults: u64,
}

impl<B: Read + Drop> HostSource<B> {
    /// The input of this runtime. Nothing is read yet.
    pub fn new<R: Input<Reader = B>>(rt: &R) -> Self {
        HostSource {
            reader: rt.reader(),
            ended: false,
            faults: 0,
        }
    }
}

impl<B: Read + Drop> Source for HostSource<B> {
    ghost left = { λ _. None };

    ghost ended = { λ s. s.ended };

    ghost faults = { λ s. s.faults };

    fn read(&mut self, into: &mut [u8]) -> Result<usize, ReadFault> {
        match read_some(&mut self.reader, into) {
            Ok(count) => {
                self.ended |= (count == 0) & !into.is_empty();
                Ok(count)
            }
            Err(_) => {
                self.faults = self.faults.saturating_add(1);
                Err(ReadFault)
            }
        }
    }
}

// Reads once, again where the system broke the read off.
pub fn read_some<B: Read>(reader: &mut B, into: &mut [u8]) -> io::Result<usize>
    ensures { ReadsAtMost result into.new }
{
    for _ in 0..u64::MAX {
        match reader.read(into) {
            Err(fault) if fault.kind() == ErrorKind::Interrupted => {}
            done => return done,
        }
    }
    Err(io::Error::from(ErrorKind::Interrupted))
}

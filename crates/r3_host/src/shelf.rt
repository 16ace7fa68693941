//! Real files, read whole.

ghost use Rattle.std.specs.Prelude.{None};

use crate::source::read_some;
use r3_desk::{Shelf, ShelfFault};
use std::alloc::Global;
use std::fs::File;
use std::rt::Files;

/// The files of the system.
#[derive(Drop)]
pub struct HostShelf<R: Files<File = File> + Drop> {
    rt: R,
    faults: u64,
}

impl<R: Files<File = File> + Drop> HostShelf<R> {
    /// The files that this runtime opens.
    pub fn new(rt: R) -> Self {
        HostShelf { rt, faults: 0 }
    }
}

impl<R: Files<File = File> + Drop> Shelf for HostShelf<R> {
    ghost text_of = { λ _ _. None };

    ghost faults = { λ s. s.faults };

    fn text(&mut self, alloc: Global, path: &str, limit: u64) -> Result<Vec<u8>, ShelfFault> {
        match text_at(&self.rt, alloc, path, limit) {
            Ok(text) => Ok(text),
            Err(ShelfFault::Fault) => {
                self.faults = self.faults.saturating_add(1);
                Err(ShelfFault::Fault)
            }
            Err(ShelfFault::TooLong) => Err(ShelfFault::TooLong),
            Err(ShelfFault::Memory) => Err(ShelfFault::Memory),
        }
    }
}

// The whole text of a file, of which no more is kept than the limit.
fn text_at<R: Files<File = File>>(
    rt: &R,
    alloc: Global,
    path: &str,
    limit: u64,
) -> Result<Vec<u8>, ShelfFault> {
    let Ok(mut file) = File::open(rt, path) else {
        return Err(ShelfFault::Fault);
    };
    let mut text = Vec::new(alloc);
    let mut part = [0u8; 4096];
    for _ in 0..u64::MAX {
        let Ok(count) = read_some(&mut file, &mut part) else {
            return Err(ShelfFault::Fault);
        };
        if count == 0 {
            return Ok(text);
        }
        if count as u64 > limit.saturating_sub(text.len() as u64) {
            return Err(ShelfFault::TooLong);
        }
        if text.extend_from_slice(&part[..count]).is_err() {
            return Err(ShelfFault::Memory);
        }
    }
    Err(ShelfFault::Fault)
}

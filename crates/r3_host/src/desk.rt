//! A desk over a real file and standard output.

ghost use Rattle.std.specs.Prelude.{None};

use crate::file::LazyFile;
use crate::outside::{NoAnswer, Outside};
use r3_desk::{AskFault, Desk, DiskFault, SayFault};
use r3_value::{Memory, Outcome, Val};
use std::alloc::Global;
use std::fs::File;
use std::io::Print;
use std::rt::Files;

/// A desk over a file, which is opened at the first call on the disk and made where it isn't there, over standard
/// output, and over an outside party behind two files beside the first: `PATH.out` for the calls, and `PATH.in` for
/// the answers.
#[derive(Drop)]
pub struct HostDesk<R: Files<File = File> + Print + Drop> {
    rt: R,
    file: LazyFile,
    outside: Outside,
    disk_faults: u64,
    say_faults: u64,
    ask_faults: u64,
}

impl<R: Files<File = File> + Print + Drop> HostDesk<R> {
    /// A desk over the file of this path. Nothing is opened yet.
    pub fn at(rt: R, alloc: Global, path: &str) -> Result<Self, Memory> {
        Ok(HostDesk {
            rt,
            file: LazyFile::at(alloc, path)?,
            outside: Outside::at(alloc, path)?,
            disk_faults: 0,
            say_faults: 0,
            ask_faults: 0,
        })
    }
}

impl<R: Files<File = File> + Print + Drop> Desk for HostDesk<R> {
    ghost size = { λ _. None };

    ghost image = { λ _. None };

    ghost said = { λ _. None };

    ghost asked = { λ _. None };

    ghost syncs = { λ _. None };

    ghost moment = { λ _. 0 };

    ghost may_leave = { λ _ _. ⊥ };

    ghost reach = { λ _ _ _ _ _. ⊥ };

    ghost disk_faults = { λ d. d.disk_faults };

    ghost say_faults = { λ d. d.say_faults };

    ghost ask_faults = { λ d. d.ask_faults };

    ghost sized = { λ d told is. Prim.cc };

    ghost counts_now = { λ d t c le left. absurd left };

    ghost only_now = { λ d c n m r. absurd r };

    fn len(&mut self) -> Result<u64, DiskFault> {
        match self.file.len(&self.rt) {
            Ok(len) => Ok(len),
            Err(_) => {
                self.disk_faults = self.disk_faults.saturating_add(1);
                Err(DiskFault)
            }
        }
    }

    fn read(&mut self, at: u64, into: &mut [u8]) -> Result<usize, DiskFault> {
        match self.file.read_at(&self.rt, at, into) {
            Ok(count) => Ok(count),
            Err(_) => {
                self.disk_faults = self.disk_faults.saturating_add(1);
                Err(DiskFault)
            }
        }
    }

    fn write_at(&mut self, at: u64, bytes: &[u8]) -> Result<(), DiskFault> {
        match self.file.write_at(&self.rt, at, bytes) {
            Ok(()) => Ok(()),
            Err(_) => {
                self.disk_faults = self.disk_faults.saturating_add(1);
                Err(DiskFault)
            }
        }
    }

    fn sync(&mut self) -> Result<(), DiskFault> {
        match self.file.sync(&self.rt) {
            Ok(()) => Ok(()),
            Err(_) => {
                self.disk_faults = self.disk_faults.saturating_add(1);
                Err(DiskFault)
            }
        }
    }

    fn say(&mut self, bytes: &[u8]) -> Result<(), SayFault> {
        match self.rt.write_all(bytes) {
            Ok(()) => Ok(()),
            Err(_) => {
                self.say_faults = self.say_faults.saturating_add(1);
                Err(SayFault)
            }
        }
    }

    fn ask(&mut self, id: &str, number: u32, name: &str, args: &Val) -> Result<Outcome, AskFault> {
        match self.outside.ask(&self.rt, id, number, name, args) {
            Ok(outcome) => Ok(outcome),
            Err(NoAnswer::Fault) => {
                self.ask_faults = self.ask_faults.saturating_add(1);
                Err(AskFault::Fault)
            }
            Err(NoAnswer::Memory) => Err(AskFault::Memory),
        }
    }
}

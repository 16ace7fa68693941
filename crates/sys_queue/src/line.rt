//! One queue.

ghost use Rattle.std.specs.Prelude.{◌≡◌, [], OnOk, OnErr};
ghost use Rattle.sys_queue.specs.Moves.{Enters, Leaves};
ghost use Rattle.sys_queue.specs.Told.{TellsLine};

use crate::next::Next;
use r3_rows::Status;
use r3_value::{Memory, Txt};
use std::alloc::Global;
use std::collections::BTreeSet;
use std::marker::Model;

/// A queue, who waits in it and how many run.
#[derive(Drop)]
pub struct Line {
    name: Txt,
    bound: u32,
    running: u32,
    waiting: BTreeSet<(u32, Txt)>,
}

impl Model for Line {
    ghost use Rattle.sys_queue.specs.Lines as model;

    ghost Value = { model.Line };

    ghost view = { λ l. record { name = l.name; bound = l.bound; running = l.running; waiting = l.waiting.keys } };
}

impl Line {
    pub fn new(alloc: Global, name: Txt, bound: u32) -> Line
        ensures { result ≡ record { name = name; bound = bound; running = 0; waiting = [] } }
    {
        Line {
            name,
            bound,
            running: 0,
            waiting: BTreeSet::new(alloc),
        }
    }

    pub fn name(&self) -> &Txt
        ensures { result.now ≡ self.now.name }
    {
        &self.name
    }

    pub fn enter(&mut self, status: Status, place: (u32, Txt)) -> Result<(), Memory>
        ensures ok { OnOk result (Enters status place self.old self.new) }
        ensures err { OnErr result (self.new ≡ self.old) }
    {
        match status {
            Status::Enqueued => {
                self.waiting.insert(place)?;
                Ok(())
            }
            Status::Pending => {
                self.running = self.running.saturating_add(1);
                Ok(())
            }
            _ => Ok(()),
        }
    }

    pub fn leave(&mut self, status: Status, place: &(u32, Txt))
        ensures { Leaves status place.now self.old self.new }
    {
        match status {
            Status::Enqueued => {
                self.waiting.remove(place);
            }
            Status::Pending => self.running = self.running.saturating_sub(1),
            _ => {}
        }
    }

    pub fn next(&self) -> Next<'_>
        ensures { TellsLine self.now result }
    {
        if self.running >= self.bound {
            return Next::Limit {
                running: self.running,
            };
        }
        match self.waiting.first() {
            None => Next::Empty,
            Some(place) => Next::Ready { id: id_of(place) },
        }
    }
}

fn id_of(place: &(u32, Txt)) -> &Txt
    ensures { result.now ≡ place.now.1 }
{
    &place.1
}

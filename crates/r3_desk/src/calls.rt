//! The device calls of a fake in memory: how many were made, which fail, and what is recorded of each.

ghost use Rattle.std.specs.Prelude.{◌≡◌, ◌⊎◌, ◌+◌, ◌<◌, ◌≤◌, ◌^◌, ◌++◌, [], ◌∷◌, length, min, vec_capacity, IfOk, OnOk, OnErr, IsTrue, IsFalse, Contains, if◌then◌else◌, ◌||◌, ◌==◌};
ghost use Rattle.r3_desk.specs.Fails.{next_number, past_room, Fails};

use crate::step::Step;
use std::alloc::{AllocError, Global};

/// How many device calls, and how many bytes written and said together, a `MemDesk` has room for.
#[derive(Clone, Copy, Debug, PartialEq, Eq)]
pub struct Room {
    pub calls: u32,
    pub bytes: u32,
}

#[derive(Drop)]
pub struct Calls {
    fails: Vec<u64>,
    room: Room,
    made: u64,
    steps: Vec<Step>,

    // A call within the room is recorded without taking memory.
    ghost counted: { length steps.items ≤ made },
    ghost reserved: { room.calls ≤ vec_capacity steps },
}

impl Calls {
    // None was made.
    pub fn new(alloc: Global, fails: Vec<u64>, room: Room) -> Result<Calls, AllocError>
        ensures fails { IfOk result (λ calls. calls.fails.items ≡ fails.items) }
        ensures room { IfOk result (λ calls. calls.room ≡ room) }
        ensures made { IfOk result (λ calls. calls.made ≡ 0) }
        ensures steps { IfOk result (λ calls. calls.steps.items ≡ []) }
    {
        let steps = Vec::with_capacity(alloc, room.calls as usize)?;
        Ok(Calls {
            fails,
            room,
            made: 0,
            steps,
        })
    }

    pub fn steps(&self) -> &[Step]
        ensures { result.now ≡ self.now.steps.items }
    {
        &self.steps
    }

    // Counts a call that carries `len` bytes to the disk or the output, which have got `used` before it, and says
    // whether it is done. One that is done is recorded by its caller, and one that fails within the room here.
    pub fn admit(&mut self, used: usize, len: usize) -> bool
        requires { used + len < 2 ^ 64 }
        ensures done { IsTrue result → Fails self.old.fails.items self.old.room self.old.made (used + len) → ⊥ }
        ensures failed { IsFalse result → Fails self.old.fails.items self.old.room self.old.made (used + len) }
        ensures steps { self.new.steps.items ≡ (if result || past_room self.old.room self.old.made (used + len) then self.old.steps.items else self.old.steps.items ++ Step.Idle ∷ []) }
        ensures made { self.new.made ≡ next_number self.old.made }
        ensures fails { self.new.fails ≡ self.old.fails }
        ensures room { self.new.room ≡ self.old.room }
        ensures spare { IsTrue result → length self.new.steps.items < self.new.made }
        ensures reserved { IsTrue result → length self.new.steps.items < vec_capacity self.new.steps }
    {
        let number = self.made.saturating_add(1);
        if number > u64::from(self.room.calls) || used + len > self.room.bytes as usize {
            self.made = number;
            return false;
        }
        self.made = number;
        if self.fails.contains(&number) {
            self.steps.push_reserved(Step::Idle);
            return false;
        }
        true
    }

    // Records a call that was admitted.
    pub fn record(&mut self, step: Step)
        requires spare { length self.old.steps.items < self.old.made }
        requires reserved { length self.old.steps.items < vec_capacity self.old.steps }
        ensures steps { self.new.steps.items ≡ self.old.steps.items ++ step ∷ [] }
        ensures made { self.new.made ≡ self.old.made }
        ensures fails { self.new.fails ≡ self.old.fails }
        ensures room { self.new.room ≡ self.old.room }
    {
        self.steps.push_reserved(step);
    }

    // Makes room for the record of one call more.
    pub fn reserve(&mut self) -> Result<(), AllocError>
        ensures steps { self.new.steps.items ≡ self.old.steps.items }
        ensures made { self.new.made ≡ self.old.made }
        ensures fails { self.new.fails ≡ self.old.fails }
        ensures room { self.new.room ≡ self.old.room }
        ensures reserved { OnOk result (length self.new.steps.items < vec_capacity self.new.steps) }
    {
        self.steps.reserve(1)
    }

    // Whether the next call is one that fails by its number.
    pub fn next_fails(&self) -> bool
        ensures fails { IsTrue result → Contains self.now.fails.items (next_number self.now.made) }
        ensures done { IsFalse result → Contains self.now.fails.items (next_number self.now.made) → ⊥ }
    {
        let number = self.made.saturating_add(1);
        if self.fails.contains(&number) {
            return true;
        }
        false
    }

    // Counts an external call and records it, also past the room.
    pub fn record_ask(&mut self)
        requires { length self.old.steps.items < vec_capacity self.old.steps }
        ensures steps { self.new.steps.items ≡ self.old.steps.items ++ Step.Ask ∷ [] }
        ensures made { self.new.made ≡ next_number self.old.made }
        ensures fails { self.new.fails ≡ self.old.fails }
        ensures room { self.new.room ≡ self.old.room }
    {
        self.steps.push_reserved(Step::Ask);
        self.made = self.made.saturating_add(1);
    }
}

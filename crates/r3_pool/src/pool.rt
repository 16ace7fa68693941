//! The pool.

ghost use Rattle.std.specs.Prelude.{◌≡◌, ◌<◌, ◌+◌, ◌-◌, ◌≤◌, ◌↔◌, [], ◌∷◌, ◌++◌, max, length, Some, None, IsSome, OnOk, OnErr, IfErr, slice_get, slice_set, vec_len, vec_capacity};
ghost use Rattle.r3_pool.specs.Slots.{value_at, live_count, next_slot, empty, with_spare, after_put, after_take, Fills, Empties};

use crate::fault::PoolFault;
use std::alloc::Global;
use std::marker::Model;
use std::mem;

/// The place of a value in its pool. A contract sees its number: 0 is the first that is used.
#[derive(Clone, Copy, Debug, PartialEq, Eq)]
pub struct Slot {
    index: u32,
}

impl Model for Slot {
    ghost use Rattle.std.specs.Prelude.{ℕ};

    ghost Value = { ℕ };

    ghost view = { λ s. s.index };

    ghost inverse = { λ n. record { index = n } };
}

/// Values in slots, at most `cap` of them at a time (below 2^32).
#[derive(Drop)]
pub struct Pool<T> {
    // one for each slot that was ever used
    cells: Vec<Option<T>>,
    // the slots of `cells` that are free, the one freed last at the end
    freed: Vec<Slot>,
    cap: u32,
    spare: u32,
}

impl<T> Model for Pool<T> {
    ghost use Rattle.r3_pool.specs.Slots.{Slots, slots_code};

    ghost Value = { Slots T };

    ghost coded = { slots_code T.code };

    ghost use Rattle.std.specs.Prelude.{vec_capacity};
    ghost use Rattle.r3_pool.specs.Sound.{IsSound};

    ghost view = { λ p. record { cells = p.cells.items; freed = p.freed.items; cap = p.cap; spare = p.spare } };

    ghost invariant = { λ p. IsSound p.cells.items p.freed.items p.cap p.spare (vec_capacity p.cells) (vec_capacity p.freed) };
}

impl<T: Drop> Pool<T> {
    /// An empty pool for at most `cap` values, with no room yet.
    pub fn new(alloc: Global, cap: u32) -> Pool<T>
        ensures { result ≡ empty cap }
    {
        Pool {
            cells: Vec::new(alloc),
            freed: Vec::new(alloc),
            cap,
            spare: 0,
        }
    }

    /// Makes room for `count` more values: so many calls of `put` then take no memory. Room that
    /// is there already stays. `Full` comes exactly where the values in use and `count` are more
    /// than the cap.
    pub fn reserve(&mut self, count: u32) -> Result<(), PoolFault>
        ensures ok { OnOk result (self.new ≡ with_spare self.old (max self.old.spare count)) }
        ensures full { (result ≡ Err PoolFault.Full) ↔ (self.old.cap < live_count self.old + count) }
        ensures err { OnErr result (self.new ≡ self.old) }
    {
        let live = self.cells.len() - self.freed.len();
        if self.cap as usize - live < count as usize {
            return Err(PoolFault::Full);
        }
        if count > self.spare {
            // Each slot that is used once may be freed, so the list of freed slots has room for all of them.
            let fresh = count as usize - self.freed.len();
            if self.cells.reserve(fresh).is_err() || self.freed.reserve(live + fresh).is_err() {
                return Err(PoolFault::Memory);
            }
            self.spare = count;
        }
        Ok(())
    }

    /// The slot that the next value is put into.
    pub fn next(&self) -> Slot
        ensures { result ≡ next_slot self.now }
    {
        match self.freed.last() {
            Some(slot) => *slot,
            None => Slot {
                index: self.cells.len() as u32,
            },
        }
    }

    /// Puts a value into the slot that was freed last, else into the least that was never used.
    pub fn put(&mut self, value: T) -> Slot
        requires { 0 < self.old.spare }
        ensures slot { result ≡ next_slot self.old }
        ensures value { self.new ≡ after_put self.old value }
        ensures fills { Fills self.old self.new result value }
    {
        self.spare -= 1;
        match self.freed.pop() {
            Some(slot) => {
                self.cells[slot.index as usize] = Some(value);
                slot
            }
            None => {
                let slot = Slot {
                    index: self.cells.len() as u32,
                };
                push_within(&mut self.cells, Some(value));
                slot
            }
        }
    }

    /// The value in a slot that is in use.
    pub fn get(&self, slot: Slot) -> &T
        requires { IsSome (value_at self.now slot) }
        ensures { value_at self.now slot ≡ Some result.now }
    {
        match &self.cells[slot.index as usize] {
            Some(value) => value,
            None => unreachable!(),
        }
    }

    /// Takes the value out and frees its slot.
    pub fn take(&mut self, slot: Slot) -> T
        requires { IsSome (value_at self.old slot) }
        ensures value { value_at self.old slot ≡ Some result }
        ensures freed { self.new ≡ after_take self.old slot }
        ensures empties { Empties self.old self.new slot }
    {
        self.spare += 1;
        push_within(&mut self.freed, slot);
        match mem::replace(&mut self.cells[slot.index as usize], None) {
            Some(value) => value,
            None => unreachable!(),
        }
    }

    /// So many calls of `put` take no memory.
    pub fn spare(&self) -> u32
        ensures { result ≡ self.now.spare }
    {
        self.spare
    }
}

// Adds an item where there is room for it.
fn push_within<T: Drop>(items: &mut Vec<T>, item: T)
    requires { vec_len items.old < vec_capacity items.old }
    ensures items { items.new.items ≡ items.old.items ++ item ∷ [] }
    ensures capacity { vec_capacity items.old ≤ vec_capacity items.new }
{
    match items.push(item) {
        Ok(()) => {}
        Err(_) => unreachable!(),
    }
}

//! A desk in memory, which records each call.
//!
//! Of its disk it keeps the first image, the image as a read gives it, and all bytes written; so each earlier state
//! can be made again from the recorded calls.

ghost use Rattle.std.specs.Prelude.{◌≡◌, ◌+◌, ◌≤◌, [], length, reverse, map, Some, vec_capacity, IfOk, IsTrue, unwrap_or, slice_get, drop};
ghost use Rattle.r3_desk.specs.Contents.{fresh};
ghost use Rattle.r3_desk.specs.Crash.{NothingPending};
ghost use Rattle.r3_desk.specs.Memory.{state, fitting, MayLeave};
ghost use Rattle.r3_desk.specs.Recorded.{call_of};
ghost use Rattle.r3_desk.specs.Torn.{crash_image};
ghost use Rattle.r3_value.specs.declared.value.Outcome.TheVariants.{Value};
ghost use Rattle.r3_value.specs.declared.value.Val.TheVariants.{Null};

mod device;
#[cfg(test)]
mod tests;

use crate::calls::Calls;
use crate::crash::image_left;
use crate::{Asked, Desk, Room, Torn};
use r3_value::{Memory, Outcome, Val};
use std::alloc::Global;

/// A desk in memory. It tells everything.
#[derive(Drop)]
pub struct MemDesk {
    alloc: Global,
    first: Vec<u8>,
    image: Vec<u8>,
    written: Vec<u8>,
    said: Vec<u8>,
    calls: Calls,
    asked: Vec<Asked>,
    answers: Vec<Outcome>,
    given: usize,
    disk_faults: u64,
    say_faults: u64,
    ask_faults: u64,

    // The recorded calls tell what is there now.
    ghost image_told: { (state first.items (reverse calls.steps.items) written.items).image ≡ image.items },
    ghost said_told: { (state first.items (reverse calls.steps.items) written.items).said ≡ length said.items },
    ghost asked_told: { (state first.items (reverse calls.steps.items) written.items).asked ≡ length asked.items },
    ghost given_within: { given ≤ length answers.items },
    ghost fitting: { IsTrue (fitting first.items (reverse calls.steps.items) written.items) },

    // There is room for the bytes to come.
    ghost bytes_room: { length written.items + length said.items ≤ calls.room.bytes },
    ghost written_room: { calls.room.bytes ≤ vec_capacity written },
    ghost said_room: { calls.room.bytes ≤ vec_capacity said },
    ghost image_room: { length first.items + calls.room.bytes ≤ vec_capacity image },
    ghost image_len: { length image.items ≤ length first.items + length written.items },
}

impl MemDesk {
    ghost use Rattle.r3_desk.specs.MemDesk.{contents, state_at};

    /// A desk over this image, all of which is on the disk. It gives these answers in order. The device calls of
    /// these numbers fail, counted from 1. Calls on the disk and the output that pass the room fail too, and aren't
    /// recorded. It takes the memory for a record of so many calls and bytes at once.
    pub fn new(
        alloc: Global,
        image: Vec<u8>,
        answers: Vec<Outcome>,
        fails: Vec<u64>,
        room: Room,
    ) -> Result<MemDesk, Memory>
        ensures contents { IfOk result (λ desk. contents desk ≡ fresh image.items answers.items fails.items room) }
        ensures image { IfOk result (λ desk. ⟦<MemDesk as Desk>⟧.image desk ≡ Some image.items) }
        ensures said { IfOk result (λ desk. ⟦<MemDesk as Desk>⟧.said desk ≡ Some []) }
        ensures asked { IfOk result (λ desk. ⟦<MemDesk as Desk>⟧.asked desk ≡ Some []) }
        ensures moment { IfOk result (λ desk. ⟦<MemDesk as Desk>⟧.moment desk ≡ 0) }
        ensures quiet { IfOk result (λ desk. NothingPending (⟦<MemDesk as Desk>⟧.image desk) (⟦<MemDesk as Desk>⟧.may_leave desk)) }
    {
        let first = image.clone()?;
        let mut image = image;
        image.reserve(room.bytes as usize)?;
        Ok(MemDesk {
            alloc,
            first,
            image,
            written: Vec::with_capacity(alloc, room.bytes as usize)?,
            said: Vec::with_capacity(alloc, room.bytes as usize)?,
            calls: Calls::new(alloc, fails, room)?,
            asked: Vec::new(alloc),
            answers,
            given: 0,
            disk_faults: 0,
            say_faults: 0,
            ask_faults: 0,
        })
    }

    /// The image, as a read gives it.
    pub fn image(&self) -> &[u8]
        ensures contents { result.now ≡ (contents self.now).image }
        ensures told { ⟦<MemDesk as Desk>⟧.image self.now ≡ Some result.now }
    {
        &self.image
    }

    /// The bytes said.
    pub fn said(&self) -> &[u8]
        ensures contents { result.now ≡ (contents self.now).said }
        ensures told { ⟦<MemDesk as Desk>⟧.said self.now ≡ Some result.now }
    {
        &self.said
    }

    /// The external calls, in order.
    pub fn asked(&self) -> &[Asked]
        ensures contents { map call_of result.now ≡ (contents self.now).asked }
        ensures told { ⟦<MemDesk as Desk>⟧.asked self.now ≡ Some (map call_of result.now) }
    {
        &self.asked
    }

    /// How many device calls were recorded: the moment, as `crash` counts it.
    pub fn moment(&self) -> u64
        ensures { result ≡ ⟦<MemDesk as Desk>⟧.moment self.now }
    {
        self.calls.steps().len() as u64
    }

    /// The image that a crash leaves after so many of the recorded device calls. That many were recorded.
    pub fn crash(&self, moment: u64, torn: Torn) -> Result<Vec<u8>, Memory>
        requires { moment ≤ ⟦<MemDesk as Desk>⟧.moment self.now }
        ensures image { IfOk result (λ image. image.items ≡ crash_image torn (state_at self.now moment)) }
        ensures left { IfOk result (λ image. MayLeave (state_at self.now moment) image.items) }

        // It is one of the images that the desk tells for that moment.
        ensures reached { IfOk result (λ image. ⟦<MemDesk as Desk>⟧.reach self.now moment image.items (state_at self.now moment).said (state_at self.now moment).asked) }
    {
        let left = image_left(
            self.alloc,
            &self.first,
            self.calls.steps(),
            &self.written,
            moment as usize,
            torn,
        )?;
        Ok(left)
    }

    // The answer that comes next.
    fn next_answer(&self) -> Result<Outcome, Memory>
        ensures { IfOk result (λ outcome. outcome ≡ unwrap_or (slice_get (drop self.now.given self.now.answers.items) 0) (Value Null)) }
    {
        match self.answers.get(self.given) {
            Some(answer) => answer.copy(),
            None => Ok(Outcome::Value(Val::Null)),
        }
    }
}

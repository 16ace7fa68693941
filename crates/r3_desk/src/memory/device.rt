//! The device calls of a desk in memory.
//!
//! Beside what each desk promises, each call says exactly when it fails, and what it changes: `exact`.

ghost use Rattle.std.specs.Prelude.{◌≡◌, ◌⊎◌, ◌+◌, ◌<◌, ◌≤◌, ◌++◌, ℕ, List, length, reverse, take, drop, map, max, Some, IfOk, OnOk, OnErr, IsErrOf, MatchResult};
ghost use Rattle.std.specs.Io.{ReadsAtMost};
ghost use Rattle.std.specs.Option.{option_map, ForSome};
ghost use Rattle.r3_desk.specs.Asked.{asked_after};
ghost use Rattle.r3_desk.specs.Causes.{Rose, HasCause};
ghost use Rattle.r3_desk.specs.Contents.{DiskCall, SayCall, AskCall, counted, wrote, spoke};
ghost use Rattle.r3_desk.specs.Crash.{NothingPending, Follows, GoesOn};
ghost use Rattle.r3_desk.specs.Disk.{told_push, overwritten, MayTear, Torn};
ghost use Rattle.r3_desk.specs.Memory.{state, MayLeave, ReachIn, sync_count};
ghost use Rattle.r3_desk.specs.Recorded.{call_of};
ghost use Rattle.r3_desk.specs.Told.{size_told, counts_told, only_told};

use crate::crash::overwrite;
use crate::step::Step;
use crate::{AskFault, Asked, Desk, DiskFault, MemDesk, SayFault};
use r3_value::{Outcome, Val};

impl Desk for MemDesk {
    ghost use Rattle.r3_desk.specs.MemDesk.{contents};

    ghost size = { λ d. Some (length d.image.items) };

    ghost image = { λ d. Some d.image.items };

    ghost said = { λ d. Some d.said.items };

    ghost asked = { λ d. Some (map call_of d.asked.items) };

    ghost syncs = { λ d. Some (sync_count d.calls.steps.items) };

    ghost moment = { λ d. length d.calls.steps.items };

    ghost may_leave = { λ d. MayLeave (state d.first.items (reverse d.calls.steps.items) d.written.items) };

    ghost reach = { λ d. ReachIn d.first.items (reverse d.calls.steps.items) d.written.items };

    ghost disk_faults = { λ d. d.disk_faults };

    ghost say_faults = { λ d. d.say_faults };

    ghost ask_faults = { λ d. d.ask_faults };

    ghost sized = { λ d told is. size_told d.image.items told is };

    ghost counts_now = { λ d t c le left. counts_told d.first.items d.calls.steps.items d.written.items d.said.items d.asked.items d.said_told d.asked_told t c le left };

    ghost only_now = { λ d c n m r. only_told d.first.items d.calls.steps.items d.written.items d.said.items d.asked.items d.said_told d.asked_told c n m r };

    fn len(&mut self) -> Result<u64, DiskFault>
        ensures exact { DiskCall (contents self.old) (contents self.new) 0 (counted (contents self.old) 0) result }
        ensures size { IfOk result (λ n. ForSome (⟦<MemDesk as Desk>⟧.size self.old) (λ told. n ≡ told)) }
        ensures image { ⟦<MemDesk as Desk>⟧.image self.new ≡ ⟦<MemDesk as Desk>⟧.image self.old }
        ensures same_size { ⟦<MemDesk as Desk>⟧.size self.new ≡ ⟦<MemDesk as Desk>⟧.size self.old }
        ensures said { ⟦<MemDesk as Desk>⟧.said self.new ≡ ⟦<MemDesk as Desk>⟧.said self.old }
        ensures asked { ⟦<MemDesk as Desk>⟧.asked self.new ≡ ⟦<MemDesk as Desk>⟧.asked self.old }
        ensures syncs { ⟦<MemDesk as Desk>⟧.syncs self.new ≡ ⟦<MemDesk as Desk>⟧.syncs self.old }
        ensures pending { (c : List ℕ) → ⟦<MemDesk as Desk>⟧.may_leave self.new c → ⟦<MemDesk as Desk>⟧.may_leave self.old c }
        ensures time { GoesOn ⟦<MemDesk as Desk>⟧.moment ⟦<MemDesk as Desk>⟧.reach ⟦<MemDesk as Desk>⟧.may_leave ⟦<MemDesk as Desk>⟧.said ⟦<MemDesk as Desk>⟧.asked self.old self.new }
        ensures cause { HasCause (⟦<MemDesk as Desk>⟧.disk_faults self.old) (⟦<MemDesk as Desk>⟧.disk_faults self.new) result }
        ensures say_faults { ⟦<MemDesk as Desk>⟧.say_faults self.new ≡ ⟦<MemDesk as Desk>⟧.say_faults self.old }
        ensures ask_faults { ⟦<MemDesk as Desk>⟧.ask_faults self.new ≡ ⟦<MemDesk as Desk>⟧.ask_faults self.old }
    {
        let used = self.written.len() + self.said.len();
        if !self.calls.admit(used, 0) {
            self.disk_faults = self.disk_faults.saturating_add(1);
            return Err(DiskFault);
        }
        self.calls.record(Step::Idle);
        Ok(self.image.len() as u64)
    }

    fn read(&mut self, at: u64, into: &mut [u8]) -> Result<usize, DiskFault>
        ensures exact { DiskCall (contents self.old) (contents self.new) 0 (counted (contents self.old) 0) result }
        ensures bound { ReadsAtMost result into.new }
        ensures bytes { IfOk result (λ n. ForSome (⟦<MemDesk as Desk>⟧.image self.old) (λ told. take n into.new ≡ take n (drop at told))) }
        ensures within { IfOk result (λ n. ForSome (⟦<MemDesk as Desk>⟧.size self.old) (λ told. 0 < n → at + n ≤ told)) }
        ensures end { IfOk result (λ n. ForSome (⟦<MemDesk as Desk>⟧.size self.old) (λ told. n ≡ 0 → (length into.new ≡ 0) ⊎ (told ≤ at))) }
        ensures image { ⟦<MemDesk as Desk>⟧.image self.new ≡ ⟦<MemDesk as Desk>⟧.image self.old }
        ensures same_size { ⟦<MemDesk as Desk>⟧.size self.new ≡ ⟦<MemDesk as Desk>⟧.size self.old }
        ensures said { ⟦<MemDesk as Desk>⟧.said self.new ≡ ⟦<MemDesk as Desk>⟧.said self.old }
        ensures asked { ⟦<MemDesk as Desk>⟧.asked self.new ≡ ⟦<MemDesk as Desk>⟧.asked self.old }
        ensures syncs { ⟦<MemDesk as Desk>⟧.syncs self.new ≡ ⟦<MemDesk as Desk>⟧.syncs self.old }
        ensures pending { (c : List ℕ) → ⟦<MemDesk as Desk>⟧.may_leave self.new c → ⟦<MemDesk as Desk>⟧.may_leave self.old c }
        ensures time { GoesOn ⟦<MemDesk as Desk>⟧.moment ⟦<MemDesk as Desk>⟧.reach ⟦<MemDesk as Desk>⟧.may_leave ⟦<MemDesk as Desk>⟧.said ⟦<MemDesk as Desk>⟧.asked self.old self.new }
        ensures cause { HasCause (⟦<MemDesk as Desk>⟧.disk_faults self.old) (⟦<MemDesk as Desk>⟧.disk_faults self.new) result }
        ensures say_faults { ⟦<MemDesk as Desk>⟧.say_faults self.new ≡ ⟦<MemDesk as Desk>⟧.say_faults self.old }
        ensures ask_faults { ⟦<MemDesk as Desk>⟧.ask_faults self.new ≡ ⟦<MemDesk as Desk>⟧.ask_faults self.old }
    {
        let used = self.written.len() + self.said.len();
        if !self.calls.admit(used, 0) {
            self.disk_faults = self.disk_faults.saturating_add(1);
            return Err(DiskFault);
        }
        self.calls.record(Step::Idle);
        Ok(copy_from(&self.image, at, into))
    }

    fn write_at(&mut self, at: u64, bytes: &[u8]) -> Result<(), DiskFault>
        requires { ForSome (⟦<MemDesk as Desk>⟧.size self.old) (λ told. at ≤ told) }
        ensures exact { DiskCall (contents self.old) (contents self.new) (length bytes.now) (wrote (contents self.old) at bytes.now) result }
        ensures written { OnOk result (⟦<MemDesk as Desk>⟧.image self.new ≡ option_map (λ old. overwritten old at bytes.now) (⟦<MemDesk as Desk>⟧.image self.old)) }
        ensures failed { OnErr result (MayTear at (length bytes.now) (⟦<MemDesk as Desk>⟧.image self.old) (⟦<MemDesk as Desk>⟧.image self.new)) }
        ensures size { OnOk result (⟦<MemDesk as Desk>⟧.size self.new ≡ option_map (λ old. max old (at + length bytes.now)) (⟦<MemDesk as Desk>⟧.size self.old)) }
        ensures said { ⟦<MemDesk as Desk>⟧.said self.new ≡ ⟦<MemDesk as Desk>⟧.said self.old }
        ensures asked { ⟦<MemDesk as Desk>⟧.asked self.new ≡ ⟦<MemDesk as Desk>⟧.asked self.old }
        ensures syncs { ⟦<MemDesk as Desk>⟧.syncs self.new ≡ ⟦<MemDesk as Desk>⟧.syncs self.old }
        ensures pending { Follows (Torn at (length bytes.now)) (⟦<MemDesk as Desk>⟧.may_leave self.old) (⟦<MemDesk as Desk>⟧.may_leave self.new) }
        ensures time { GoesOn ⟦<MemDesk as Desk>⟧.moment ⟦<MemDesk as Desk>⟧.reach ⟦<MemDesk as Desk>⟧.may_leave ⟦<MemDesk as Desk>⟧.said ⟦<MemDesk as Desk>⟧.asked self.old self.new }
        ensures cause { HasCause (⟦<MemDesk as Desk>⟧.disk_faults self.old) (⟦<MemDesk as Desk>⟧.disk_faults self.new) result }
        ensures say_faults { ⟦<MemDesk as Desk>⟧.say_faults self.new ≡ ⟦<MemDesk as Desk>⟧.say_faults self.old }
        ensures ask_faults { ⟦<MemDesk as Desk>⟧.ask_faults self.new ≡ ⟦<MemDesk as Desk>⟧.ask_faults self.old }
    {
        let used = self.written.len() + self.said.len();
        let len = bytes.len();
        if !self.calls.admit(used, len) {
            self.disk_faults = self.disk_faults.saturating_add(1);
            return Err(DiskFault);
        }
        let at = at as usize;
        overwrite(&mut self.image, at, bytes).unwrap();
        self.written.extend_from_slice(bytes).unwrap();
        self.calls.record(Step::Write { at, len });
        Ok(())
    }

    fn sync(&mut self) -> Result<(), DiskFault>
        ensures exact { DiskCall (contents self.old) (contents self.new) 0 (counted (contents self.old) 0) result }
        ensures durable { OnOk result (NothingPending (⟦<MemDesk as Desk>⟧.image self.old) (⟦<MemDesk as Desk>⟧.may_leave self.new)) }
        ensures image { ⟦<MemDesk as Desk>⟧.image self.new ≡ ⟦<MemDesk as Desk>⟧.image self.old }
        ensures same_size { ⟦<MemDesk as Desk>⟧.size self.new ≡ ⟦<MemDesk as Desk>⟧.size self.old }
        ensures said { ⟦<MemDesk as Desk>⟧.said self.new ≡ ⟦<MemDesk as Desk>⟧.said self.old }
        ensures asked { ⟦<MemDesk as Desk>⟧.asked self.new ≡ ⟦<MemDesk as Desk>⟧.asked self.old }
        ensures syncs { MatchResult result (λ _. ⟦<MemDesk as Desk>⟧.syncs self.new ≡ option_map (λ n. n + 1) (⟦<MemDesk as Desk>⟧.syncs self.old)) (λ _. ⟦<MemDesk as Desk>⟧.syncs self.new ≡ ⟦<MemDesk as Desk>⟧.syncs self.old) }
        ensures pending { (c : List ℕ) → ⟦<MemDesk as Desk>⟧.may_leave self.new c → ⟦<MemDesk as Desk>⟧.may_leave self.old c }
        ensures time { GoesOn ⟦<MemDesk as Desk>⟧.moment ⟦<MemDesk as Desk>⟧.reach ⟦<MemDesk as Desk>⟧.may_leave ⟦<MemDesk as Desk>⟧.said ⟦<MemDesk as Desk>⟧.asked self.old self.new }
        ensures cause { HasCause (⟦<MemDesk as Desk>⟧.disk_faults self.old) (⟦<MemDesk as Desk>⟧.disk_faults self.new) result }
        ensures say_faults { ⟦<MemDesk as Desk>⟧.say_faults self.new ≡ ⟦<MemDesk as Desk>⟧.say_faults self.old }
        ensures ask_faults { ⟦<MemDesk as Desk>⟧.ask_faults self.new ≡ ⟦<MemDesk as Desk>⟧.ask_faults self.old }
    {
        let used = self.written.len() + self.said.len();
        if !self.calls.admit(used, 0) {
            self.disk_faults = self.disk_faults.saturating_add(1);
            return Err(DiskFault);
        }
        self.calls.record(Step::Sync);
        Ok(())
    }

    fn say(&mut self, bytes: &[u8]) -> Result<(), SayFault>
        ensures exact { SayCall (contents self.old) (contents self.new) (length bytes.now) (spoke (contents self.old) bytes.now) result }
        ensures all { OnOk result (⟦<MemDesk as Desk>⟧.said self.new ≡ told_push (⟦<MemDesk as Desk>⟧.said self.old) bytes.now) }
        ensures part { OnErr result ((k : ℕ) × (k ≤ length bytes.now) × (⟦<MemDesk as Desk>⟧.said self.new ≡ told_push (⟦<MemDesk as Desk>⟧.said self.old) (take k bytes.now))) }
        ensures image { ⟦<MemDesk as Desk>⟧.image self.new ≡ ⟦<MemDesk as Desk>⟧.image self.old }
        ensures same_size { ⟦<MemDesk as Desk>⟧.size self.new ≡ ⟦<MemDesk as Desk>⟧.size self.old }
        ensures asked { ⟦<MemDesk as Desk>⟧.asked self.new ≡ ⟦<MemDesk as Desk>⟧.asked self.old }
        ensures syncs { ⟦<MemDesk as Desk>⟧.syncs self.new ≡ ⟦<MemDesk as Desk>⟧.syncs self.old }
        ensures pending { (c : List ℕ) → ⟦<MemDesk as Desk>⟧.may_leave self.new c → ⟦<MemDesk as Desk>⟧.may_leave self.old c }
        ensures time { GoesOn ⟦<MemDesk as Desk>⟧.moment ⟦<MemDesk as Desk>⟧.reach ⟦<MemDesk as Desk>⟧.may_leave ⟦<MemDesk as Desk>⟧.said ⟦<MemDesk as Desk>⟧.asked self.old self.new }
        ensures disk_faults { ⟦<MemDesk as Desk>⟧.disk_faults self.new ≡ ⟦<MemDesk as Desk>⟧.disk_faults self.old }
        ensures cause { HasCause (⟦<MemDesk as Desk>⟧.say_faults self.old) (⟦<MemDesk as Desk>⟧.say_faults self.new) result }
        ensures ask_faults { ⟦<MemDesk as Desk>⟧.ask_faults self.new ≡ ⟦<MemDesk as Desk>⟧.ask_faults self.old }
    {
        let used = self.written.len() + self.said.len();
        if !self.calls.admit(used, bytes.len()) {
            self.say_faults = self.say_faults.saturating_add(1);
            return Err(SayFault);
        }
        self.said.extend_from_slice(bytes).unwrap();
        self.calls.record(Step::Say { len: bytes.len() });
        Ok(())
    }

    fn ask(&mut self, id: &str, number: u32, name: &str, args: &Val) -> Result<Outcome, AskFault>
        ensures exact { AskCall (contents self.old) (contents self.new) id.now number name.now args.now result }
        ensures asked { ⟦<MemDesk as Desk>⟧.asked self.new ≡ asked_after (⟦<MemDesk as Desk>⟧.asked self.old) id.now number name.now args.now result }
        ensures image { ⟦<MemDesk as Desk>⟧.image self.new ≡ ⟦<MemDesk as Desk>⟧.image self.old }
        ensures same_size { ⟦<MemDesk as Desk>⟧.size self.new ≡ ⟦<MemDesk as Desk>⟧.size self.old }
        ensures said { ⟦<MemDesk as Desk>⟧.said self.new ≡ ⟦<MemDesk as Desk>⟧.said self.old }
        ensures syncs { ⟦<MemDesk as Desk>⟧.syncs self.new ≡ ⟦<MemDesk as Desk>⟧.syncs self.old }
        ensures pending { (c : List ℕ) → ⟦<MemDesk as Desk>⟧.may_leave self.new c → ⟦<MemDesk as Desk>⟧.may_leave self.old c }
        ensures time { GoesOn ⟦<MemDesk as Desk>⟧.moment ⟦<MemDesk as Desk>⟧.reach ⟦<MemDesk as Desk>⟧.may_leave ⟦<MemDesk as Desk>⟧.said ⟦<MemDesk as Desk>⟧.asked self.old self.new }
        ensures disk_faults { ⟦<MemDesk as Desk>⟧.disk_faults self.new ≡ ⟦<MemDesk as Desk>⟧.disk_faults self.old }
        ensures say_faults { ⟦<MemDesk as Desk>⟧.say_faults self.new ≡ ⟦<MemDesk as Desk>⟧.say_faults self.old }
        ensures never_falls { ⟦<MemDesk as Desk>⟧.ask_faults self.old ≤ ⟦<MemDesk as Desk>⟧.ask_faults self.new }
        ensures fault { IsErrOf result AskFault.Fault → Rose (⟦<MemDesk as Desk>⟧.ask_faults self.old) (⟦<MemDesk as Desk>⟧.ask_faults self.new) }
        ensures no_fault { (IsErrOf result AskFault.Fault → ⊥) → ⟦<MemDesk as Desk>⟧.ask_faults self.new ≡ ⟦<MemDesk as Desk>⟧.ask_faults self.old }
    {
        let alloc = self.alloc;
        self.calls.reserve()?;
        self.asked.reserve(1)?;
        let id = String::from_str(alloc, id)?;
        let name = String::from_str(alloc, name)?;
        let args = args.copy()?;
        if self.calls.next_fails() {
            let failed = Asked {
                id,
                n: number,
                name,
                args,
                answer: None,
            };
            self.calls.record_ask();
            self.asked.push_reserved(failed);
            self.ask_faults = self.ask_faults.saturating_add(1);
            return Err(AskFault::Fault);
        }
        let answer = self.next_answer()?;
        let kept = answer.copy()?;
        let answered = Asked {
            id,
            n: number,
            name,
            args,
            answer: Some(kept),
        };
        self.calls.record_ask();
        self.asked.push_reserved(answered);
        self.given = (self.given + 1).min(self.answers.len());
        Ok(answer)
    }
}

// Copies what stands at an offset.
fn copy_from(image: &[u8], at: u64, into: &mut [u8]) -> usize
    ensures bound { result ≤ length into.new }
    ensures bytes { take result into.new ≡ take result (drop at image.now) }
    ensures within { 0 < result → at + result ≤ length image.now }
    ensures end { result ≡ 0 → (length into.new ≡ 0) ⊎ (length image.now ≤ at) }
{
    if at >= image.len() as u64 {
        return 0;
    }
    let at = at as usize;
    let count = into.len().min(image.len() - at);
    into[..count].copy_from_slice(&image[at..at + count]);
    count
}

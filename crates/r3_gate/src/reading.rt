//! Reading a whole file, as far as it may be a log.

ghost use Rattle.std.specs.Prelude.{◌≡◌, ◌⊎◌, ◌+◌, ◌-◌, ◌<◌, ◌≤◌, ◌^◌, List, ℕ, length, take, drop, IfOk, OnErr, Err, IsErrOf};
ghost use Rattle.std.specs.Option.{ForSome};
ghost use Rattle.r3_desk.specs.Causes.{Rose, HasCause};
ghost use Rattle.r3_desk.specs.Crash.{GoesOn};
ghost use Rattle.r3_desk.specs.Moments.{LeavesImage};

use crate::fault::GateFault;
use r3_desk::{Desk, DiskFault};
use std::alloc::Global;

const MAX_BYTES: u64 = 1 << 30;

// Reads what still fits behind the bytes that were read.
fn read_on<D: Desk>(desk: &mut D, at: usize, bytes: &mut [u8]) -> Result<usize, DiskFault>
    requires { at < length bytes.old }
    ensures kept { take at bytes.new ≡ take at bytes.old }
    ensures bound { IfOk result (λ n. at + n ≤ length bytes.new) }
    ensures bytes { IfOk result (λ n. ForSome (D.image desk.old)
        (λ told. take n (drop at bytes.new) ≡ take n (drop at told))) }
    ensures end { IfOk result (λ n. ForSome (D.size desk.old) (λ told. n ≡ 0 → told ≤ at)) }
    ensures image { D.image desk.new ≡ D.image desk.old }
    ensures size { D.size desk.new ≡ D.size desk.old }
    ensures said { D.said desk.new ≡ D.said desk.old }
    ensures asked { D.asked desk.new ≡ D.asked desk.old }
    ensures syncs { D.syncs desk.new ≡ D.syncs desk.old }
    ensures pending { (c : List ℕ) → D.may_leave desk.new c → D.may_leave desk.old c }
    ensures time { GoesOn D.moment D.reach D.may_leave D.said D.asked desk.old desk.new }
    ensures cause { HasCause (D.disk_faults desk.old) (D.disk_faults desk.new) result }
    ensures say_faults { D.say_faults desk.new ≡ D.say_faults desk.old }
    ensures ask_faults { D.ask_faults desk.new ≡ D.ask_faults desk.old }
{
    desk.read(at as u64, &mut bytes[at..])
}

/// Reads the image, or the first part of it that may be a log, into one buffer. It writes nothing.
pub fn read_image<D: Desk>(alloc: Global, desk: &mut D) -> Result<Vec<u8>, GateFault>
    ensures bytes { IfOk result (λ v. ForSome (D.image desk.old) (λ i. v.items ≡ take (2 ^ 30) i)) }
    ensures short { IfOk result (λ v. length v.items ≤ 2 ^ 30) }
    ensures within { IfOk result (λ v. ForSome (D.size desk.old) (λ n. length v.items ≤ n)) }
    ensures image { D.image desk.new ≡ D.image desk.old }
    ensures size { D.size desk.new ≡ D.size desk.old }
    ensures said { D.said desk.new ≡ D.said desk.old }
    ensures asked { D.asked desk.new ≡ D.asked desk.old }
    ensures syncs { D.syncs desk.new ≡ D.syncs desk.old }
    ensures pending { (c : List ℕ) → D.may_leave desk.new c → D.may_leave desk.old c }

    // A crash leaves what it might have left before.
    ensures crash { LeavesImage D.moment D.reach D.may_leave D.said D.asked desk.old desk.new
        (D.may_leave desk.old) }
    ensures memory { OnErr result ((result ≡ Err GateFault.Memory) ⊎ (result ≡ Err GateFault.Disk)) }
    ensures disk { IsErrOf result GateFault.Disk →
        Rose (D.disk_faults desk.old) (D.disk_faults desk.new) }
    ensures no_fault { (IsErrOf result GateFault.Disk → ⊥) →
        D.disk_faults desk.new ≡ D.disk_faults desk.old }
    ensures say_faults { D.say_faults desk.new ≡ D.say_faults desk.old }
    ensures ask_faults { D.ask_faults desk.new ≡ D.ask_faults desk.old }
{
    let size = desk.len()?.min(MAX_BYTES);
    let mut bytes = vec![in alloc; 0u8; size as usize]?;
    let mut at = 0;
    while at < bytes.len() {
        let count = read_on(desk, at, &mut bytes)?;
        // A desk that doesn't tell its size may end before it.
        if count == 0 {
            bytes.truncate(at);
            return Ok(bytes);
        }
        at += count;
    }
    Ok(bytes)
}

//! Reading the bytes of a file that a crash may have left.

ghost use Rattle.std.specs.Prelude.{◌≡◌, ◌+◌, ◌<◌, ◌≤◌, ◌^◌, ◌++◌, ◌∷◌, List, ℕ, length, take, drop, Err, IfOk, IfSome, IfNone, IsTrue, ◌↔◌};
ghost use Rattle.r3_gate.specs.Log.{magic, frame, size_of, Fits, Fronts, IsDamaged, IsPayload};
ghost use Rattle.r3_gate.specs.Payloads.{contents};

use crate::fault::GateFault;
use std::alloc::Global;

const MAX_PAYLOAD: usize = 1 << 23;

const MAX_ENTRIES: usize = 1_000_000;

const OPEN: u8 = 0xa5;

/// Whether a file begins as a log.
pub fn has_magic(bytes: &[u8]) -> bool
    ensures { IsTrue result ↔ (take 8 bytes.now ≡ magic) }
{
    bytes.starts_with(b"R3STORE1")
}

// Any other byte is closed, whatever a crash has left there.
fn is_open(commit_byte: u8) -> bool
    ensures { IsTrue result ↔ (commit_byte ≡ 165) }
{
    commit_byte == OPEN
}

// Whether so many payloads may have another one behind them.
fn has_room(count: usize) -> bool
    ensures { IsTrue result ↔ (count < 1000000) }
{
    count < MAX_ENTRIES
}

// The length of the payload that a record begins with, if the record is whole: its next commit byte
// stands behind it.
fn whole_len(after: &[u8]) -> Option<usize>
    ensures some { IfSome result (λ n. (1 ≤ n) × (n ≤ 2 ^ 23) × (5 + n ≤ length after.now)
        × (after.now ≡ frame (take n (drop 4 after.now)) ++ drop (4 + n) after.now)) }
    ensures none { IfNone result ((p : List ℕ) (gate : ℕ) (rest : List ℕ) → IsPayload p →
        after.now ≡ frame p ++ gate ∷ rest → ⊥) }
{
    if after.len() < 5 {
        return None;
    }
    let len = u32::from_be_bytes([after[0], after[1], after[2], after[3]]) as usize;
    if len == 0 || len > MAX_PAYLOAD || after.len() - 5 < len {
        return None;
    }
    Some(len)
}

/// Reads the payloads behind open commit bytes, and tells where the first closed one stands.
pub fn parse(alloc: Global, bytes: &[u8]) -> Result<(Vec<Vec<u8>>, usize), GateFault>
    requires long { 9 < length bytes.now }
    requires short { length bytes.now ≤ 2 ^ 30 }
    requires magic { take 8 bytes.now ≡ magic }
    ensures ok { IfOk result (λ r. Fronts bytes.now (contents r.0) × Fits (contents r.0) ×
        (r.1 + 1 ≡ size_of (contents r.0))) }
    ensures others { (result ≡ Err GateFault.NotStore → ⊥) × (result ≡ Err GateFault.Disk → ⊥)
        × ((l : _) → result ≡ Err (GateFault.Full l) → ⊥) }
    ensures damaged { (k : ℕ) → result ≡ Err (GateFault.Damaged k) → IsDamaged bytes.now k }
{
    let mut payloads = Vec::new(alloc);
    let mut gate = 8;
    'records: while is_open(bytes[gate]) {
        let entry = payloads.len() as u32 + 1;
        if !has_room(payloads.len()) {
            return Err(GateFault::Damaged { entry });
        }
        let after = &bytes[gate + 1..];
        let Some(len) = whole_len(after) else {
            return Err(GateFault::Damaged { entry });
        };
        let payload = after[4..4 + len].to_vec(alloc)?;
        payloads.push(payload)?;
        gate += 5 + len;
    }
    Ok((payloads, gate))
}

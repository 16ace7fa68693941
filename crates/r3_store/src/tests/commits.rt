//! Commits of entries that set one row, behind a snapshot that is pinned.

ghost use Rattle.std.specs.Prelude.{◌≡◌, ◌≤◌, ◌^◌, ◌↔◌, length, List, ℕ, Contains, IfOk, OnOk, IsTrue};
ghost use Rattle.r3_desk.specs.Crash.{NothingPending};
ghost use Rattle.r3_entry.specs.declared.entry.Entry.{Entry};
ghost use Rattle.r3_entry.specs.Bytes.{entry as spelled};
ghost use Rattle.r3_entry.specs.Formed.{IsOfKind, is_user};
ghost use Rattle.r3_entry.specs.Limits.{IsEntry};
ghost use Rattle.r3_store.specs.Holds.{Holds, MayFollow, Stands};

use super::{LOAD, PROGRAM, desk_over, image_of, payload_of};
use crate::store::let_go;
use crate::{CommitFault, Store};
use r3_desk::Desk;
use r3_entry::{Entry, decode};
use r3_formed::is_program_first;
use r3_gate::Limit;
use r3_rows::{Cell, Key};
use std::alloc::Global;
use std::test::Fail;

// An entry that sets one row of acct, of this key and value.
pub fn row_entry(alloc: Global, snap: &str, key: &str, value: &str) -> Result<Entry, Fail>
    ensures limits { IfOk result (λ e. IsEntry e) }
    ensures payload { IfOk result (λ e. length (spelled e) ≤ 2 ^ 23) }
{
    let head = "00000000 00000001 00 00000004 61636374 00000001";
    let payload = payload_of(alloc, &["02", snap, head, key, "01 00 02", value])?;
    if payload.len() > 100 {
        return Err(Fail::from("too many bytes"));
    }
    let entry = decode(alloc, &payload)?;
    Ok(entry)
}

fn is_row(write: &(Key, Option<Cell>)) -> bool
    ensures { IsTrue result → IsTrue (is_user write.now) × IsOfKind write.now }
{
    matches!(write, (Key::User { table: _, key: _ }, Some(Cell::Row(_))))
}

// Whether the entry looks at nothing, sets one row, and may so follow a history of so many entries.
fn sets_a_row(count: u32, entry: &Entry) -> bool
    ensures { IsTrue result → (h : List Entry) → count ≡ length h → MayFollow h entry.now }
{
    let writes = entry.writes.list();
    is_program_first(count, entry)
        && entry.snap <= count
        && entry.reads.as_slice().is_empty()
        && writes.len() == 1
        && is_row(&writes[0])
}

// Opens the store, and pins its length.
pub fn open_held<D: Desk>(alloc: Global, desk: &mut D) -> Result<(Store, u32), Fail>
    requires { NothingPending (D.image desk.old) (D.may_leave desk.old) }
    ensures holds { IfOk result (λ s.
        (h : List Entry) × (k : ℕ) × Holds D.size D.image D.may_leave desk.new s.0 h k) }
    ensures pins { IfOk result (λ s. Contains s.0.pins s.1) }
{
    let mut store = Store::open(alloc, desk)?;
    let held = store.len();
    store.hold(held)?;
    Ok((store, held))
}

// The same, at this snapshot.
fn is_next_row(store: &Store, snap: u32, entry: &Entry) -> bool
    ensures { IsTrue result → (entry.now.snap ≡ snap)
        × ((h : List Entry) → Stands store.now h → MayFollow h entry.now) }
{
    entry.snap == snap && sets_a_row(store.len(), entry)
}

fn is_disk(fault: CommitFault) -> bool
    ensures { IsTrue result ↔ (fault ≡ CommitFault.Disk) }
{
    matches!(fault, CommitFault::Disk)
}

// Commits an entry of this snapshot that sets one row.
pub fn commit_row<D: Desk>(
    alloc: Global,
    desk: &mut D,
    store: &mut Store,
    snap: u32,
    entry: Entry,
) -> Result<Result<u32, CommitFault>, Fail>
    requires limits { IsEntry entry }
    requires payload { length (spelled entry) ≤ 2 ^ 23 }
    requires pinned { Contains store.old.pins snap }
    requires holds { (h : List Entry) × (k : ℕ)
        × Holds D.size D.image D.may_leave desk.old store.old h k }
    ensures holds { OnOk result ((h : List Entry) × (k : ℕ)
        × Holds D.size D.image D.may_leave desk.new store.new h k) }
    ensures pins { OnOk result (store.new.pins ≡ store.old.pins) }
{
    if !is_next_row(store, snap, &entry) {
        let_go(entry);
        return Err(Fail::from("not such an entry"));
    }
    match store.commit(alloc, desk, entry) {
        Ok(number) => Ok(Ok(number)),
        Err(fault) => {
            if is_disk(fault) {
                return Err(Fail::from("the disk failed"));
            }
            Ok(Err(fault))
        }
    }
}

// What three transactions of one snapshot are answered: two that set row a, and one that sets row b.
fn overtaken(
    alloc: Global,
    image: Vec<u8>,
    snap: &str,
) -> Result<[Result<u32, CommitFault>; 3], Fail> {
    let mut desk = desk_over(alloc, image)?;
    let (mut store, held) = open_held(alloc, &mut desk)?;
    let a = row_entry(alloc, snap, "61", "0000000000000014")?;
    let first = commit_row(alloc, &mut desk, &mut store, held, a)?;
    let a = row_entry(alloc, snap, "61", "000000000000001e")?;
    let second = commit_row(alloc, &mut desk, &mut store, held, a)?;
    let b = row_entry(alloc, snap, "62", "000000000000001e")?;
    let third = commit_row(alloc, &mut desk, &mut store, held, b)?;
    Ok([first, second, third])
}

#[test]
fn the_first_of_two_writers_wins(rt: HostRuntime) -> Result<(), Fail> {
    let alloc = rt.alloc();
    let image = image_of(alloc, &[PROGRAM, LOAD], &[], 0)?;
    let got = overtaken(alloc, image, "00000002")?;
    assert!(rt; got == [Ok(3), Err(CommitFault::Conflict { entry: 3 }), Ok(4)]);
    Ok(())
}

// A conflict is told though there is no room.
#[test]
fn a_conflict_stands_before_a_limit(rt: HostRuntime) -> Result<(), Fail> {
    let alloc = rt.alloc();
    let nothing = payload_of(alloc, &["02 00000000 00000000 00000000"])?;
    let image = image_of(alloc, &[PROGRAM, LOAD], &nothing, 999_997)?;
    let got = overtaken(alloc, image, "000f423f")?;
    let full = CommitFault::Full {
        limit: Limit::Entries,
    };
    let conflict = CommitFault::Conflict { entry: 1_000_000 };
    assert!(rt; got == [Ok(1_000_000), Err(conflict), Err(full)]);
    Ok(())
}

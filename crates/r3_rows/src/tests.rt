use super::*;
use r3_value::{Outcome, Txt, Val};
use sqlite_items::Items;
use std::alloc::Global;
use std::test::*;

fn user(alloc: Global, table: &str, key: &str) -> Result<Key, Fail> {
    let table = Txt::new(alloc, table)?;
    let key = Txt::new(alloc, key)?;
    Ok(Key::User { table, key })
}

fn flow(alloc: Global, id: &str) -> Result<Key, Fail> {
    let id = Txt::new(alloc, id)?;
    Ok(Key::Flow { id })
}

fn step(alloc: Global, id: &str, n: u32) -> Result<Key, Fail> {
    let id = Txt::new(alloc, id)?;
    Ok(Key::Step { id, n })
}

#[test]
fn keys_go_by_kind_and_then_by_their_bytes(rt: HostRuntime) -> Result<(), Fail> {
    let alloc = rt.alloc();
    let mut keys = Vec::new(alloc);
    keys.push(user(alloc, "a", "b")?)?;
    keys.push(user(alloc, "a", "ba")?)?;
    keys.push(user(alloc, "ab", "a")?)?;
    keys.push(user(alloc, "z", "z")?)?;
    keys.push(flow(alloc, "a")?)?;
    keys.push(flow(alloc, "a-0")?)?;
    keys.push(step(alloc, "a", 9)?)?;
    keys.push(step(alloc, "a", 10)?)?;
    keys.push(step(alloc, "b", 0)?)?;
    for i in 0..keys.len() {
        for j in 0..keys.len() {
            let want = i.cmp(&j);
            assert!(rt;
                compare(&keys[i], &keys[j]) == want,
                "key {i} beside key {j}"
            );
        }
    }
    Ok(())
}

fn put(alloc: Global, writes: &mut Writes, key: &str, value: Option<i64>) -> Result<(), Fail> {
    let key = user(alloc, "acct", key)?;
    writes.put(key, value.map(|n| Cell::Row(Val::Int(n))))?;
    Ok(())
}

// The number under the key, or -1 for a deletion, or -2.
fn number_under(alloc: Global, writes: &Writes, key: &str) -> Result<i64, Fail> {
    let key = user(alloc, "acct", key)?;
    match writes.find(&key) {
        None => Ok(-2),
        Some(Some(Cell::Row(Val::Int(n)))) => Ok(*n),
        Some(_) => Ok(-1),
    }
}

#[test]
fn writes_are_kept_in_order_and_the_last_of_a_key(rt: HostRuntime) -> Result<(), Fail> {
    let alloc = rt.alloc();
    let mut writes = Writes::new(alloc);
    for (key, value) in [("b", Some(5)), ("a", Some(10)), ("b", None), ("d", Some(7))] {
        put(alloc, &mut writes, key, value)?;
    }
    put(alloc, &mut writes, "c", Some(3))?;
    let copied = writes.copy()?;
    for (key, want) in [("a", 10), ("b", -1), ("c", 3), ("d", 7), ("e", -2)] {
        assert_eq!(rt; number_under(alloc, &copied, key)?, want, "under {key}");
    }
    let pairs = writes.into_list();
    assert_eq!(rt; pairs.len(), copied.list().len());
    for i in 1..pairs.len() {
        assert!(rt; pairs[i - 1].0 < pairs[i].0, "at {i}");
    }
    Ok(())
}

// A workflow in a queue.
fn waiting(alloc: Global) -> Result<FlowRow, Fail> {
    let function = Txt::new(alloc, "send")?;
    let queue = Txt::new(alloc, "mail")?;
    Ok(FlowRow {
        status: Status::Enqueued,
        function,
        args: Val::Int(3),
        outcome: None,
        queue: Some(queue),
        started: 3,
        attempts: 0,
        parent: None,
    })
}

fn called(alloc: Global) -> Result<StepRow, Fail> {
    let name = Txt::new(alloc, "notify")?;
    Ok(StepRow {
        name,
        kind: StepKind::Outside,
        outcome: Outcome::Value(Val::Null),
    })
}

fn range(alloc: Global) -> Result<Read, Fail> {
    let table = Txt::new(alloc, "acct")?;
    let lo = Txt::new(alloc, "")?;
    let hi = Txt::new(alloc, "z")?;
    let mut keys = Items::new(alloc);
    keys.push((Txt::new(alloc, "a")?, 2))?;
    Ok(Read::Range {
        table,
        lo,
        hi,
        keys,
    })
}

fn copies_a_row(row: &FlowRow) -> bool {
    match row.copy() {
        Ok(copied) => copied.same(row),
        Err(_) => false,
    }
}

fn copies_a_step(row: &StepRow) -> bool {
    match row.copy() {
        Ok(copied) => copied.same(row),
        Err(_) => false,
    }
}

fn copies_a_cell(cell: &Cell) -> bool {
    match cell.copy() {
        Ok(copied) => copied.same(cell),
        Err(_) => false,
    }
}

fn copies_a_read(alloc: Global, read: &Read) -> bool {
    match read.copy(alloc) {
        Ok(copied) => copied.same(read),
        Err(_) => false,
    }
}

fn copies_a_key(key: &Key) -> bool {
    match key.copy() {
        Ok(copied) => copied == *key,
        Err(_) => false,
    }
}

#[test]
fn a_row_is_copied(rt: HostRuntime) -> Result<(), Fail> {
    let row = waiting(rt.alloc())?;
    assert!(rt; copies_a_row(&row));
    Ok(())
}

#[test]
fn a_step_is_copied(rt: HostRuntime) -> Result<(), Fail> {
    let row = called(rt.alloc())?;
    assert!(rt; copies_a_step(&row));
    let cell = Cell::Step(row);
    assert!(rt; copies_a_cell(&cell));
    Ok(())
}

#[test]
fn a_read_item_is_copied(rt: HostRuntime) -> Result<(), Fail> {
    let alloc = rt.alloc();
    let look = range(alloc)?;
    assert!(rt; copies_a_read(alloc, &look));
    Ok(())
}

#[test]
fn a_key_is_copied(rt: HostRuntime) -> Result<(), Fail> {
    let key = step(rt.alloc(), "m1", 1)?;
    assert!(rt; copies_a_key(&key));
    Ok(())
}

#[test]
fn words_are_those_that_are_printed(rt: HostRuntime) {
    let statuses = [
        (Status::Enqueued, "ENQUEUED"),
        (Status::Pending, "PENDING"),
        (Status::Success, "SUCCESS"),
        (Status::Error, "ERROR"),
        (Status::Cancelled, "CANCELLED"),
        (
            Status::MaxRecoveryAttemptsExceeded,
            "MAX_RECOVERY_ATTEMPTS_EXCEEDED",
        ),
    ];
    for (status, word) in statuses {
        assert_eq!(rt; status.word(), word);
    }
    let kinds = [
        (StepKind::Txn, "txn"),
        (StepKind::Outside, "outside"),
        (StepKind::Child, "child"),
        (StepKind::Await, "await"),
    ];
    for (kind, word) in kinds {
        assert_eq!(rt; kind.word(), word);
    }
}

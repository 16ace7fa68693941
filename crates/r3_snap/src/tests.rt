use crate::{Pins, WriteSet};
use r3_rows::{Key, Writes};
use r3_value::Txt;
use std::alloc::Global;
use std::test::Fail;

#[test]
fn the_least_of_the_pinned_snapshots_is_told(rt: HostRuntime) -> Result<(), Fail> {
    let mut pins = Pins::new(rt.alloc());
    assert!(rt; pins.least().is_none());
    pins.hold(7)?;
    pins.hold(4)?;
    pins.hold(9)?;
    assert!(rt; pins.least() == Some(4));
    Ok(())
}

#[test]
fn a_snapshot_held_twice_stays_after_one_release(rt: HostRuntime) -> Result<(), Fail> {
    let mut pins = Pins::new(rt.alloc());
    pins.hold(4)?;
    pins.hold(4)?;
    pins.release(4);
    assert!(rt; pins.least() == Some(4));
    Ok(())
}

fn row_of(alloc: Global, key: &str) -> Result<Key, Fail> {
    Ok(Key::User {
        table: Txt::new(alloc, "acct")?,
        key: Txt::new(alloc, key)?,
    })
}

#[test]
fn a_write_set_has_the_keys_in_order(rt: HostRuntime) -> Result<(), Fail> {
    let alloc = rt.alloc();
    let mut writes = Writes::new(alloc);
    writes.put(row_of(alloc, "b")?, None)?;
    writes.put(row_of(alloc, "a")?, None)?;
    let set = WriteSet::of(alloc, &writes)?;
    assert_eq!(rt; set.keys().len(), 2);
    assert!(rt; set.keys()[0] == row_of(alloc, "a")?);
    assert!(rt; set.keys()[1] == row_of(alloc, "b")?);
    Ok(())
}

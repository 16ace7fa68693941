use crate::{Pool, PoolFault};
use std::test::Fail;

#[test]
fn the_slot_freed_last_is_used_again(rt: HostRuntime) -> Result<(), Fail> {
    let mut pool: Pool<u8> = Pool::new(rt.alloc(), 2);
    assert_eq!(rt; pool.spare(), 0);
    assert!(rt; matches!(pool.reserve(3), Err(PoolFault::Full)));
    pool.reserve(2)?;
    assert!(rt; pool.spare() >= 2);
    let p = pool.put(b'A');
    let q = pool.put(b'B');
    assert!(rt; p != q);
    assert_eq!(rt; pool.take(p), b'A');
    assert_eq!(rt; pool.next(), p);
    assert_eq!(rt; pool.put(b'C'), p);
    assert_eq!(rt; *pool.get(q), b'B');
    assert!(rt; matches!(pool.reserve(1), Err(PoolFault::Full)));
    Ok(())
}

// After two slots are freed, the later one is taken first, and the least fresh one comes last.
#[test]
fn freed_slots_come_before_a_fresh_one(rt: HostRuntime) -> Result<(), Fail> {
    let mut pool: Pool<u32> = Pool::new(rt.alloc(), 3);
    pool.reserve(3)?;
    let first = pool.put(10);
    let second = pool.put(20);
    assert_eq!(rt; pool.take(first), 10);
    assert_eq!(rt; pool.take(second), 20);
    assert_eq!(rt; pool.spare(), 3);
    assert_eq!(rt; pool.put(30), second);
    assert_eq!(rt; pool.put(40), first);
    let third = pool.put(50);
    assert!(rt; third != first && third != second);
    assert_eq!(rt; *pool.get(third), 50);
    assert_eq!(rt; pool.spare(), 0);
    Ok(())
}

#[test]
fn a_pool_of_cap_0_holds_nothing(rt: HostRuntime) -> Result<(), Fail> {
    let mut pool: Pool<u8> = Pool::new(rt.alloc(), 0);
    pool.reserve(0)?;
    assert!(rt; matches!(pool.reserve(1), Err(PoolFault::Full)));
    assert_eq!(rt; pool.spare(), 0);
    Ok(())
}

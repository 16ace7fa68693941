//! The generator's calls.

use super::{Fails, NONE, RUN, TINY, left_by};
use std::test::Fail;

const GEN: &[&str] = &["s", "gen", "7", "200"];

const ONE: &[&str] = &["s", "gen", "7", "1"];

#[test]
fn transfers_keep_the_sum(rt: HostRuntime) -> Result<(), Fail> {
    let left = left_by(rt.alloc(), GEN, b"", b"", b"", &NONE)?;
    assert_eq!(rt; left.status, 0);
    assert_eq!(rt;
        left.said.as_slice(),
        b"{\"entries\":602,\"success\":200,\"sum\":64000}\n".as_slice()
    );
    // The accounts are loaded anew, and each start repeats one.
    let again = left_by(rt.alloc(), GEN, left.desk.image(), b"", b"", &NONE)?;
    assert_eq!(rt; again.status, 0);
    assert_eq!(rt;
        again.said.as_slice(),
        b"{\"entries\":603,\"success\":200,\"sum\":64000}\n".as_slice()
    );
    Ok(())
}

#[test]
fn a_store_of_other_functions_is_refused(rt: HostRuntime) -> Result<(), Fail> {
    let other = left_by(rt.alloc(), RUN, b"", TINY.as_bytes(), b"", &NONE)?;
    let left = left_by(
        rt.alloc(),
        GEN,
        other.desk.image(),
        TINY.as_bytes(),
        b"",
        &NONE,
    )?;
    assert_eq!(rt; left.status, 9);
    assert_eq!(rt;
        left.said.as_slice(),
        b"{\"fault\":\"program\"}\n".as_slice()
    );
    assert_eq!(rt; left.desk.image(), other.desk.image());
    Ok(())
}

#[test]
fn the_summary_is_said_last_of_all(rt: HostRuntime) -> Result<(), Fail> {
    let whole = left_by(rt.alloc(), ONE, b"", b"", b"", &NONE)?;
    assert_eq!(rt;
        whole.said.as_slice(),
        b"{\"entries\":5,\"success\":1,\"sum\":64000}\n".as_slice()
    );
    let mut last = Vec::new(rt.alloc());
    for call in 1..=whole.desk.moment() {
        let fails = Fails { desk: call, ..NONE };
        let left = left_by(rt.alloc(), ONE, b"", b"", b"", &fails)?;
        let is_last = call == whole.desk.moment();
        assert_eq!(rt; left.said.len(), 0, "call {call}");
        assert_eq!(rt; left.status, if is_last { 5 } else { 4 }, "call {call}");
        // Taken up again, it comes to its end. Most calls leave what the last one left.
        if left.desk.image() != last.as_slice() {
            let again = left_by(rt.alloc(), ONE, left.desk.image(), b"", b"", &NONE)?;
            assert_eq!(rt; again.status, 0, "call {call}");
            last = left.desk.image().to_vec(rt.alloc())?;
        }
    }
    Ok(())
}

//! The store's file: its bytes, those that are refused, and calls that fail.

use super::history::acts_of;
use super::{ACCOUNTS, Fails, NONE, RUN, TINY, TRANSFER, answered, left_by};
use r3_gen::BANK;
use std::alloc::Global;
use std::test::Fail;

const LOAD: &[u8] = b"{\"load\":\"acct\",\"rows\":{\"a\":10}}\n";

// The file of a program alone, and after one load: each field by hand, as the format page has them.
const ONE_PROGRAM: &[u8] =
    b"R3STORE1\xa5\0\0\0\x1c\x01\0\0\0\x0btable acct;\0\0\0\0\0\0\0\0\0\0\0\0\0";

const ONE_LOAD: &[u8] =
    b"R3STORE1\xa5\0\0\0\x1c\x01\0\0\0\x0btable acct;\0\0\0\0\0\0\0\0\0\0\0\0\xa5\0\0\0\x26\x02\0\0\0\x01\0\0\0\0\0\0\0\x01\0\0\0\0\x04acct\0\0\0\x01a\x01\0\x02\0\0\0\0\0\0\0\x0a\0";

// The same with a load of 7 at `c` in the place of the first.
const OTHER_LOAD: &[u8] =
    b"R3STORE1\xa5\0\0\0\x1c\x01\0\0\0\x0btable acct;\0\0\0\0\0\0\0\0\0\0\0\0\xa5\0\0\0\x26\x02\0\0\0\x01\0\0\0\0\0\0\0\x01\0\0\0\0\x04acct\0\0\0\x01c\x01\0\x02\0\0\0\0\0\0\0\x07\0";

// The byte that commits the load.
const COMMIT: usize = 41;

#[test]
fn a_load_is_answered_and_stored(rt: HostRuntime) -> Result<(), Fail> {
    let left = answered(&rt, rt.alloc(), TINY, b"", LOAD, "{\"entry\":2}\n")?;
    assert_eq!(rt; left.desk.image(), ONE_LOAD);
    Ok(())
}

#[test]
fn an_empty_script_leaves_the_program(rt: HostRuntime) -> Result<(), Fail> {
    // image before; a file of nine bytes is an empty store, and its bytes are written over
    let cases = [b"".as_slice(), b"XXXXXXXXX"];
    for image in cases {
        let left = answered(&rt, rt.alloc(), TINY, image, b"", "")?;
        assert_eq!(rt; left.desk.image(), ONE_PROGRAM);
    }
    Ok(())
}

#[test]
fn a_record_that_is_not_committed_is_written_over(rt: HostRuntime) -> Result<(), Fail> {
    let script = b"{\"load\":\"acct\",\"rows\":{\"c\":7}}";
    // what stands where the record would be committed
    for byte in [0, 0x37] {
        let mut image = ONE_LOAD.to_vec(rt.alloc())?;
        if let Some(commit) = image.get_mut(COMMIT) {
            *commit = byte;
        }
        assert!(rt; image.as_slice() != ONE_LOAD);
        let left = answered(&rt, rt.alloc(), TINY, &image, script, "{\"entry\":2}\n")?;
        assert_eq!(rt; left.desk.image(), OTHER_LOAD);
    }
    Ok(())
}

#[test]
fn a_file_that_is_no_store_is_refused(rt: HostRuntime) -> Result<(), Fail> {
    let script =
        b"{\"load\":\"acct\",\"rows\":{\"a\":10}}\n{\"load\":\"acct\",\"rows\":{\"b\":5}}\n";
    let replies = "{\"entry\":2}\n{\"entry\":3}\n";
    let left = answered(&rt, rt.alloc(), TINY, b"", script, replies)?;
    let two = left.desk.image();
    assert_eq!(rt; two.len(), 128);
    // The bytes that commit the second load, and none behind it.
    assert!(rt; matches!(two.get(84), Some(0xa5)));
    assert!(rt; matches!(two.get(127), Some(0)));
    let cut: &[u8] = two.get(..126).unwrap_or(b"");
    let other = b"{\"fault\":\"program\"}\n".as_slice();
    // image, function file, status, last line
    let cases = [
        (
            b"XXXXXXXXXX".as_slice(),
            TINY,
            8,
            b"{\"entry\":0,\"fault\":\"store\"}\n".as_slice(),
        ),
        (cut, TINY, 8, b"{\"entry\":3,\"fault\":\"store\"}\n"),
        (
            cut,
            "table acc2;",
            8,
            b"{\"entry\":3,\"fault\":\"store\"}\n",
        ),
        (ONE_LOAD, "table acc2;", 9, other),
        (
            cut,
            "table Acct;",
            7,
            b"{\"at\":6,\"fault\":\"functions\",\"kind\":\"lex\"}\n",
        ),
    ];
    for (image, text, status, last) in cases {
        let left = left_by(rt.alloc(), RUN, image, text.as_bytes(), LOAD, &NONE)?;
        assert_eq!(rt; left.status, status);
        assert_eq!(rt; left.said.as_slice(), last);
        assert_eq!(rt; left.desk.image(), image);
    }
    Ok(())
}

#[test]
fn a_call_that_fails_has_its_status(rt: HostRuntime) -> Result<(), Fail> {
    // the failing call of the desk, the script and the files; the status, the replies, and the bytes stored where they
    // are settled. The first read of the script gives its line, and the second its end.
    let cases = [
        (1, 0, 0, 4, b"".as_slice(), b"".as_slice()),
        (0, 1, 0, 6, b"", ONE_PROGRAM),
        (0, 2, 0, 6, b"{\"entry\":2}\n", ONE_LOAD),
        (0, 0, 1, 6, b"", b""),
    ];
    for (desk, script, files, status, said, stored) in cases {
        let fails = Fails {
            desk,
            script,
            files,
        };
        let left = left_by(rt.alloc(), RUN, b"", TINY.as_bytes(), LOAD, &fails)?;
        assert_eq!(rt; left.status, status);
        assert_eq!(rt; left.said.as_slice(), said);
        assert_eq!(rt; left.desk.image(), stored);
    }
    Ok(())
}

#[test]
fn a_reply_is_said_last_of_all(rt: HostRuntime) -> Result<(), Fail> {
    let whole = left_by(rt.alloc(), RUN, b"", TINY.as_bytes(), LOAD, &NONE)?;
    for call in 1..=whole.desk.moment() {
        let fails = Fails { desk: call, ..NONE };
        let left = left_by(rt.alloc(), RUN, b"", TINY.as_bytes(), LOAD, &fails)?;
        let is_last = call == whole.desk.moment();
        assert_eq!(rt; left.said.len(), 0, "call {call}");
        assert_eq!(rt; left.status, if is_last { 5 } else { 4 }, "call {call}");
        assert!(rt; !is_last || left.desk.image() == ONE_LOAD, "call {call}");
    }
    Ok(())
}

// The store of a transfer that had so many turns.
fn stored(alloc: Global, turns: usize) -> Result<Vec<u8>, Fail> {
    let turns = "{\"turn\":\"m1\"}\n".repeat(alloc, turns)?;
    let script = format!(in alloc; "{ACCOUNTS}{TRANSFER}{turns}")?;
    let left = left_by(alloc, RUN, b"", BANK.as_bytes(), script.as_bytes(), &NONE)?;
    let image = left.desk.image().to_vec(alloc)?;
    Ok(image)
}

// The step's row: the length of its name, the name, its kind, and its outcome 3. It stands once in the store.
const STEP: &[u8] = b"\0\0\0\x03pay\0\0\x02\0\0\0\0\0\0\0\x03";

// Changes the byte at this place of the step's row.
fn change_step(image: &mut Vec<u8>, place: usize, from: u8, to: u8) -> Result<(), Fail> {
    let Some(start) = image.windows(STEP.len()).position(|part| part == STEP) else {
        return Err(Fail::from("there is no such row"));
    };
    let Some(byte) = image.get_mut(start.saturating_add(place)) else {
        return Err(Fail::from("there is no such byte"));
    };
    if *byte != from {
        return Err(Fail::from("another byte stands there"));
    }
    *byte = to;
    Ok(())
}

#[test]
fn a_store_that_is_formed_is_taken_up_as_it_is(rt: HostRuntime) -> Result<(), Fail> {
    let alloc = rt.alloc();
    let mut image = stored(alloc, 4)?;
    change_step(&mut image, 17, 3, 4)?;
    let left = answered(&rt, alloc, BANK, &image, b"", "")?;
    assert_eq!(rt; left.desk.image(), image.as_slice());
    let acts = acts_of(alloc, &image)?;
    assert_eq!(rt; acts.as_str(), "program load start txn outside finish ");
    Ok(())
}

#[test]
fn a_recorded_outcome_is_the_step_s_answer(rt: HostRuntime) -> Result<(), Fail> {
    let alloc = rt.alloc();
    // It has paid, and its answer is changed.
    let mut image = stored(alloc, 2)?;
    change_step(&mut image, 17, 3, 4)?;
    let script = "{\"drain\":100}\n{\"status\":\"m1\"}\n";
    let replies =
        "{\"drain\":\"idle\",\"turns\":5}\n{\"args\":[\"a\",\"b\",3],\"attempts\":1,\"fn\":\"move\",\"id\":\"m1\",\"outcome\":{\"value\":4},\"parent\":null,\"queue\":null,\"started\":3,\"status\":\"SUCCESS\"}\n";
    answered(&rt, alloc, BANK, &image, script.as_bytes(), replies)?;
    Ok(())
}

#[test]
fn a_step_of_another_name_is_unexpected(rt: HostRuntime) -> Result<(), Fail> {
    let alloc = rt.alloc();
    let mut image = stored(alloc, 2)?;
    change_step(&mut image, 6, b'y', b'x')?;
    let script = "{\"turn\":\"m1\"}\n{\"drain\":100}\n";
    let unexpected = "{\"unexpected\":{\"asked\":\"pay\",\"n\":0,\"recorded\":\"pax\"}}\n";
    let replies = format!(in alloc; "{unexpected}{{\"drain\":\"idle\",\"turns\":2}}\n")?;
    answered(
        &rt,
        alloc,
        BANK,
        &image,
        script.as_bytes(),
        replies.as_str(),
    )?;
    Ok(())
}

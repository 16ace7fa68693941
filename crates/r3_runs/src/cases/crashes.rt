//! A transfer that is cut at each of its device calls, by a crash or by a call that fails.

use super::history::acts_of;
use super::{ACCOUNTS, Fails, Left, NONE, RUN, TRANSFER, answered, has_told, left_by};
use r3_desk::{MemDesk, Torn};
use std::alloc::Global;
use std::test::Fail;

// What the transfer needs of the functions of `gen`, and no more: each run reads them.
const PAYING: &str = "table acct;
queue mail 1;
outside notify(who, n);
txn pay(a, b, n) {
  let x = get acct[a];
  put acct[a] = x - n;
  let y = get acct[b];
  put acct[b] = y + n;
  return n;
}
flow move(a, b, n) {
  let r = call pay(a, b, n);
  do call notify(b, r);
  return r;
}
";

const TURN: &str = "{\"turn\":\"m1\"}\n";

// Each line, and the number of entries once it is answered.
const LINES: [(&str, usize); 7] = [
    (ACCOUNTS, 2),
    (TRANSFER, 3),
    (TURN, 3),
    (TURN, 4),
    (TURN, 5),
    (TURN, 6),
    (TURN, 6),
];

const OPEN: u8 = 0xa5;

const TORN: [Torn; 4] = [Torn::Old, Torn::New, Torn::Fill(0x37), Torn::Fill(OPEN)];

// The script of the first lines.
fn script_of(alloc: Global, lines: usize) -> Result<String, Fail> {
    let mut script = String::new(alloc);
    for (line, _) in LINES.iter().take(lines) {
        script.push_str(line)?;
    }
    Ok(script)
}

fn left_after(alloc: Global, lines: usize, fails: &Fails) -> Result<Left, Fail> {
    let script = script_of(alloc, lines)?;
    left_by(alloc, RUN, b"", PAYING.as_bytes(), script.as_bytes(), fails)
}

// The files of the histories of 0 to 6 entries, without the byte that commits the next one.
fn files(alloc: Global) -> Result<Vec<Vec<u8>>, Fail> {
    let mut files = Vec::new(alloc);
    files.push(Vec::new(alloc))?;
    for lines in [0, 1, 2, 4, 5, 6] {
        let mut file = left_after(alloc, lines, &NONE)?.desk.image().to_vec(alloc)?;
        file.pop();
        files.push(file)?;
    }
    Ok(files)
}

// The number of entries of an image, where these are the first of the transfer's.
fn entries_of(image: &[u8], files: &[Vec<u8>]) -> Option<usize> {
    if image.len() <= 9 {
        return Some(0);
    }
    files.iter().rposition(|file| image.starts_with(file) && image.get(file.len()) != Some(&OPEN))
}

// The number of entries once so many lines are answered.
fn entries_after(lines: usize) -> usize {
    match LINES.iter().take(lines).last() {
        Some((_, entries)) => *entries,
        None => 0,
    }
}

fn count_of(said: &[u8]) -> usize {
    said.iter().filter(|byte| **byte == b'\n').count()
}

// What a crash leaves after so many device calls.
fn crash(desk: &MemDesk, moment: u64, torn: Torn) -> Result<Vec<u8>, Fail> {
    if moment > desk.moment() {
        return Err(Fail::from("no such moment"));
    }
    let image = desk.crash(moment, torn)?;
    Ok(image)
}

// Whether the transfer, started once more, ends over this image as one that nothing has cut. What isn't loaded yet is
// loaded before.
fn ends_alike(alloc: Global, image: &[u8], entries: usize) -> Result<bool, Fail> {
    // the turns of the drain, and the recoveries
    let (turns, attempts) = match entries {
        0..=2 => (9_u32, 0_u32),
        3 => (9, 1),
        4 => (5, 1),
        5 => (3, 1),
        _ => (1, 0),
    };
    let (load, loaded) = if entries < 2 {
        (ACCOUNTS, "{\"entry\":2}\n")
    } else {
        ("", "")
    };
    let script = format!(in alloc;
        "{load}{TRANSFER}{{\"drain\":100}}\n{{\"status\":\"m1\"}}\n{{\"get\":\"acct\",\"key\":\"a\"}}\n{{\"get\":\"acct\",\"key\":\"b\"}}\n"
    )?;
    let replies = format!(in alloc;
        "{loaded}{{\"entry\":3,\"id\":\"m1\"}}\n{{\"drain\":\"idle\",\"turns\":{turns}}}\n{{\"args\":[\"a\",\"b\",3],\"attempts\":{attempts},\"fn\":\"move\",\"id\":\"m1\",\"outcome\":{{\"value\":3}},\"parent\":null,\"queue\":null,\"started\":3,\"status\":\"SUCCESS\"}}\n{{\"value\":7}}\n{{\"value\":8}}\n"
    )?;
    let left = left_by(
        alloc,
        RUN,
        image,
        PAYING.as_bytes(),
        script.as_bytes(),
        &NONE,
    )?;
    let has_asked = if entries < 5 {
        has_told(alloc, &left.desk, &["m1"])?
    } else {
        has_told(alloc, &left.desk, &[])?
    };
    Ok(has_asked && left.status == 0 && left.said.as_slice() == replies.as_bytes())
}

#[test]
fn a_crash_leaves_a_prefix_with_all_that_was_acknowledged(rt: HostRuntime) -> Result<(), Fail> {
    let alloc = rt.alloc();
    let files = files(alloc)?;
    let whole = left_after(alloc, LINES.len(), &NONE)?;
    let mut least = 0;
    let mut last = Vec::new(alloc);
    for before in 0..=whole.desk.moment() {
        let fails = Fails {
            desk: before.saturating_add(1),
            ..NONE
        };
        let cut = left_after(alloc, LINES.len(), &fails)?;
        // Where the outside fails, or nothing, the run goes on.
        if cut.status != 0 {
            least = entries_after(count_of(&cut.said));
        }
        for torn in TORN {
            let image = crash(&whole.desk, before, torn)?;
            let entries = entries_of(&image, &files);
            assert!(rt; entries >= Some(least), "{torn:?} after {before} calls");
            // Most calls leave what the last one left.
            if image != last {
                let is_alike = ends_alike(alloc, &image, entries.unwrap_or(0))?;
                assert!(rt; is_alike, "{torn:?} after {before} calls");
            }
            last = image;
        }
    }
    assert_eq!(rt; least, 6);
    Ok(())
}

// The replies where the outside fails once.
const AGAIN: &str = r#"{"entry":2}
{"entry":3,"id":"m1"}
{"began":3}
{"entry":4}
{"again":true}
{"entry":5}
{"entry":6}
"#;

// A failed call of the disk ends the run with status 4, one of the output with status 5; the outside is asked again.
#[test]
fn a_call_that_fails_ends_the_run_or_is_made_again(rt: HostRuntime) -> Result<(), Fail> {
    let alloc = rt.alloc();
    let files = files(alloc)?;
    let whole = left_after(alloc, LINES.len(), &NONE)?;
    let mut says = 0_usize;
    let mut asks = 0_usize;
    for call in 1..=whole.desk.moment() {
        let fails = Fails { desk: call, ..NONE };
        let left = left_after(alloc, LINES.len(), &fails)?;
        let replies = count_of(&left.said);
        let entries = entries_of(left.desk.image(), &files);
        match left.status {
            0 => {
                asks = asks.saturating_add(1);
                assert_eq!(rt; left.said.as_slice(), AGAIN.as_bytes());
                assert!(rt; has_told(alloc, &left.desk, &["m1", "m1"])?);
            }
            5 => {
                assert_eq!(rt; replies, says);
                says = says.saturating_add(1);
                assert_eq!(rt; entries, Some(entries_after(says)), "call {call}");
            }
            status => {
                assert_eq!(rt; status, 4, "call {call}");
                assert!(rt; entries >= Some(entries_after(replies)), "call {call}");
            }
        }
        assert!(rt;
            left.status == 0 || whole.said.starts_with(&left.said),
            "call {call}"
        );
        let is_alike = ends_alike(alloc, left.desk.image(), entries.unwrap_or(0))?;
        assert!(rt; is_alike, "call {call}");
    }
    assert_eq!(rt; says, LINES.len());
    assert_eq!(rt; asks, 1);
    Ok(())
}

// The number of the call outside: the first of the fifth line's.
fn number_of_ask(alloc: Global) -> Result<u64, Fail> {
    Ok(left_after(alloc, 4, &NONE)?.desk.moment().saturating_add(1))
}

#[test]
fn a_call_that_a_crash_cut_from_its_record_is_made_again(rt: HostRuntime) -> Result<(), Fail> {
    let alloc = rt.alloc();
    let ask = number_of_ask(alloc)?;
    let fails = Fails { desk: ask, ..NONE };
    let failed = left_after(alloc, 5, &fails)?;
    let again = b"{\"again\":true}\n".as_slice();
    assert!(rt; failed.said.ends_with(again));
    let whole = left_after(alloc, 5, &NONE)?;
    assert!(rt; has_told(alloc, &whole.desk, &["m1"])?);
    // Behind the call its record is written and synced; only then it is committed.
    for calls in 0..3_u64 {
        for torn in TORN {
            let image = crash(&whole.desk, ask.saturating_add(calls), torn)?;
            let acts = acts_of(alloc, &image)?;
            assert_eq!(rt; acts.as_str(), "program load start txn ");
            let script = b"{\"drain\":100}\n";
            let replies = "{\"drain\":\"idle\",\"turns\":5}\n";
            let again = answered(&rt, alloc, PAYING, &image, script, replies)?;
            assert!(rt; has_told(alloc, &again.desk, &["m1"])?);
            let acts = acts_of(alloc, again.desk.image())?;
            assert_eq!(rt;
                acts.as_str(),
                "program load start txn recover outside finish "
            );
        }
    }
    // With the commit nothing is left to ask.
    let image = crash(&whole.desk, ask.saturating_add(3), Torn::New)?;
    let acts = acts_of(alloc, &image)?;
    assert_eq!(rt; acts.as_str(), "program load start txn outside ");
    Ok(())
}

// The workflow `told` only asks.
const TOLD: &str = "queue one 1; outside tell(n); flow told(n) { let r = call tell(n); return r; }";

#[test]
fn a_drain_is_idle_where_the_outside_gives_no_answer(rt: HostRuntime) -> Result<(), Fail> {
    let alloc = rt.alloc();
    let start = "{\"start\":\"t\",\"fn\":\"told\",\"args\":[1]}\n";
    let replied = "{\"entry\":2,\"id\":\"t\"}\n";
    let started = answered(&rt, alloc, TOLD, b"", start.as_bytes(), replied)?;
    let fails = Fails {
        desk: started.desk.moment().saturating_add(1),
        ..NONE
    };
    let script = format!(in alloc; "{start}{{\"drain\":100}}\n{{\"drain\":100}}\n")?;
    let left = left_by(alloc, RUN, b"", TOLD.as_bytes(), script.as_bytes(), &fails)?;
    let drains = "{\"drain\":\"idle\",\"turns\":2}\n{\"drain\":\"idle\",\"turns\":5}\n";
    let replies = format!(in alloc; "{replied}{drains}")?;
    assert_eq!(rt; left.said.as_slice(), replies.as_bytes());
    assert_eq!(rt; left.status, 0);
    assert_eq!(rt; left.asked, 2);
    Ok(())
}

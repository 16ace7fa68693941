//! Whole runs over an environment in memory: bytes said, bytes stored and statuses worked out by hand.

ghost use Rattle.std.specs.Prelude.{IfOk};
ghost use Rattle.r3_desk.specs.Crash.{NothingPending};

mod crashes;
mod files;
mod forms;
mod generated;
mod history;
mod limits;
mod queues;
mod restarts;
mod stores;
mod workflows;

use r3_desk::{Desk, MemDesk, MemShelf, MemSource, Room};
use r3_top::top;
use r3_value::Val;
use std::alloc::Global;
use std::process::Abort;
use std::test::Fail;

const RUN: &[&str] = &["s", "run", "acct.fn"];

const RECOVER: &[&str] = &["s", "recover", "acct.fn", "100"];

const TINY: &str = "table acct;";

// The accounts a, b and c hold 10, 5 and 0. The transfer moves 3 from a to b, and tells b of it.
const ACCOUNTS: &str = "{\"load\":\"acct\",\"rows\":{\"a\":10,\"b\":5,\"c\":0}}\n";

const TRANSFER: &str = "{\"start\":\"m1\",\"fn\":\"move\",\"args\":[\"a\",\"b\",3]}\n";

// The number of the call that fails: of the desk, the script and the function files. Each is counted from 1.
#[derive(Drop)]
struct Fails {
    desk: u64,
    script: u64,
    files: u64,
}

const NONE: Fails = Fails {
    desk: 0,
    script: 0,
    files: 0,
};

// What a run leaves.
#[derive(Drop)]
struct Left {
    status: u8,
    said: Vec<u8>,
    asked: usize,
    desk: MemDesk,
}

fn list_of(alloc: Global, number: u64) -> Result<Vec<u64>, Fail> {
    let mut list = Vec::new(alloc);
    list.push(number)?;
    Ok(list)
}

fn words_of(alloc: Global, words: &[&str]) -> Result<Vec<String>, Fail> {
    let mut given = Vec::new(alloc);
    for word in words {
        given.push(String::from_str(alloc, word)?)?;
    }
    Ok(given)
}

fn desk_over(alloc: Global, image: &[u8], fails: u64) -> Result<MemDesk, Fail>
    ensures { IfOk result (λ desk.
        NothingPending (⟦<MemDesk as Desk>⟧.image desk) (⟦<MemDesk as Desk>⟧.may_leave desk)) }
{
    let room = Room {
        calls: 4_000,
        bytes: 400_000,
    };
    let image = image.to_vec(alloc)?;
    let fails = list_of(alloc, fails)?;
    let desk = MemDesk::new(alloc, image, Vec::new(alloc), fails, room)?;
    Ok(desk)
}

fn shelf_of(alloc: Global, text: &[u8], fails: u64) -> Result<MemShelf, Fail> {
    let mut texts = Vec::new(alloc);
    texts.push((String::from_str(alloc, "acct.fn")?, text.to_vec(alloc)?))?;
    Ok(MemShelf::new(texts, list_of(alloc, fails)?))
}

// A run over a store of this image, with a function file of this text.
fn left_by(
    alloc: Global,
    words: &[&str],
    image: &[u8],
    text: &[u8],
    script: &[u8],
    fails: &Fails,
) -> Result<Left, Fail> {
    let given = words_of(alloc, words)?;
    let mut desk = desk_over(alloc, image, fails.desk)?;
    let mut source = MemSource::new(script.to_vec(alloc)?, list_of(alloc, fails.script)?);
    let mut shelf = shelf_of(alloc, text, fails.files)?;
    let status = top(alloc, &given, &mut desk, &mut source, &mut shelf);
    let said = desk.said().to_vec(alloc)?;
    let asked = desk.asked().len();
    Ok(Left {
        status,
        said,
        asked,
        desk,
    })
}

// A run of this script over a store of this image. It says these replies, and ends with status 0.
fn answered(
    rt: &impl Abort,
    alloc: Global,
    text: &str,
    image: &[u8],
    script: &[u8],
    replies: &str,
) -> Result<Left, Fail> {
    let left = left_by(alloc, RUN, image, text.as_bytes(), script, &NONE)?;
    let said = str::from_utf8(&left.said).unwrap_or("no text");
    assert_eq!(rt; said, replies);
    assert_eq!(rt; left.status, 0, "{replies}");
    Ok(left)
}

// Whether the calls asked are the transfer's, one for each of these workflows.
fn has_told(alloc: Global, desk: &MemDesk, ids: &[&str]) -> Result<bool, Fail> {
    let mut args = Vec::new(alloc);
    args.push(Val::text(alloc, "b")?)?;
    args.push(Val::Int(3))?;
    let args = Val::list(args)?;
    for (call, id) in desk.asked().iter().zip(ids) {
        let is_same = call.id.as_str() == *id && call.n == 1 && call.name.as_str() == "notify";
        if !is_same || call.args != args {
            return Ok(false);
        }
    }
    Ok(desk.asked().len() == ids.len())
}

//! The outside party, behind two files: a line for each call, and a line for each answer.

ghost use Rattle.std.specs.Prelude.{◌<◌, ◌≤◌, length, IfSome};

use crate::source::read_some;
use r3_json::{from_json, read, to_json};
use r3_value::{Outcome, Txt, Val};
use serde_json::{Value, json};
use std::alloc::{AllocError, AllocFailed, Global};
use std::fs::{File, OpenOptions};
use std::io::Write;
use std::rt::Files;

/// Why a call has no answer.
#[derive(Clone, Copy, Debug, PartialEq, Eq)]
pub enum NoAnswer {
    /// The call can't be written, or there is no answer to it yet.
    Fault,
    /// There was no memory.
    Memory,
}

impl From<AllocError> for NoAnswer {
    fn from(_: AllocError) -> Self {
        NoAnswer::Memory
    }
}

impl<T: Drop> From<AllocFailed<T>> for NoAnswer {
    fn from(_: AllocFailed<T>) -> Self {
        NoAnswer::Memory
    }
}

/// Calls are appended to the file `PATH.out`, and their answers read from `PATH.in`, from its first line on. Neither
/// is opened before the first call.
#[derive(Drop)]
pub struct Outside {
    alloc: Global,
    out_path: String,
    in_path: String,
    calls: Option<File>,
    answers: Option<File>,
    // What was read of the answers, and isn't taken yet.
    unread: Vec<u8>,
}

impl Outside {
    pub fn at(alloc: Global, path: &str) -> Result<Outside, AllocError> {
        Ok(Outside {
            alloc,
            out_path: with_end(alloc, path, ".out")?,
            in_path: with_end(alloc, path, ".in")?,
            calls: None,
            answers: None,
            unread: Vec::new(alloc),
        })
    }

    /// Writes the call, and takes the next line of the answers. A line that is no answer is passed over, and its call
    /// has none.
    pub fn ask<R: Files<File = File>>(
        &mut self,
        rt: &R,
        id: &str,
        number: u32,
        name: &str,
        args: &Val,
    ) -> Result<Outcome, NoAnswer> {
        let line = call_line(self.alloc, id, number, name, args)?;
        self.write_call(rt, &line)?;
        self.open_answers(rt)?;
        self.fill_line()?;
        self.take_answer()
    }

    fn write_call<R: Files<File = File>>(&mut self, rt: &R, line: &[u8]) -> Result<(), NoAnswer> {
        if self.calls.is_none() {
            let opened = OpenOptions::new()
                .append(true)
                .create(true)
                .open(rt, self.out_path.as_str());
            match opened {
                Ok(file) => self.calls = Some(file),
                Err(_) => return Err(NoAnswer::Fault),
            }
        }
        match &mut self.calls {
            Some(file) => match file.write_all(line) {
                Ok(()) => Ok(()),
                Err(_) => Err(NoAnswer::Fault),
            },
            None => Err(NoAnswer::Fault),
        }
    }

    fn open_answers<R: Files<File = File>>(&mut self, rt: &R) -> Result<(), NoAnswer> {
        if self.answers.is_none() {
            match File::open(rt, self.in_path.as_str()) {
                Ok(file) => self.answers = Some(file),
                Err(_) => return Err(NoAnswer::Fault),
            }
        }
        Ok(())
    }

    // Reads on until a whole line is there, or the file's end.
    fn fill_line(&mut self) -> Result<(), NoAnswer> {
        let Some(file) = &mut self.answers else {
            return Err(NoAnswer::Fault);
        };
        let mut part = [0u8; 4096];
        'reads: for _ in 0..u64::MAX {
            if line_len(&self.unread).is_some() {
                return Ok(());
            }
            let Ok(count) = read_some(file, &mut part) else {
                return Err(NoAnswer::Fault);
            };
            if count == 0 {
                return Ok(());
            }
            self.unread.extend_from_slice(&part[..count])?;
        }
        Err(NoAnswer::Fault)
    }

    // The next line's answer. What stands behind the last newline is taken where it is an answer already.
    fn take_answer(&mut self) -> Result<Outcome, NoAnswer> {
        match line_len(&self.unread) {
            Some(len) => {
                let answer = answer_of(self.alloc, &self.unread[..len]);
                self.forget(len + 1);
                answer
            }
            None => {
                let answer = answer_of(self.alloc, &self.unread)?;
                self.unread.clear();
                Ok(answer)
            }
        }
    }

    // Drops the first bytes that were read.
    fn forget(&mut self, count: usize)
        requires { count ≤ length self.old.unread.items }
    {
        self.unread.drain(..count);
    }
}

fn with_end(alloc: Global, path: &str, end: &str) -> Result<String, AllocError> {
    let mut whole = String::from_str(alloc, path)?;
    whole.push_str(end)?;
    Ok(whole)
}

// How many bytes stand before the first newline.
fn line_len(bytes: &[u8]) -> Option<usize>
    ensures { IfSome result (λ n. n < length bytes.now) }
{
    bytes.iter().position(|byte| *byte == b'\n')
}

// The call as compact JSON and a newline.
fn call_line(
    alloc: Global,
    id: &str,
    number: u32,
    name: &str,
    args: &Val,
) -> Result<Vec<u8>, NoAnswer> {
    let args = match to_json(alloc, args) {
        Ok(args) => args,
        Err(_) => return Err(NoAnswer::Memory),
    };
    let call = json!(in alloc; {"args": args, "id": id, "n": number, "name": name})?;
    let mut line = call.to_vec(alloc)?;
    line.push(b'\n')?;
    Ok(line)
}

// The outcome that a line tells, as an object of the one member `value` or `failure`.
fn answer_of(alloc: Global, line: &[u8]) -> Result<Outcome, NoAnswer> {
    let json = match read(alloc, line) {
        Ok(json) => json,
        Err(r3_json::ReadFault::Syntax) => return Err(NoAnswer::Fault),
        Err(r3_json::ReadFault::Memory) => return Err(NoAnswer::Memory),
    };
    match json.as_object() {
        Some(members) if members.len() == 1 => outcome_of(alloc, &json),
        _ => Err(NoAnswer::Fault),
    }
}

fn outcome_of(alloc: Global, json: &Value) -> Result<Outcome, NoAnswer> {
    if let Some(value) = json.get("value") {
        return match from_json(alloc, value) {
            Ok(value) => Ok(Outcome::Value(value)),
            Err(r3_json::JsonFault::Memory) => Err(NoAnswer::Memory),
            Err(_) => Err(NoAnswer::Fault),
        };
    }
    match json.get("failure").and_then(Value::as_str) {
        None => Err(NoAnswer::Fault),
        Some(word) => match Txt::new(alloc, word) {
            Ok(word) => Ok(Outcome::Failure(word)),
            Err(r3_value::ValFault::Memory) => Err(NoAnswer::Memory),
            Err(_) => Err(NoAnswer::Fault),
        },
    }
}

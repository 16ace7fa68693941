//! Why a call of the program ends before all is done.

ghost use Rattle.std.specs.Prelude.{◌≡◌, IfOk, OnErr};
ghost use Rattle.serde_json.specs.View.{view};
ghost use Rattle.r3_json.specs.Lines.{line_of};
ghost use Rattle.r3_top.specs.Functions.{kind_word, place_data, item_data, functions_data};
ghost use Rattle.r3_top.specs.Statuses.{HasLine, entry_of, last_line, one, status_of, store_data};

use crate::functions::FunctionsFault;
use fn_check::CheckKind;
use r3_json::line;
use r3_store::OpenFault;
use r3_value::Memory;
use serde_json::{Value, json};
use std::alloc::{AllocError, Global};

/// Why a call ends early. Each has an exit status.
#[derive(Clone, Copy, Debug, PartialEq, Eq)]
pub enum Halt {
    /// The words are no command.
    Usage,
    /// There was no memory.
    Memory,
    /// The disk has failed.
    Disk,
    /// The output has failed.
    Say,
    /// The function file can't be read.
    Files,
    /// The script can't be read any further.
    Script,
    /// The function file is refused.
    Functions { fault: FunctionsFault },
    /// The file is no store, and this entry, counted from 1, is the first that is wrong; 0 where it isn't one at all.
    Store { entry: u32 },
    /// The store was begun with another program.
    Program,
    /// The function file has more than 2^20 bytes.
    LongFile,
    /// The script has more than 2^26 bytes.
    LongScript,
}

/// The exit status.
pub fn status_of(halt: Halt) -> u8
    ensures { result ≡ status_of halt }
{
    match halt {
        Halt::Usage => 2,
        Halt::Memory => 3,
        Halt::Disk => 4,
        Halt::Say => 5,
        Halt::Files | Halt::Script => 6,
        Halt::Functions { .. } => 7,
        Halt::Store { .. } => 8,
        Halt::Program => 9,
        Halt::LongFile | Halt::LongScript => 10,
    }
}

/// The entry that is told of a file that is no store.
pub fn entry_of(fault: OpenFault) -> u32
    ensures { result ≡ entry_of fault }
{
    match fault {
        OpenFault::Damaged { entry } | OpenFault::NotFormed { entry } => entry,
        _ => 0,
    }
}

fn kind_word(kind: CheckKind) -> &'static str
    ensures { result.now ≡ kind_word kind }
{
    match kind {
        CheckKind::DuplicateName => "duplicate_name",
        CheckKind::UnknownName => "unknown_name",
        CheckKind::Kind => "kind",
        CheckKind::CallOrder => "call_order",
        CheckKind::Arity => "arity",
        CheckKind::Unbound => "unbound",
    }
}

fn place_json(alloc: Global, at: u32, kind: &str) -> Result<Value, AllocError>
    ensures { IfOk result (λ json. view json ≡ place_data at kind.now) }
{
    json!(in alloc; {"at": at, "fault": "functions", "kind": kind})
}

fn item_json(alloc: Global, item: u32, kind: &str) -> Result<Value, AllocError>
    ensures { IfOk result (λ json. view json ≡ item_data item kind.now) }
{
    json!(in alloc; {"fault": "functions", "item": item, "kind": kind})
}

fn functions_json(alloc: Global, fault: FunctionsFault) -> Result<Value, AllocError>
    ensures { IfOk result (λ json. view json ≡ functions_data fault) }
{
    match fault {
        FunctionsFault::Lex { at } => place_json(alloc, at, "lex"),
        FunctionsFault::Syntax { at } => place_json(alloc, at, "syntax"),
        FunctionsFault::Check { item, kind } => item_json(alloc, item, kind_word(kind)),
    }
}

fn functions_line(alloc: Global, fault: FunctionsFault) -> Result<Vec<u8>, Memory>
    ensures { IfOk result (λ text. text.items ≡ last_line (Halt.Functions fault)) }
{
    let json = functions_json(alloc, fault)?;
    line(alloc, &json)
}

fn word_json(alloc: Global, word: &str) -> Result<Value, AllocError>
    ensures { IfOk result (λ json. view json ≡ one word.now) }
{
    json!(in alloc; {"fault": word})
}

fn word_line(alloc: Global, word: &str) -> Result<Vec<u8>, Memory>
    ensures { IfOk result (λ text. text.items ≡ line_of (one word.now)) }
{
    let json = word_json(alloc, word)?;
    line(alloc, &json)
}

fn store_json(alloc: Global, entry: u32) -> Result<Value, AllocError>
    ensures { IfOk result (λ json. view json ≡ store_data entry) }
{
    json!(in alloc; {"entry": entry, "fault": "store"})
}

fn store_line(alloc: Global, entry: u32) -> Result<Vec<u8>, Memory>
    ensures { IfOk result (λ text. text.items ≡ line_of (store_data entry)) }
{
    let json = store_json(alloc, entry)?;
    line(alloc, &json)
}

/// What is said last; nothing where something has failed, and this takes no memory.
pub fn last_line(alloc: Global, halt: Halt) -> Result<Vec<u8>, Memory>
    ensures line { IfOk result (λ text. text.items ≡ last_line halt) }
    ensures memory { OnErr result (HasLine halt) }
{
    match halt {
        Halt::Usage => word_line(alloc, "usage"),
        Halt::Functions { fault } => functions_line(alloc, fault),
        Halt::Store { entry } => store_line(alloc, entry),
        Halt::Program => word_line(alloc, "program"),
        Halt::LongFile | Halt::LongScript => word_line(alloc, "long"),
        _ => Ok(Vec::new(alloc)),
    }
}

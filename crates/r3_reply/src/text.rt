//! The bytes of a reply.

ghost use Rattle.std.specs.Prelude.{◌≡◌, IfOk};
ghost use Rattle.serde_json.specs.View.{view};
ghost use Rattle.r3_model.specs.Replies as model;
ghost use Rattle.r3_reply.specs.Replies.{as_reply};

use crate::objects::{
    count_json, drain_json, flag_json, started_json, status_json, text_json, unexpected_json,
    val_json,
};
use crate::reply::Reply;
use crate::row::row_json;
use crate::words::{limit_word, status_word};
use r3_json::line;
use r3_value::Memory;
use serde_json::Value;
use std::alloc::{AllocError, Global};
use sys_flow::Refusal;

fn refusal_json(alloc: Global, refusal: Refusal) -> Result<Value, AllocError>
    ensures { IfOk result (λ json. view json ≡ model.refusal_data refusal) }
{
    match refusal {
        Refusal::UnknownTable => text_json(alloc, "refused", "unknown_table"),
        Refusal::UnknownQueue => text_json(alloc, "refused", "unknown_queue"),
        Refusal::UnknownFunction => text_json(alloc, "refused", "unknown_function"),
        Refusal::Arity => text_json(alloc, "refused", "arity"),
        Refusal::Id => text_json(alloc, "refused", "id"),
        Refusal::UnknownId => text_json(alloc, "refused", "unknown_id"),
        Refusal::Conflict => text_json(alloc, "refused", "conflict"),
        Refusal::Step => text_json(alloc, "refused", "step"),
        Refusal::Status { status } => status_json(alloc, status_word(status)),
    }
}

fn reply_json(alloc: Global, reply: &Reply<'_>) -> Result<Value, Memory>
    ensures { IfOk result (λ json. view json ≡ model.reply_data (as_reply reply.now)) }
{
    match reply {
        Reply::Entry { number } => Ok(count_json(alloc, "entry", *number)?),
        Reply::EntryOf { number, id } => Ok(started_json(alloc, *number, *id)?),
        Reply::Full { limit } => Ok(text_json(alloc, "full", limit_word(*limit))?),
        Reply::Refused { refusal } => Ok(refusal_json(alloc, *refusal)?),
        Reply::Began { snap } => Ok(count_json(alloc, "began", *snap)?),
        Reply::Conflict { entry } => Ok(count_json(alloc, "conflict", *entry)?),
        Reply::Waiting { id } => Ok(text_json(alloc, "waiting", *id)?),
        Reply::Again => Ok(flag_json(alloc, "again")?),
        Reply::NotPending { status } => Ok(text_json(alloc, "none", status_word(*status))?),
        Reply::Unexpected { n, recorded, asked } => Ok(unexpected_json(
            alloc, *n, *recorded, *asked,
        )?),
        Reply::Empty => Ok(flag_json(alloc, "empty")?),
        Reply::Limit { running } => Ok(count_json(alloc, "limit", *running)?),
        Reply::Idle { turns } => Ok(drain_json(alloc, "idle", *turns)?),
        Reply::Spent { turns } => Ok(drain_json(alloc, "spent", *turns)?),
        Reply::Row { id, row } => row_json(alloc, *id, *row),
        Reply::Value(value) => val_json(alloc, "value", *value),
        Reply::Absent => Ok(flag_json(alloc, "absent")?),
        Reply::NotRead => Ok(text_json(alloc, "refused", "syntax")?),
        Reply::NotForm => Ok(text_json(alloc, "refused", "command")?),
    }
}

/// A reply as compact JSON, its keys in byte order, and a newline.
pub fn reply_text(alloc: Global, reply: &Reply<'_>) -> Result<Vec<u8>, Memory>
    ensures { IfOk result (λ text. text.items ≡ model.reply_text (as_reply reply.now)) }
{
    let json = reply_json(alloc, reply)?;
    line(alloc, &json)
}

//! What an event comes to is done.

ghost use Rattle.std.specs.Prelude.{◌≡◌, ◌≤◌, ◌<◌, ◌^◌, ◌++◌, ◌∷◌, [], None, length, IfOk, OnOk, OnErr};
ghost use Rattle.std.specs.Option.{option_map};
ghost use Rattle.r3_entry.specs.declared.entry.Entry.{Entry as E};
ghost use Rattle.r3_entry.specs.Bytes as spell;
ghost use Rattle.r3_entry.specs.Formed.{IsFormed};
ghost use Rattle.r3_entry.specs.Limits.{IsEntry};
ghost use Rattle.r3_model.specs.Event as machine_event;
ghost use Rattle.r3_model.specs.Given as machine_given;
ghost use Rattle.r3_model.specs.Machine as machine;
ghost use Rattle.r3_plain.specs.Comes.{closed_by, closing};
ghost use Rattle.r3_plain.specs.Words.{event_of, given_of, reply_of, state_of};

use crate::event::Event;
use crate::given::Given;
use crate::reply::Reply;
use crate::room::full_of;
use crate::snapshots::{close, open};
use crate::state::State;
use crate::txns::text_of;
use r3_entry::{Act, Entry};
use r3_value::{Memory, Txt};
use std::alloc::Global;
use std::collections::BTreeMap;

fn let_go(entry: Entry, reply: Reply) {
    let _entry = entry;
    let _reply = reply;
}

fn let_go_reply(reply: Reply) {
    let _reply = reply;
}

// The workflow whose snapshot an act closes.
fn closing(act: &Act) -> Result<Option<Txt>, Memory>
    ensures { IfOk result (λ id. id ≡ closing act.now) }
{
    match act {
        Act::Txn { id, .. } => Ok(Some(id.copy()?)),
        Act::Cancel { id } => Ok(Some(id.copy()?)),
        Act::Recover { id } => Ok(Some(id.copy()?)),
        _ => Ok(None),
    }
}

fn close_by(begun: &mut BTreeMap<Txt, u32>, id: &Option<Txt>)
    ensures { begun.new.entries ≡ closed_by id.now begun.old.entries }
{
    match id {
        None => {}
        Some(id) => close(begun, id),
    }
}

fn push(history: &mut Vec<Entry>, entry: Entry) -> Result<(), Memory>
    ensures ok { OnOk result (history.new.items ≡ history.old.items ++ entry ∷ []) }
    ensures err { OnErr result (history.new.items ≡ history.old.items) }
{
    history.push(entry)?;
    Ok(())
}

// The entry stands behind the others, and the snapshot of a workflow is closed.
fn stand(
    state: &mut State,
    entry: Entry,
    reply: Reply,
    closing: &Option<Txt>,
) -> Result<Reply, Memory>
    ensures reply { IfOk result (λ r. r ≡ reply) }
    ensures state { OnOk result (state_of state.new ≡ record { history = state.old.history.items ++ entry ∷ []; begun = closed_by closing.now state.old.begun.entries }) }
    ensures err { OnErr result (state_of state.new ≡ state_of state.old) }
{
    match push(&mut state.history, entry) {
        Ok(()) => {
            close_by(&mut state.begun, closing);
            Ok(reply)
        }
        Err(_) => {
            let_go_reply(reply);
            Err(Memory)
        }
    }
}

fn stand_closing(state: &mut State, entry: Entry, reply: Reply) -> Result<Reply, Memory>
    ensures entered { IfOk result (λ r. machine.entered (state_of state.old) entry (reply_of reply) None ≡ (state_of state.new, reply_of r)) }
    ensures err { OnErr result (state_of state.new ≡ state_of state.old) }
{
    match closing(&entry.act) {
        Ok(id) => stand(state, entry, reply, &id),
        Err(_) => {
            let_go(entry, reply);
            Err(Memory)
        }
    }
}

// The entry is appended, where there is room.
fn entered(alloc: Global, state: &mut State, entry: Entry, reply: Reply) -> Result<Reply, Memory>
    requires formed { IsFormed (state_of state.old).history }
    requires limits { length (state_of state.old).history < 1000000 → IsEntry entry × (length (spell.entry entry) ≤ 2 ^ 23) }
    ensures entered { IfOk result (λ r. machine.entered (state_of state.old) entry (reply_of reply) (machine.full_of (state_of state.old).history entry)
        ≡ (state_of state.new, reply_of r)) }
    ensures err { OnErr result (state_of state.new ≡ state_of state.old) }
{
    match full_of(alloc, state.history.as_slice(), &entry) {
        Ok(None) => stand_closing(state, entry, reply),
        Ok(Some(limit)) => {
            let_go(entry, reply);
            Ok(Reply::Full(limit))
        }
        Err(_) => {
            let_go(entry, reply);
            Err(Memory)
        }
    }
}

// The snapshot that a turn opens or closes.
fn noted(
    alloc: Global,
    begun: &mut BTreeMap<Txt, u32>,
    id: &str,
    reply: &Reply,
) -> Result<(), Memory>
    ensures ok { OnOk result (begun.new.entries ≡ machine.after_reply (machine_event.Turn id.now) (reply_of reply.now) begun.old.entries) }
    ensures err { OnErr result (begun.new.entries ≡ begun.old.entries) }
{
    match reply {
        Reply::Began { snap } => {
            let id = text_of(alloc, id)?;
            open(begun, id, *snap)
        }
        Reply::Conflicts { .. } => {
            let id = text_of(alloc, id)?;
            close(begun, &id);
            Ok(())
        }
        _ => Ok(()),
    }
}

fn noted_by(
    alloc: Global,
    begun: &mut BTreeMap<Txt, u32>,
    event: &Event,
    reply: &Reply,
) -> Result<(), Memory>
    ensures ok { OnOk result (begun.new.entries ≡ machine.after_reply (event_of event.now) (reply_of reply.now) begun.old.entries) }
    ensures err { OnErr result (begun.new.entries ≡ begun.old.entries) }
{
    match event {
        Event::Turn { id } => noted(alloc, begun, id.as_str(), reply),
        _ => Ok(()),
    }
}

// Nothing is appended.
fn answered(alloc: Global, state: &mut State, event: &Event, reply: Reply) -> Result<Reply, Memory>
    ensures answered { IfOk result (λ r. machine.came (state_of state.old) (event_of event.now) (machine_given.Answers (reply_of reply)) ≡ (state_of state.new, reply_of r)) }
    ensures err { OnErr result (state_of state.new ≡ state_of state.old) }
{
    match noted_by(alloc, &mut state.begun, event, &reply) {
        Ok(()) => Ok(reply),
        Err(_) => {
            let_go_reply(reply);
            Err(Memory)
        }
    }
}

/// What an event comes to is done, where there is room for its entry.
pub fn came(alloc: Global, state: &mut State, event: &Event, given: Given) -> Result<Reply, Memory>
    requires formed { IsFormed (state_of state.old).history }
    requires limits { (e : E) (r : machine_event.Reply) → given_of given ≡ machine_given.Enters e r → length (state_of state.old).history < 1000000 →
        IsEntry e × (length (spell.entry e) ≤ 2 ^ 23) }
    ensures came { IfOk result (λ r. machine.came (state_of state.old) (event_of event.now) (given_of given) ≡ (state_of state.new, reply_of r)) }
    ensures err { OnErr result (state_of state.new ≡ state_of state.old) }
{
    match given {
        Given::Enters { entry, reply } => entered(alloc, state, entry, reply),
        Given::Answers(reply) => answered(alloc, state, event, reply),
    }
}

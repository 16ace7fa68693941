//! A workflow awaits another.

ghost use Rattle.std.specs.Prelude.{◌≡◌, List, length, IfOk};
ghost use Rattle.r3_entry.specs.declared.entry.Entry.{Entry as E};
ghost use Rattle.sys_flow.specs.Awaits.{awaited_of};
ghost use Rattle.r3_model.specs.Language.{Language};
ghost use Rattle.r3_model.specs.Turns.{await_turn, text_of, now};
ghost use Rattle.r3_turns.specs.Drafts.{given_by};

use fn_tree::flow::Request;
use r3_acts::await_entry;
use r3_entry::Entry;
use r3_past::{Past, flow_row};
use r3_value::{Memory, Txt, Val};
use std::alloc::Global;
use sys_flow::{Awaited, awaited_of};

/// What a turn that awaits a workflow comes to.
#[derive(Drop)]
pub enum AwaitDraft {
    /// The workflow of this ID hasn't ended: nothing is recorded.
    Waiting { id: Txt },
    /// The step with what was found.
    Enters(Entry),
}

// The ID that is awaited. Arguments that are no text have none.
fn text_of(alloc: Global, args: &Val) -> Result<Txt, Memory>
    ensures { IfOk result (λ text. text ≡ text_of args.now) }
{
    match args {
        Val::Text(text) => Ok(text.copy()?),
        _ => match Txt::new(alloc, "") {
            Err(_) => Err(Memory),
            Ok(text) => Ok(text),
        },
    }
}

// By what was found.
fn await_by(
    alloc: Global,
    count: u32,
    id: &Txt,
    request: &Request,
    on: Txt,
    found: Awaited,
) -> Result<AwaitDraft, Memory>
    ensures { IfOk result (λ draft. (language : Language) (h : List E) → length h ≡ count →
        await_turn language h id.now request.now on found ≡ given_by h draft) }
{
    match found {
        Awaited::Waiting => Ok(AwaitDraft::Waiting { id: on }),
        Awaited::Answer(outcome) => {
            let entry = await_entry(alloc, count, id, request, &on, outcome)?;
            Ok(AwaitDraft::Enters(entry))
        }
    }
}

/// What an await of a workflow comes to: it waits, or its step records the outcome of the other.
pub fn await_draft<P: Past>(
    alloc: Global,
    past: &P,
    id: &Txt,
    request: &Request,
) -> Result<AwaitDraft, Memory>
    requires stands { (h : List E) × P.stands past.now h }
    ensures { IfOk result (λ draft. (language : Language) (h : List E) → P.stands past.now h →
        await_turn language h id.now request.now (text_of request.now.args)
        (awaited_of (now language h id.now (text_of request.now.args))) ≡ given_by h draft) }
{
    let on = text_of(alloc, &request.args)?;
    let row = flow_row(alloc, past, on.as_str())?;
    let found = awaited_of(alloc, row)?;
    let draft = await_by(alloc, past.count(), id, request, on, found)?;
    Ok(draft)
}

//! Acts, read field by field.

ghost use Rattle.std.specs.Prelude.{◌≡◌, ◌≤◌, ◌∷◌};
ghost use Rattle.r3_bytes.specs.Spelling.{string};
ghost use Rattle.r3_entry.specs.Bytes as spell;
ghost use Rattle.r3_entry.specs.Limits.{IsAct, IsSized};
ghost use Rattle.r3_entry.specs.Parse.{Parses, Both};
ghost use Rattle.r3_entry.specs.Parts as part;

use crate::entry::Act;
use crate::fields::{Miss, args_of, between_of, byte_of, sized_of, step_of};
use crate::program_text::ProgramText;
use r3_bytes::Reader;
use r3_value::{Txt, Val};
use std::alloc::Global;

const MAX_PROGRAM: usize = 1_048_576;

fn program_text_of(alloc: Global, r: &mut Reader<'_>) -> Result<ProgramText, Miss>
    ensures { Parses string (IsSized 0 1048576) r.old.rest r.new.rest result }
{
    let text = r.text(alloc)?;
    if text.len() > MAX_PROGRAM {
        return Err(Miss::Absent);
    }
    Ok(ProgramText::from_string(text))
}

fn step_args_of(alloc: Global, r: &mut Reader<'_>) -> Result<((Txt, u32), Val), Miss>
    ensures { Parses part.step_args part.AreStepArgs r.old.rest r.new.rest result }
{
    let step = step_of(alloc, r)?;
    let args = args_of(alloc, r)?;
    Ok((step, args))
}

fn step_text_of(
    alloc: Global,
    r: &mut Reader<'_>,
    least: usize,
    most: usize,
) -> Result<((Txt, u32), Txt), Miss>
    requires { most ≤ 4091 }
    ensures { Parses part.step_text (Both part.IsStepOf (IsSized least most)) r.old.rest r.new.rest result }
{
    let step = step_of(alloc, r)?;
    let text = sized_of(alloc, r, least, most)?;
    Ok((step, text))
}

fn fork_ids_of(alloc: Global, r: &mut Reader<'_>) -> Result<(Txt, Txt), Miss>
    ensures { Parses part.place part.IsForkOf r.old.rest r.new.rest result }
{
    let id = sized_of(alloc, r, 1, 200)?;
    let from = sized_of(alloc, r, 1, 200)?;
    Ok((id, from))
}

fn forked_of(alloc: Global, r: &mut Reader<'_>) -> Result<((Txt, Txt), u32), Miss>
    ensures { Parses part.forked part.IsForked r.old.rest r.new.rest result }
{
    let ids = fork_ids_of(alloc, r)?;
    let below = between_of(r, 0, 1000)?;
    Ok((ids, below))
}

// The clauses of the functions for one act speak of the bytes with its first byte before them.
fn program_of(alloc: Global, r: &mut Reader<'_>) -> Result<Act, Miss>
    ensures { Parses spell.act IsAct (1 ∷ r.old.rest) r.new.rest result }
{
    match program_text_of(alloc, r) {
        Ok(text) => Ok(Act::Program { text }),
        Err(miss) => Err(miss),
    }
}

fn txn_of(alloc: Global, r: &mut Reader<'_>) -> Result<Act, Miss>
    ensures { Parses spell.act IsAct (6 ∷ r.old.rest) r.new.rest result }
{
    match step_args_of(alloc, r) {
        Ok(((id, n), args)) => Ok(Act::Txn { id, n, args }),
        Err(miss) => Err(miss),
    }
}

fn outside_of(alloc: Global, r: &mut Reader<'_>) -> Result<Act, Miss>
    ensures { Parses spell.act IsAct (7 ∷ r.old.rest) r.new.rest result }
{
    match step_args_of(alloc, r) {
        Ok(((id, n), args)) => Ok(Act::Outside { id, n, args }),
        Err(miss) => Err(miss),
    }
}

fn child_of(alloc: Global, r: &mut Reader<'_>) -> Result<Act, Miss>
    ensures { Parses spell.act IsAct (8 ∷ r.old.rest) r.new.rest result }
{
    match step_text_of(alloc, r, 1, 200) {
        Ok(((id, n), child)) => Ok(Act::Child { id, n, child }),
        Err(miss) => Err(miss),
    }
}

fn await_of(alloc: Global, r: &mut Reader<'_>) -> Result<Act, Miss>
    ensures { Parses spell.act IsAct (9 ∷ r.old.rest) r.new.rest result }
{
    match step_text_of(alloc, r, 0, 4091) {
        Ok(((id, n), on)) => Ok(Act::Await { id, n, on }),
        Err(miss) => Err(miss),
    }
}

fn fork_of(alloc: Global, r: &mut Reader<'_>) -> Result<Act, Miss>
    ensures { Parses spell.act IsAct (13 ∷ r.old.rest) r.new.rest result }
{
    match forked_of(alloc, r) {
        Ok(((id, from), below)) => Ok(Act::Fork { id, from, below }),
        Err(miss) => Err(miss),
    }
}

// An act with an ID and nothing else.
fn id_act_of(alloc: Global, r: &mut Reader<'_>, tag: u8) -> Result<Act, Miss>
    ensures { Parses spell.act part.IsOfId (tag ∷ r.old.rest) r.new.rest result }
{
    match sized_of(alloc, r, 1, 200) {
        Ok(id) => match tag {
            3 => Ok(Act::Start { id }),
            4 => Ok(Act::Enqueue { id }),
            5 => Ok(Act::Dequeue { id }),
            10 => Ok(Act::Finish { id }),
            11 => Ok(Act::Cancel { id }),
            12 => Ok(Act::Resume { id }),
            14 => Ok(Act::Recover { id }),
            _ => Err(Miss::Absent),
        },
        Err(miss) => Err(miss),
    }
}

pub fn act_of(alloc: Global, r: &mut Reader<'_>) -> Result<Act, Miss>
    ensures { Parses spell.act IsAct r.old.rest r.new.rest result }
{
    match byte_of(r)? {
        1 => program_of(alloc, r),
        2 => Ok(Act::Load),
        6 => txn_of(alloc, r),
        7 => outside_of(alloc, r),
        8 => child_of(alloc, r),
        9 => await_of(alloc, r),
        13 => fork_of(alloc, r),
        tag => id_act_of(alloc, r, tag),
    }
}

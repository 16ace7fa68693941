//! The lines of the script.

ghost use Rattle.std.specs.Prelude.{◌≡◌, ◌≤◌, ◌++◌, IfOk, IsTrue, codes, decimal, string_bytes, map, length, pos};
ghost use Rattle.std.specs.Str.{is_utf8};
ghost use Rattle.r3_value.specs.Value.{item, no_items};
ghost use Rattle.r3_value.specs.Value as value;
ghost use Rattle.r3_value.specs.declared.value.Val.TheVariants as vals;
ghost use Rattle.r3_entry.specs.Limits.{IsRowKey};
ghost use Rattle.r3_model.specs.Fits.{IsListed};
ghost use Rattle.r3_model.specs.Generator.{account, accounts, flow_id, drawn, draw_of, numbers, transfer};
ghost use Rattle.r3_lines.specs.Lines.{as_line, AreRows, IsKept};

use crate::draws::Draws;
use r3_lines::Line;
use r3_value::{Memory, Txt, Val};
use sqlite_items::Items;
use std::alloc::Global;
use sys_flow::{Command, Text};

/// The number of accounts.
pub const ACCOUNTS: u32 = 64;

const FIRST_AMOUNT: i64 = 1000;

const MOST_AMOUNT: u64 = 100;

/// The key of an account.
pub fn account(alloc: Global, i: u32) -> Result<Txt, Memory>
    ensures key { IfOk result (λ t. t ≡ account i) }
    ensures kept { IfOk result (λ t. IsRowKey t) }
{
    let text = format!(in alloc; "a{i}")?;
    match Txt::new(alloc, text.as_str()) {
        Ok(text) => Ok(text),
        Err(_) => Err(Memory),
    }
}

/// The ID of a transfer.
pub fn flow_id(alloc: Global, i: u32) -> Result<Text, Memory>
    ensures { IfOk result (λ t. t ≡ flow_id i) }
{
    let text = format!(in alloc; "g{i}")?;
    Ok(Text::from_string(text))
}

// The rows of the accounts.
fn rows(alloc: Global) -> Result<Vec<(Txt, Val)>, Memory>
    ensures rows { IfOk result (λ rs. rs.items ≡ map (λ i. (account i, vals.Int (pos 1000))) (numbers 0 64)) }
    ensures kept { IfOk result (λ rs. AreRows rs.items) }
{
    let mut rows = Vec::with_capacity(alloc, ACCOUNTS as usize)?;
    'accounts: for i in 0..ACCOUNTS {
        rows.push((account(alloc, i)?, Val::Int(FIRST_AMOUNT)))?;
    }
    Ok(rows)
}

/// The load of the accounts.
pub fn accounts(alloc: Global) -> Result<Line, Memory>
    ensures line { IfOk result (λ line. as_line line ≡ accounts) }
    ensures kept { IfOk result (λ line. IsKept line) }
{
    let rows = rows(alloc)?;
    let table = Text::from_string(String::from_str(alloc, "acct")?);
    Ok(Line::Command(Command::Load {
        table,
        rows: Items::from_vec(rows),
    }))
}

// The arguments of a transfer.
fn args(alloc: Global, from: u32, to: u32, amount: i64) -> Result<Val, Memory>
    ensures args { IfOk result (λ v. v ≡ vals.List (item (value.text (account from))
        (item (value.text (account to)) (item (value.integer amount) no_items)))) }
    ensures kept { IfOk result (λ v. IsListed v) }
{
    let from = Val::Text(account(alloc, from)?);
    let to = Val::Text(account(alloc, to)?);
    let items = vec![in alloc; from, to, Val::Int(amount)]?;
    match Val::list(items) {
        Ok(list) => {
            // It tells that the value keeps its limits.
            let _weight = list.weight();
            Ok(list)
        }
        Err(_) => Err(Memory),
    }
}

/// The start of the transfer of this number, by three draws.
pub fn transfer(alloc: Global, i: u32, draws: &mut Draws) -> Result<Line, Memory>
    ensures line { IfOk result (λ line. as_line line ≡ transfer i (drawn draws.old.kept)
        (drawn (drawn draws.old.kept)) (drawn (drawn (drawn draws.old.kept)))) }
    ensures kept { IfOk result (λ line. IsKept line) }
    ensures draws { draws.new.kept ≡ drawn (drawn (drawn draws.old.kept)) }
{
    let from = (draws.draw() % u64::from(ACCOUNTS)) as u32;
    let to = (draws.draw() % u64::from(ACCOUNTS)) as u32;
    let amount = (1 + draws.draw() % MOST_AMOUNT) as i64;
    let args = args(alloc, from, to, amount)?;
    let id = flow_id(alloc, i)?;
    // It tells that the ID is UTF-8.
    let _id = id.as_str();
    let function = Text::from_string(String::from_str(alloc, "send")?);
    Ok(Line::Command(Command::Start {
        id: Some(id),
        function,
        args,
    }))
}

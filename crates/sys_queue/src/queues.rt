//! All queues of a program.

ghost use Rattle.std.specs.Prelude.{◌≡◌, ◌≤◌, [], ◌++◌, ◌↔◌, length, IsTrue, IsSome, IfOk, OnOk, OnErr, MatchOption};
ghost use Rattle.std.specs.Option.{option_copied};
ghost use Rattle.sys_queue.specs.Lines as model;
ghost use Rattle.sys_queue.specs.Lines.{line_of, declared_of, new_lines, queue_lines};
ghost use Rattle.sys_queue.specs.Rows.{Rows, Tells};
ghost use Rattle.sys_queue.specs.Index.{IsIndexOf, Follows};
ghost use Rattle.sys_queue.specs.Moves.{Enters, Leaves, Changes};
ghost use Rattle.sys_queue.specs.Found.{StandsAt};
ghost use Rattle.sys_queue.specs.Kept.{KeepsPlace};

use crate::line::Line;
use crate::next::Next;
use fn_tree::checked::Checked;
use fn_tree::program::Item;
use r3_rows::FlowRow;
use r3_value::{Memory, Txt};
use std::alloc::Global;
use std::marker::Model;

/// The queues of a program, each with who waits in it and how many run.
#[derive(Drop)]
pub struct Queues {
    lines: Vec<Line>,
}

impl Model for Queues {
    ghost use Rattle.std.specs.Prelude.{List};
    ghost use Rattle.sys_queue.specs.Lines as model;

    ghost Value = { List model.Line };

    ghost view = { λ q. q.lines.items };
}

impl Queues {
    /// The queues that a program declares. Nobody waits or runs in them yet.
    pub fn of(alloc: Global, program: &Checked) -> Result<Queues, Memory>
        ensures lines { IfOk result (λ q. q ≡ new_lines program.now) }
        ensures empty { IfOk result (λ q. IsIndexOf q []) }
    {
        let mut lines = Vec::new(alloc);
        for item in &program.program().items {
            add_queue(alloc, &mut lines, item)?;
        }
        Ok(Queues { lines })
    }

    /// Notes a workflow's new row. `old` is the row last noted for the ID, None where none was.
    pub fn note(
        &mut self,
        alloc: Global,
        id: &str,
        old: Option<&FlowRow>,
        new: &FlowRow,
    ) -> Result<(), Memory>
        requires { length id.now ≤ 200 }
        ensures declared { declared_of self.new ≡ declared_of self.old }
        ensures ok { OnOk result (Follows self.old self.new id.now (option_copied old.entry) new.now) }
        ensures err { OnErr result (self.new ≡ self.old) }
    {
        match old {
            None => start(&mut self.lines, alloc, id, new),
            Some(row) => go_on(&mut self.lines, alloc, id, row, new),
        }
    }

    /// The workflow that the queue starts next, or why it starts none. It takes no memory.
    pub fn next(&self, queue: &str) -> Next<'_>
        requires { IsSome (line_of queue.now self.now) }
        ensures { (rows : Rows) (l : model.Line) → IsIndexOf self.now rows → line_of queue.now self.now ≡ Some l → Tells rows queue.now l.bound result }
    {
        match line_at(&self.lines, queue) {
            None => Next::Empty,
            Some(i) => self.lines[i].next(),
        }
    }
}

fn add_queue(alloc: Global, lines: &mut Vec<Line>, item: &Item) -> Result<(), Memory>
    ensures { OnOk result (lines.new.items ≡ lines.old.items ++ queue_lines item.now) }
{
    match item {
        Item::Queue { name, bound } => {
            let name = name.copy()?;
            lines.push(Line::new(alloc, name, *bound))?;
            Ok(())
        }
        _ => Ok(()),
    }
}

// The first queue of the name.
fn line_at(lines: &[Line], name: &str) -> Option<usize>
    ensures { MatchOption result (line_of name.now lines.now ≡ None) (StandsAt name.now lines.now) }
{
    for (i, line) in lines.iter().enumerate() {
        if line.name().as_str() == name {
            return Some(i);
        }
    }
    None
}

fn place_of(alloc: Global, id: &str, row: &FlowRow) -> Result<(u32, Txt), Memory>
    requires { length id.now ≤ 200 }
    ensures { IfOk result (λ p. p ≡ (row.now.started, id.now)) }
{
    match Txt::new(alloc, id) {
        Ok(id) => Ok((row.started, id)),
        Err(_) => Err(Memory),
    }
}

fn enter(lines: &mut Vec<Line>, row: &FlowRow, place: (u32, Txt)) -> Result<(), Memory>
    ensures ok { OnOk result (Changes row.now.queue (Enters row.now.status place) lines.old.items lines.new.items) }
    ensures err { OnErr result (lines.new.items ≡ lines.old.items) }
{
    match &row.queue {
        None => Ok(()),
        Some(name) => match line_at(lines, name.as_str()) {
            None => Ok(()),
            Some(i) => lines[i].enter(row.status, place),
        },
    }
}

fn leave(lines: &mut Vec<Line>, row: &FlowRow, place: &(u32, Txt))
    ensures { Changes row.now.queue (Leaves row.now.status place.now) lines.old.items lines.new.items }
{
    match &row.queue {
        None => {}
        Some(name) => match line_at(lines, name.as_str()) {
            None => {}
            Some(i) => lines[i].leave(row.status, place),
        },
    }
}

// A workflow that stands nowhere yet.
fn start(lines: &mut Vec<Line>, alloc: Global, id: &str, new: &FlowRow) -> Result<(), Memory>
    requires { length id.now ≤ 200 }
    ensures declared { declared_of lines.new.items ≡ declared_of lines.old.items }
    ensures ok { OnOk result (Follows lines.old.items lines.new.items id.now None new.now) }
    ensures err { OnErr result (lines.new.items ≡ lines.old.items) }
{
    let place = place_of(alloc, id, new)?;
    enter(lines, new, place)
}

fn keeps_place(old: &FlowRow, new: &FlowRow) -> bool
    ensures { IsTrue result ↔ KeepsPlace old.now new.now }
{
    old.status == new.status && old.started == new.started && same_queue(&old.queue, &new.queue)
}

fn same_queue(a: &Option<Txt>, b: &Option<Txt>) -> bool
    ensures { IsTrue result ↔ (a.now ≡ b.now) }
{
    match a {
        None => matches!(b, None),
        Some(a) => match b {
            None => false,
            Some(b) => a.as_str() == b.as_str(),
        },
    }
}

// One that stands somewhere enters its new place before it leaves the old one, which can't fail.
fn go_on(
    lines: &mut Vec<Line>,
    alloc: Global,
    id: &str,
    old: &FlowRow,
    new: &FlowRow,
) -> Result<(), Memory>
    requires { length id.now ≤ 200 }
    ensures declared { declared_of lines.new.items ≡ declared_of lines.old.items }
    ensures ok { OnOk result (Follows lines.old.items lines.new.items id.now (Some old.now) new.now) }
    ensures err { OnErr result (lines.new.items ≡ lines.old.items) }
{
    if keeps_place(old, new) {
        return Ok(());
    }
    let gone = place_of(alloc, id, old)?;
    let came = place_of(alloc, id, new)?;
    enter(lines, new, came)?;
    leave(lines, old, &gone);
    Ok(())
}

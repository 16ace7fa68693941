use crate::{Next, Queues};
use fn_tree::checked::Checked;
use fn_tree::program::{Item, Program};
use r3_rows::{FlowRow, Status};
use r3_value::{Txt, Val};
use std::alloc::Global;
use std::marker::Model;
use std::test::Fail;

const STATUSES: [Status; 6] = [
    Status::Enqueued,
    Status::Pending,
    Status::Success,
    Status::Error,
    Status::Cancelled,
    Status::MaxRecoveryAttemptsExceeded,
];

// A queue of which two workflows run at a time, and one of which one does.
#[derive(Drop)]
struct Board {
    queues: Queues,
}

impl Model for Board {
    ghost use Rattle.std.specs.Prelude.{◌≡◌, List, [], ◌∷◌, codes};
    ghost use Rattle.sys_queue.specs.Lines.{Line, declared_of};

    ghost Value = { List Line };

    ghost view = { λ b. b.queues };

    ghost invariant = { λ b. declared_of b.queues ≡ (codes "mail", 2) ∷ (codes "print", 1) ∷ [] };
}

impl Board {
    fn new(alloc: Global) -> Result<Board, Fail> {
        let mail = Txt::new(alloc, "mail")?;
        let print = Txt::new(alloc, "print")?;
        let mut items = Vec::new(alloc);
        items.push(Item::Queue {
            name: mail,
            bound: 2,
        })?;
        items.push(Item::Queue {
            name: print,
            bound: 1,
        })?;
        let program = Checked::new(Program { items });
        let queues = Queues::of(alloc, &program)?;
        Ok(Board { queues })
    }

    fn note(
        &mut self,
        alloc: Global,
        id: &str,
        old: Option<&FlowRow>,
        new: &FlowRow,
    ) -> Result<(), Fail> {
        if id.len() <= 200 {
            self.queues.note(alloc, id, old, new)?;
        }
        Ok(())
    }

    fn mail(&self) -> Next<'_> {
        self.queues.next("mail")
    }

    fn print(&self) -> Next<'_> {
        self.queues.next("print")
    }
}

// A workflow that began with that entry, in the queue of that name, or in none.
fn row(alloc: Global, status: Status, queue: &str, started: u32) -> Result<FlowRow, Fail> {
    let function = Txt::new(alloc, "send")?;
    let queue = match queue {
        "" => None,
        name => Some(Txt::new(alloc, name)?),
    };
    Ok(FlowRow {
        status,
        function,
        args: Val::Null,
        outcome: None,
        queue,
        started,
        attempts: 0,
        parent: None,
    })
}

// The ID of the next workflow, `empty`, or `full` with how many run.
fn is(next: &Next<'_>, word: &str, running: u32) -> bool {
    match next {
        Next::Ready { id } => id.as_str() == word,
        Next::Empty => word == "empty",
        Next::Limit { running: told } => word == "full" && *told == running,
    }
}

#[test]
fn a_queue_has_those_that_wait_and_those_that_run(rt: HostRuntime) -> Result<(), Fail> {
    let alloc = rt.alloc();
    let wants = ["w", "full", "empty", "empty", "empty", "empty"];
    for i in 0..6 {
        for j in 0..6 {
            let mut board = Board::new(alloc)?;
            let old = row(alloc, STATUSES[i], "print", 3)?;
            let new = row(alloc, STATUSES[j], "print", 3)?;
            board.note(alloc, "w", None, &old)?;
            assert!(rt; is(&board.print(), wants[i], 1), "{i} noted");
            board.note(alloc, "w", Some(&old), &new)?;
            assert!(rt; is(&board.print(), wants[j], 1), "{i} to {j}");
            assert!(rt; is(&board.mail(), "empty", 0), "the other queue");
        }
    }
    Ok(())
}

#[test]
fn the_first_started_is_next(rt: HostRuntime) -> Result<(), Fail> {
    let alloc = rt.alloc();
    let mut board = Board::new(alloc)?;
    // ID, the entry that started it, and who is next then
    let cases = [
        ("m", 7, "m"),
        ("b", 9, "m"),
        ("d", 5, "d"),
        ("c", 5, "c"),
        ("a", 300, "c"),
    ];
    for (id, started, want) in cases {
        let waits = row(alloc, Status::Enqueued, "mail", started)?;
        board.note(alloc, id, None, &waits)?;
        assert!(rt; is(&board.mail(), want, 0), "{id} waits");
    }
    Ok(())
}

// Notes that a workflow of the first queue went from a status to another.
fn goes(
    board: &mut Board,
    alloc: Global,
    id: &str,
    started: u32,
    from: Status,
    to: Status,
) -> Result<(), Fail> {
    let old = row(alloc, from, "mail", started)?;
    let new = row(alloc, to, "mail", started)?;
    board.note(alloc, id, Some(&old), &new)
}

#[test]
fn as_many_run_as_the_bound_says(rt: HostRuntime) -> Result<(), Fail> {
    let alloc = rt.alloc();
    let mut board = Board::new(alloc)?;
    for (id, started) in [("a", 1), ("b", 2), ("c", 3)] {
        let waits = row(alloc, Status::Enqueued, "mail", started)?;
        board.note(alloc, id, None, &waits)?;
    }
    // who goes where, and what the queue answers then
    let cases = [
        ("a", 1, Status::Enqueued, Status::Pending, "b", 0),
        ("b", 2, Status::Enqueued, Status::Pending, "full", 2),
        ("c", 3, Status::Enqueued, Status::Pending, "full", 3),
        ("b", 2, Status::Pending, Status::Success, "full", 2),
        ("a", 1, Status::Pending, Status::Cancelled, "empty", 0),
        ("a", 1, Status::Cancelled, Status::Enqueued, "a", 0),
    ];
    for (id, started, from, to, word, running) in cases {
        goes(&mut board, alloc, id, started, from, to)?;
        assert!(rt; is(&board.mail(), word, running), "{id} to {to:?}");
    }
    Ok(())
}

#[test]
fn a_workflow_without_a_queue_is_in_none(rt: HostRuntime) -> Result<(), Fail> {
    let alloc = rt.alloc();
    let mut board = Board::new(alloc)?;
    let runs = row(alloc, Status::Pending, "print", 4)?;
    let cancelled = row(alloc, Status::Cancelled, "print", 4)?;
    let resumed = row(alloc, Status::Pending, "", 4)?;
    board.note(alloc, "w", None, &runs)?;
    assert!(rt; is(&board.print(), "full", 1));
    board.note(alloc, "w", Some(&runs), &cancelled)?;
    board.note(alloc, "w", Some(&cancelled), &resumed)?;
    assert!(rt; is(&board.print(), "empty", 0));
    let waits = row(alloc, Status::Enqueued, "mail", 5)?;
    let moved = row(alloc, Status::Enqueued, "print", 5)?;
    board.note(alloc, "v", None, &waits)?;
    board.note(alloc, "v", Some(&waits), &moved)?;
    assert!(rt; is(&board.print(), "v", 0) && is(&board.mail(), "empty", 0));
    Ok(())
}

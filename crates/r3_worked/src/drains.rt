//! Drains, as rounds of dequeues and turns.

ghost use Rattle.r3_model.specs.Functions.{language_of};
ghost use Rattle.r3_model.specs.Valid.{IsValid};
ghost use Rattle.r3_plain.specs.Words.{state_of};
ghost use Rattle.r3_worked.specs.Later.{FitsLater};

use crate::bank::BANK;
use crate::events::{dequeue, turn};
use crate::play::{LOAD, played};
use crate::steps::answered;
use crate::words::called_words;
use fn_tree::checked::Checked;
use fn_tree::program::Item;
use r3_plain::{Event, Out, Reply, State, pending};
use r3_value::Memory;
use std::alloc::Global;
use std::test::Fail;

// A drain so far: the turns that are left, whether they ran out, whether its last round has changed something, and the
// calls that were made.
#[derive(Drop)]
struct Drain {
    left: u32,
    cut: bool,
    changed: bool,
    calls: String,
}

fn changes(reply: &Reply) -> bool {
    matches!(
        reply,
        Reply::Entry { .. } | Reply::EntryOf { .. } | Reply::Began { .. } | Reply::Conflicts { .. }
    )
}

fn spent(alloc: Global, drain: &mut Drain, out: Out) -> Result<(), Memory> {
    drain.left = drain.left.saturating_sub(1);
    if changes(&out.reply) {
        drain.changed = true;
    }
    let called = called_words(alloc, &out.call)?;
    drain.calls.push_str(called.as_str())?;
    Ok(())
}

// One more dequeue or turn, where one is left.
fn spend(
    alloc: Global,
    program: &Checked,
    state: &mut State,
    drain: &mut Drain,
    event: Event,
) -> Result<(), Memory>
    requires valid { IsValid (language_of program.now) (state_of state.old) }
    requires fits { FitsLater event }
    ensures { IsValid (language_of program.now) (state_of state.new) }
{
    if drain.left == 0 {
        drain.cut = true;
        return Ok(());
    }
    let out = answered(alloc, program, state, event)?;
    spent(alloc, drain, out)
}

fn queue_tried(
    alloc: Global,
    program: &Checked,
    state: &mut State,
    drain: &mut Drain,
    item: &Item,
) -> Result<(), Memory>
    requires { IsValid (language_of program.now) (state_of state.old) }
    ensures { IsValid (language_of program.now) (state_of state.new) }
{
    match item {
        Item::Queue { name, .. } => {
            let event = dequeue(alloc, name.as_str())?;
            spend(alloc, program, state, drain, event)
        }
        _ => Ok(()),
    }
}

fn queues_tried(
    alloc: Global,
    program: &Checked,
    state: &mut State,
    drain: &mut Drain,
) -> Result<(), Memory>
    requires { IsValid (language_of program.now) (state_of state.old) }
    ensures { IsValid (language_of program.now) (state_of state.new) }
{
    'items: for item in &program.program().items {
        queue_tried(alloc, program, state, drain, item)?;
    }
    Ok(())
}

fn turns_given(
    alloc: Global,
    program: &Checked,
    state: &mut State,
    drain: &mut Drain,
) -> Result<(), Memory>
    requires { IsValid (language_of program.now) (state_of state.old) }
    ensures { IsValid (language_of program.now) (state_of state.new) }
{
    let ids = pending(alloc, state)?;
    'ids: for id in ids.as_slice() {
        let event = turn(alloc, id.as_str())?;
        spend(alloc, program, state, drain, event)?;
    }
    Ok(())
}

// A dequeue of each queue, and then a turn of each workflow that runs after them.
fn go_round(
    alloc: Global,
    program: &Checked,
    state: &mut State,
    drain: &mut Drain,
) -> Result<(), Memory>
    requires { IsValid (language_of program.now) (state_of state.old) }
    ensures { IsValid (language_of program.now) (state_of state.new) }
{
    drain.changed = false;
    queues_tried(alloc, program, state, drain)?;
    turns_given(alloc, program, state, drain)
}

fn drain_words(alloc: Global, turns: u32, drain: &Drain) -> Result<String, Memory> {
    let word = if drain.cut || drain.changed {
        "spent"
    } else {
        "idle"
    };
    let count = turns.saturating_sub(drain.left);
    Ok(format!(in alloc; "{word} {count}{}", drain.calls.as_str())?)
}

/// Rounds until one has changed nothing, or the turns are spent: how many turns were taken, and the calls that were
/// made.
pub fn drained(
    alloc: Global,
    program: &Checked,
    state: &mut State,
    turns: u32,
) -> Result<String, Memory>
    requires { IsValid (language_of program.now) (state_of state.old) }
    ensures { IsValid (language_of program.now) (state_of state.new) }
{
    let mut drain = Drain {
        left: turns,
        cut: false,
        changed: true,
        calls: String::new(alloc),
    };
    // Each round but the last one takes a turn.
    'rounds: for _ in 0..turns {
        if drain.left > 0 && drain.changed {
            go_round(alloc, program, state, &mut drain)?;
        }
    }
    drain_words(alloc, turns, &drain)
}

// A workflow that waits for itself never goes on, and a drain of it ends.
#[test]
fn a_drain_with_nothing_to_do_is_idle(rt: HostRuntime) -> Result<(), Fail> {
    let steps = [
        ("start w1 wait w1", "entry 2 w1"),
        ("turn w1", "waiting w1"),
        ("drain 100", "idle 2"),
        ("len", "2"),
    ];
    played(&rt, rt.alloc(), BANK, &steps)
}

#[test]
fn a_drain_ends_when_its_turns_are_spent(rt: HostRuntime) -> Result<(), Fail> {
    let steps = [
        LOAD,
        ("start m1 move a b 3", "entry 3 m1"),
        ("drain 3", "spent 3"),
        // each round began with a dequeue: two of them, and one turn
        ("turn m1", "entry 4"),
    ];
    played(&rt, rt.alloc(), BANK, &steps)
}

// A dequeue and a turn change nothing: two turns are enough to see it, and one isn't.
#[test]
fn a_drain_may_be_idle_on_its_last_turn(rt: HostRuntime) -> Result<(), Fail> {
    let steps = [
        ("start w1 wait w1", "entry 2 w1"),
        ("drain 1", "spent 1"),
        ("drain 2", "idle 2"),
        ("len", "2"),
    ];
    played(&rt, rt.alloc(), BANK, &steps)
}

// Four rounds of a dequeue and a turn, and a last dequeue that finds nothing.
#[test]
fn a_transfer_takes_nine_turns(rt: HostRuntime) -> Result<(), Fail> {
    let steps = [
        LOAD,
        ("start m1 move a b 3", "entry 3 m1"),
        ("drain 8", "spent 8, called m1 1 notify b 3: value null"),
        ("turn m1", "none SUCCESS"),
        ("start m2 move a b 3", "entry 7 m2"),
        ("drain 9", "idle 9, called m2 1 notify b 3: value null"),
    ];
    played(&rt, rt.alloc(), BANK, &steps)
}

// The turns of a round are those of the workflows that run at its start.
#[test]
fn a_child_has_its_first_turn_in_the_next_round(rt: HostRuntime) -> Result<(), Fail> {
    let steps = [
        LOAD,
        ("start p1 both a b 3", "entry 3 p1"),
        // a dequeue, the turn that starts the child, and the dequeue of the next round
        ("drain 3", "spent 3"),
        ("pending", " p1 p1-0"),
        ("turn p1-0", "began 4"),
        ("drain 100", "idle 11"),
    ];
    played(&rt, rt.alloc(), BANK, &steps)
}

#[test]
fn a_drain_gives_each_workflow_a_turn_a_round(rt: HostRuntime) -> Result<(), Fail> {
    let steps = [
        LOAD,
        ("start s1 send a b 3", "entry 3 s1"),
        ("enqueue e1 mail send b c 2", "entry 4 e1"),
        // s1 began first, so e1 began on the same length in the same round
        ("drain 3", "spent 3"),
        ("pending", " s1 e1"),
        ("entry 5", "dequeue e1 on 4; e1 = PENDING"),
        ("drain 100", "idle 11"),
        (
            "status s1",
            "SUCCESS send a b 3; value 3; queue none; started 3; attempts 0; parent none",
        ),
        (
            "status e1",
            "SUCCESS send b c 2; value 2; queue mail; started 4; attempts 0; parent none",
        ),
        ("get acct c", "2"),
    ];
    played(&rt, rt.alloc(), BANK, &steps)
}

// Of one queue one runs at a time, the first enqueued first.
#[test]
fn a_queue_starts_the_first_enqueued_within_its_bound(rt: HostRuntime) -> Result<(), Fail> {
    let steps = [
        LOAD,
        ("dequeue mail", "empty"),
        ("enqueue e1 mail send a b 1", "entry 3 e1"),
        ("enqueue e2 mail send a b 1", "entry 4 e2"),
        ("enqueue e3 mail send a b 1", "entry 5 e3"),
        ("dequeue mail", "entry 6 e1"),
        ("dequeue mail", "limit 1"),
        ("turn e1", "began 6"),
        ("turn e1", "entry 7"),
        ("turn e1", "entry 8"),
        ("dequeue mail", "entry 9 e2"),
        ("dequeue post_box", "refused unknown_queue"),
        ("turn e3", "none ENQUEUED"),
    ];
    played(&rt, rt.alloc(), BANK, &steps)
}

const TWO: &str = r#"queue mail 2;
flow wait(me) { let r = await me; return r; }
"#;

// Two run, and the third when one of them is gone.
#[test]
fn a_queue_of_two_runs_two_at_a_time(rt: HostRuntime) -> Result<(), Fail> {
    let steps = [
        ("enqueue e1 mail wait e1", "entry 2 e1"),
        ("enqueue e2 mail wait e2", "entry 3 e2"),
        ("enqueue e3 mail wait e3", "entry 4 e3"),
        ("dequeue mail", "entry 5 e1"),
        ("dequeue mail", "entry 6 e2"),
        ("dequeue mail", "limit 2"),
        ("cancel e1", "entry 7"),
        ("dequeue mail", "entry 8 e3"),
        ("dequeue mail", "limit 2"),
        ("cancel e2", "entry 9"),
        ("dequeue mail", "empty"),
    ];
    played(&rt, rt.alloc(), TWO, &steps)
}

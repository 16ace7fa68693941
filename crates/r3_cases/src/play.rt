//! A case, played from an empty store or from what another left.

ghost use Rattle.std.specs.Prelude.{ℕ, IfOk, OnOk};
ghost use Rattle.r3_desk.specs.Crash.{NothingPending};
ghost use Rattle.r3_model.specs.Machine.{State};
ghost use Rattle.r3_exec.specs.Runs.{Runs};

use crate::bank::program_of;
use crate::steps::step;
use r3_desk::{Desk, MemDesk, Room};
use r3_exec::{Exec, ExecFault};
use r3_recover::{StartFault, open_exec};
use std::alloc::Global;
use std::process::Abort;
use std::test::Fail;

/// The accounts a, b and c hold 10, 5 and 0.
pub const LOAD: (&str, &str) = ("load acct", "entry 2");

/// The row of m1 once it has moved 3 from a to b.
pub const TRANSFERRED: &str =
    "SUCCESS move a b 3; value 3; queue none; started 3; attempts 0; parent none";

/// A desk over an image, whose device call of this number fails.
pub fn desk_over(alloc: Global, image: &[u8], failing: u64) -> Result<MemDesk, Fail>
    ensures { IfOk result (λ desk.
        NothingPending (⟦<MemDesk as Desk>⟧.image desk) (⟦<MemDesk as Desk>⟧.may_leave desk)) }
{
    let mut fails = Vec::new(alloc);
    fails.push(failing)?;
    let room = Room {
        calls: 1000,
        bytes: 100_000,
    };
    let desk = MemDesk::new(alloc, image.to_vec(alloc)?, Vec::new(alloc), fails, room)?;
    Ok(desk)
}

/// Takes up the store with the program of a text.
pub fn taken_up<D: Desk>(alloc: Global, desk: &mut D, text: &str) -> Result<Exec, StartFault>
    requires { NothingPending (D.image desk.old) (D.may_leave desk.old) }
    ensures { IfOk result (λ exec. (st : State) × (k : ℕ) × Runs D.size D.image D.may_leave desk.new exec st k) }
{
    if text.len() > 1_048_576 {
        return Err(StartFault::Memory);
    }
    match program_of(alloc, text) {
        Ok(program) => open_exec(alloc, desk, program, text),
        Err(_) => Err(StartFault::Memory),
    }
}

/// Does each step; its answer stands beside it.
pub fn play<D: Desk>(
    rt: &impl Abort,
    alloc: Global,
    desk: &mut D,
    exec: &mut Exec,
    steps: &[(&str, &str)],
) -> Result<(), ExecFault>
    requires { (st : State) × (k : ℕ) × Runs D.size D.image D.may_leave desk.old exec.old st k }
    ensures { OnOk result ((st : State) × (k : ℕ) × Runs D.size D.image D.may_leave desk.new exec.new st k) }
{
    'steps: for (text, want) in steps {
        let got = step(alloc, desk, exec, text)?;
        assert_eq!(rt; got.as_str(), *want, "{text}");
    }
    Ok(())
}

/// Plays a case with the functions of a text, and settles it.
pub fn played(
    rt: &impl Abort,
    alloc: Global,
    image: &[u8],
    text: &str,
    steps: &[(&str, &str)],
) -> Result<MemDesk, Fail> {
    let mut desk = desk_over(alloc, image, 0)?;
    let mut exec = taken_up(alloc, &mut desk, text)?;
    play(rt, alloc, &mut desk, &mut exec, steps)?;
    exec.settle(&mut desk)?;
    Ok(desk)
}

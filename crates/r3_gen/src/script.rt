//! The script, run over a session.

ghost use Rattle.std.specs.Prelude.{◌≡◌, ◌+◌, ◌^◌, ◌<◌, List, [], ◌∷◌, ◌++◌, false, if◌then◌else◌, OnOk, OnErr, IsErrOf};
ghost use Rattle.r3_desk.specs.Causes.{Rose};
ghost use Rattle.r3_entry.specs.declared.entry.Entry.{Entry};
ghost use Rattle.r3_model.specs.Generator.{drawn, drain_after, transfers, generated};
ghost use Rattle.r3_model.specs.Language.{Text};
ghost use Rattle.r3_model.specs.Script.{Line as L, Drain};
ghost use Rattle.r3_serve.specs.Served.{Quiet, Served};
ghost use Rattle.r3_gen.specs.Ran.{StoppedAmong, one_transfer};

use crate::draws::Draws;
use crate::lines::{accounts, transfer};
use r3_desk::Desk;
use r3_lines::Line;
use r3_serve::{ServeFault, enact};
use r3_session::Session;
use std::alloc::Global;

const TURNS: u32 = 1000;

// Drains follow each of so many starts.
const STARTS: u32 = 8;

// Whether a drain is behind a start of which so many are left behind it.
fn has_drain(i: u32, left: u32) -> bool
    requires { i + left + 1 < 2 ^ 32 }
    ensures { drain_after i left ≡ (if result then Drain 1000 ∷ [] else []) }
{
    left == 0 || (i + 1) % STARTS == 0
}

// The drain behind a start, where there is one.
fn settle<D: Desk>(
    alloc: Global,
    session: &mut Session,
    desk: &mut D,
    i: u32,
    left: u32,
) -> Result<(), ServeFault>
    requires whole { session.old.failed ≡ false }
    requires few { i + left + 1 < 2 ^ 32 }
    requires served { (from : D) × (text : Text) × (h : List Entry) × (lines : List L) ×
        Served D.size D.image D.may_leave D.moment D.reach D.said D.asked from desk.old session.old.exec Quiet text h lines }
    ensures serves { (from : D) (text : Text) (h : List Entry) (lines : List L) →
        Served D.size D.image D.may_leave D.moment D.reach D.said D.asked from desk.old session.old.exec Quiet text h lines →
        OnOk result (Served D.size D.image D.may_leave D.moment D.reach D.said D.asked from desk.new session.new.exec Quiet text h (lines ++ drain_after i left)) }
    ensures stops { (from : D) (text : Text) (h : List Entry) (lines : List L) →
        Served D.size D.image D.may_leave D.moment D.reach D.said D.asked from desk.old session.old.exec Quiet text h lines →
        OnErr result (StoppedAmong D.size D.image D.may_leave D.moment D.reach D.said D.asked from desk.new session.new.exec text h lines (drain_after i left)) }
    ensures program { session.new.exec.program ≡ session.old.exec.program }
    ensures on_ok { OnOk result (session.new.failed ≡ false) }
    ensures says { IsErrOf result ServeFault.Say → ⊥ }
    ensures disk { IsErrOf result ServeFault.Disk → Rose (D.disk_faults desk.old) (D.disk_faults desk.new) }
    ensures no_fault { (IsErrOf result ServeFault.Disk → ⊥) → D.disk_faults desk.new ≡ D.disk_faults desk.old }
    ensures said { D.said desk.new ≡ D.said desk.old }
    ensures say_faults { D.say_faults desk.new ≡ D.say_faults desk.old }
{
    if !has_drain(i, left) {
        return Ok(());
    }
    enact(alloc, session, desk, &Line::Drain { turns: TURNS })
}

// The start of one transfer, and the drain behind it.
fn one_transfer<D: Desk>(
    alloc: Global,
    session: &mut Session,
    desk: &mut D,
    i: u32,
    left: u32,
    draws: &mut Draws,
) -> Result<(), ServeFault>
    requires whole { session.old.failed ≡ false }
    requires few { i + left + 1 < 2 ^ 32 }
    requires served { (from : D) × (text : Text) × (h : List Entry) × (lines : List L) ×
        Served D.size D.image D.may_leave D.moment D.reach D.said D.asked from desk.old session.old.exec Quiet text h lines }
    ensures serves { (from : D) (text : Text) (h : List Entry) (lines : List L) →
        Served D.size D.image D.may_leave D.moment D.reach D.said D.asked from desk.old session.old.exec Quiet text h lines →
        OnOk result (Served D.size D.image D.may_leave D.moment D.reach D.said D.asked from desk.new session.new.exec Quiet text h (lines ++ one_transfer i left draws.old.kept)) }
    ensures stops { (from : D) (text : Text) (h : List Entry) (lines : List L) →
        Served D.size D.image D.may_leave D.moment D.reach D.said D.asked from desk.old session.old.exec Quiet text h lines →
        OnErr result (StoppedAmong D.size D.image D.may_leave D.moment D.reach D.said D.asked from desk.new session.new.exec text h lines (one_transfer i left draws.old.kept)) }
    ensures draws { draws.new.kept ≡ drawn (drawn (drawn draws.old.kept)) }
    ensures program { session.new.exec.program ≡ session.old.exec.program }
    ensures on_ok { OnOk result (session.new.failed ≡ false) }
    ensures says { IsErrOf result ServeFault.Say → ⊥ }
    ensures disk { IsErrOf result ServeFault.Disk → Rose (D.disk_faults desk.old) (D.disk_faults desk.new) }
    ensures no_fault { (IsErrOf result ServeFault.Disk → ⊥) → D.disk_faults desk.new ≡ D.disk_faults desk.old }
    ensures said { D.said desk.new ≡ D.said desk.old }
    ensures say_faults { D.say_faults desk.new ≡ D.say_faults desk.old }
{
    let line = match transfer(alloc, i, draws) {
        Ok(line) => line,
        Err(_) => return Err(ServeFault::Memory),
    };
    match enact(alloc, session, desk, &line) {
        Ok(()) => settle(alloc, session, desk, i, left),
        Err(fault) => Err(fault),
    }
}

// The transfers.
fn transfers<D: Desk>(
    alloc: Global,
    session: &mut Session,
    desk: &mut D,
    number: u64,
    count: u32,
) -> Result<(), ServeFault>
    requires whole { session.old.failed ≡ false }
    requires served { (from : D) × (text : Text) × (h : List Entry) × (lines : List L) ×
        Served D.size D.image D.may_leave D.moment D.reach D.said D.asked from desk.old session.old.exec Quiet text h lines }
    ensures serves { (from : D) (text : Text) (h : List Entry) (lines : List L) →
        Served D.size D.image D.may_leave D.moment D.reach D.said D.asked from desk.old session.old.exec Quiet text h lines →
        OnOk result (Served D.size D.image D.may_leave D.moment D.reach D.said D.asked from desk.new session.new.exec Quiet text h (lines ++ transfers 0 count number)) }
    ensures stops { (from : D) (text : Text) (h : List Entry) (lines : List L) →
        Served D.size D.image D.may_leave D.moment D.reach D.said D.asked from desk.old session.old.exec Quiet text h lines →
        OnErr result (StoppedAmong D.size D.image D.may_leave D.moment D.reach D.said D.asked from desk.new session.new.exec text h lines (transfers 0 count number)) }
    ensures program { session.new.exec.program ≡ session.old.exec.program }
    ensures on_ok { OnOk result (session.new.failed ≡ false) }
    ensures says { IsErrOf result ServeFault.Say → ⊥ }
    ensures disk { IsErrOf result ServeFault.Disk → Rose (D.disk_faults desk.old) (D.disk_faults desk.new) }
    ensures no_fault { (IsErrOf result ServeFault.Disk → ⊥) → D.disk_faults desk.new ≡ D.disk_faults desk.old }
    ensures said { D.said desk.new ≡ D.said desk.old }
    ensures say_faults { D.say_faults desk.new ≡ D.say_faults desk.old }
{
    let mut draws = Draws { kept: number };
    'starts: for i in 0..count {
        match one_transfer(alloc, session, desk, i, count - i - 1, &mut draws) {
            Ok(()) => {}
            Err(fault) => return Err(fault),
        }
    }
    Ok(())
}

/// Runs the script that is made from this number, of so many transfers, and says no reply.
///
/// First the accounts are loaded. Then each transfer is started, and after every eighth, and after the last, a
/// drain is done.
pub fn generate<D: Desk>(
    alloc: Global,
    session: &mut Session,
    desk: &mut D,
    number: u64,
    count: u32,
) -> Result<(), ServeFault>
    requires whole { session.old.failed ≡ false }
    requires served { (from : D) × (text : Text) × (h : List Entry) × (lines : List L) ×
        Served D.size D.image D.may_leave D.moment D.reach D.said D.asked from desk.old session.old.exec Quiet text h lines }
    ensures serves { (from : D) (text : Text) (h : List Entry) (lines : List L) →
        Served D.size D.image D.may_leave D.moment D.reach D.said D.asked from desk.old session.old.exec Quiet text h lines →
        OnOk result (Served D.size D.image D.may_leave D.moment D.reach D.said D.asked from desk.new session.new.exec Quiet text h (lines ++ generated number count)) }
    ensures stops { (from : D) (text : Text) (h : List Entry) (lines : List L) →
        Served D.size D.image D.may_leave D.moment D.reach D.said D.asked from desk.old session.old.exec Quiet text h lines →
        OnErr result (StoppedAmong D.size D.image D.may_leave D.moment D.reach D.said D.asked from desk.new session.new.exec text h lines (generated number count)) }
    ensures program { session.new.exec.program ≡ session.old.exec.program }
    ensures on_ok { OnOk result (session.new.failed ≡ false) }
    ensures says { IsErrOf result ServeFault.Say → ⊥ }
    ensures disk { IsErrOf result ServeFault.Disk → Rose (D.disk_faults desk.old) (D.disk_faults desk.new) }
    ensures no_fault { (IsErrOf result ServeFault.Disk → ⊥) → D.disk_faults desk.new ≡ D.disk_faults desk.old }
    ensures said { D.said desk.new ≡ D.said desk.old }
    ensures say_faults { D.say_faults desk.new ≡ D.say_faults desk.old }
{
    let line = match accounts(alloc) {
        Ok(line) => line,
        Err(_) => return Err(ServeFault::Memory),
    };
    match enact(alloc, session, desk, &line) {
        Ok(()) => transfers(alloc, session, desk, number, count),
        Err(fault) => Err(fault),
    }
}

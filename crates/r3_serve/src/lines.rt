//! Lines, answered one after another.

ghost use Rattle.std.specs.Prelude.{◌≡◌, List, [], ◌∷◌, ◌++◌, false, OnOk, OnErr, IsErrOf};
ghost use Rattle.r3_desk.specs.Causes.{Rose};
ghost use Rattle.r3_entry.specs.declared.entry.Entry.{Entry};
ghost use Rattle.r3_model.specs.Forms.{line_of};
ghost use Rattle.r3_model.specs.Language.{Text};
ghost use Rattle.r3_model.specs.Script.{Line as L};
ghost use Rattle.r3_exec.specs.Runs.{language};
ghost use Rattle.r3_lines.specs.Lines.{as_line, IsKept};
ghost use Rattle.r3_serve.specs.Failed.{ReplyFailed};
ghost use Rattle.r3_serve.specs.Served.{Voice, Loud, Quiet, Served, Stopped};

use crate::fault::ServeFault;
use r3_desk::Desk;
use r3_lines::Line;
use r3_model::{drains_by_turns, only_appends};
use r3_session::{Session, SessionFault};
use r3_store::{holds_beside_the_disk, reads_as_settled};
use std::alloc::Global;

/// Answers a line that was read already, and says the reply.
pub fn serve<D: Desk>(
    alloc: Global,
    session: &mut Session,
    desk: &mut D,
    line: &Line,
) -> Result<(), ServeFault>
    requires whole { session.old.failed ≡ false }
    requires kept { IsKept line.now }
    requires served { (from : D) × (text : Text) × (h : List Entry) × (lines : List L) ×
        Served D.size D.image D.may_leave D.moment D.reach D.said D.asked from desk.old session.old.exec Loud text h lines }
    ensures serves { (from : D) (text : Text) (h : List Entry) (lines : List L) →
        Served D.size D.image D.may_leave D.moment D.reach D.said D.asked from desk.old session.old.exec Loud text h lines →
        OnOk result (Served D.size D.image D.may_leave D.moment D.reach D.said D.asked from desk.new session.new.exec Loud text h (lines ++ as_line line.now ∷ [])) }
    ensures stops { (from : D) (text : Text) (h : List Entry) (lines : List L) →
        Served D.size D.image D.may_leave D.moment D.reach D.said D.asked from desk.old session.old.exec Loud text h lines →
        OnErr result (Stopped D.image D.moment D.reach D.said D.asked from desk.new (language session.old.exec) Loud text h lines (as_line line.now)) }

    // Each reply before was said whole and in order, of this one a first part, and nothing else.
    ensures say_whole { (from : D) (text : Text) (h : List Entry) (lines : List L) →
        Served D.size D.image D.may_leave D.moment D.reach D.said D.asked from desk.old session.old.exec Loud text h lines →
        IsErrOf result ServeFault.Say →
        ReplyFailed D.image D.may_leave D.moment D.reach D.said D.asked from desk.new (language session.old.exec) text h lines (as_line line.now) }
    ensures program { session.new.exec.program ≡ session.old.exec.program }
    ensures on_ok { OnOk result (session.new.failed ≡ false) }
    ensures disk { IsErrOf result ServeFault.Disk → Rose (D.disk_faults desk.old) (D.disk_faults desk.new) }
    ensures no_fault { (IsErrOf result ServeFault.Disk → ⊥) → D.disk_faults desk.new ≡ D.disk_faults desk.old }
    ensures say { IsErrOf result ServeFault.Say → Rose (D.say_faults desk.old) (D.say_faults desk.new) }
    ensures no_say { (IsErrOf result ServeFault.Say → ⊥) → D.say_faults desk.new ≡ D.say_faults desk.old }
{
    only_appends();
    drains_by_turns();
    reads_as_settled::<D>();
    holds_beside_the_disk::<D>();
    let reply = match session.answer(alloc, desk, line) {
        Ok(reply) => reply,
        Err(SessionFault::Disk) => return Err(ServeFault::Disk),
        Err(SessionFault::Memory) => return Err(ServeFault::Memory),
    };
    match desk.say(reply.as_slice()) {
        Ok(()) => Ok(()),
        Err(_) => Err(ServeFault::Say),
    }
}

/// Answers a line, with or without its newline, and says the reply.
pub fn serve_line<D: Desk>(
    alloc: Global,
    session: &mut Session,
    desk: &mut D,
    line: &[u8],
) -> Result<(), ServeFault>
    requires whole { session.old.failed ≡ false }
    requires served { (from : D) × (text : Text) × (h : List Entry) × (lines : List L) ×
        Served D.size D.image D.may_leave D.moment D.reach D.said D.asked from desk.old session.old.exec Loud text h lines }
    ensures serves { (from : D) (text : Text) (h : List Entry) (lines : List L) →
        Served D.size D.image D.may_leave D.moment D.reach D.said D.asked from desk.old session.old.exec Loud text h lines →
        OnOk result (Served D.size D.image D.may_leave D.moment D.reach D.said D.asked from desk.new session.new.exec Loud text h (lines ++ line_of line.now ∷ [])) }
    ensures stops { (from : D) (text : Text) (h : List Entry) (lines : List L) →
        Served D.size D.image D.may_leave D.moment D.reach D.said D.asked from desk.old session.old.exec Loud text h lines →
        OnErr result (Stopped D.image D.moment D.reach D.said D.asked from desk.new (language session.old.exec) Loud text h lines (line_of line.now)) }

    // Each reply before was said whole and in order, of this one a first part, and nothing else.
    ensures say_whole { (from : D) (text : Text) (h : List Entry) (lines : List L) →
        Served D.size D.image D.may_leave D.moment D.reach D.said D.asked from desk.old session.old.exec Loud text h lines →
        IsErrOf result ServeFault.Say →
        ReplyFailed D.image D.may_leave D.moment D.reach D.said D.asked from desk.new (language session.old.exec) text h lines (line_of line.now) }
    ensures program { session.new.exec.program ≡ session.old.exec.program }
    ensures on_ok { OnOk result (session.new.failed ≡ false) }
    ensures disk { IsErrOf result ServeFault.Disk → Rose (D.disk_faults desk.old) (D.disk_faults desk.new) }
    ensures no_fault { (IsErrOf result ServeFault.Disk → ⊥) → D.disk_faults desk.new ≡ D.disk_faults desk.old }
    ensures say { IsErrOf result ServeFault.Say → Rose (D.say_faults desk.old) (D.say_faults desk.new) }
    ensures no_say { (IsErrOf result ServeFault.Say → ⊥) → D.say_faults desk.new ≡ D.say_faults desk.old }
{
    only_appends();
    drains_by_turns();
    reads_as_settled::<D>();
    holds_beside_the_disk::<D>();
    let text = match session.step(alloc, desk, line) {
        Ok(text) => text,
        Err(SessionFault::Disk) => return Err(ServeFault::Disk),
        Err(SessionFault::Memory) => return Err(ServeFault::Memory),
    };
    match desk.say(text.as_slice()) {
        Ok(()) => Ok(()),
        Err(_) => Err(ServeFault::Say),
    }
}

/// Does what a line says, and says nothing.
pub fn enact<D: Desk>(
    alloc: Global,
    session: &mut Session,
    desk: &mut D,
    line: &Line,
) -> Result<(), ServeFault>
    requires whole { session.old.failed ≡ false }
    requires kept { IsKept line.now }
    requires served { (from : D) × (text : Text) × (h : List Entry) × (lines : List L) ×
        Served D.size D.image D.may_leave D.moment D.reach D.said D.asked from desk.old session.old.exec Quiet text h lines }
    ensures serves { (from : D) (text : Text) (h : List Entry) (lines : List L) →
        Served D.size D.image D.may_leave D.moment D.reach D.said D.asked from desk.old session.old.exec Quiet text h lines →
        OnOk result (Served D.size D.image D.may_leave D.moment D.reach D.said D.asked from desk.new session.new.exec Quiet text h (lines ++ as_line line.now ∷ [])) }
    ensures stops { (from : D) (text : Text) (h : List Entry) (lines : List L) →
        Served D.size D.image D.may_leave D.moment D.reach D.said D.asked from desk.old session.old.exec Quiet text h lines →
        OnErr result (Stopped D.image D.moment D.reach D.said D.asked from desk.new (language session.old.exec) Quiet text h lines (as_line line.now)) }
    ensures program { session.new.exec.program ≡ session.old.exec.program }
    ensures on_ok { OnOk result (session.new.failed ≡ false) }
    ensures says { IsErrOf result ServeFault.Say → ⊥ }
    ensures disk { IsErrOf result ServeFault.Disk → Rose (D.disk_faults desk.old) (D.disk_faults desk.new) }
    ensures no_fault { (IsErrOf result ServeFault.Disk → ⊥) → D.disk_faults desk.new ≡ D.disk_faults desk.old }
    ensures said { D.said desk.new ≡ D.said desk.old }
    ensures say_faults { D.say_faults desk.new ≡ D.say_faults desk.old }
{
    only_appends();
    drains_by_turns();
    let _reply = match session.answer(alloc, desk, line) {
        Ok(reply) => reply,
        Err(SessionFault::Disk) => return Err(ServeFault::Disk),
        Err(SessionFault::Memory) => return Err(ServeFault::Memory),
    };
    Ok(())
}

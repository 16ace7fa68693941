//! The lines of a script, answered until it ends.

ghost use Rattle.std.specs.Prelude.{◌≡◌, ◌⊎◌, ◌<◌, ◌≤◌, ◌^◌, ◌++◌, List, true, false, length, take, Some, OnOk, OnErr, IsErrOf, Err};
ghost use Rattle.std.specs.Io.KnownBytes.{Consumes};
ghost use Rattle.r3_desk.specs.Causes.{Rose};
ghost use Rattle.r3_entry.specs.declared.entry.Entry.{Entry};
ghost use Rattle.r3_model.specs.Language.{Text};
ghost use Rattle.r3_model.specs.Script.{Line as L};
ghost use Rattle.r3_exec.specs.Runs.{language};
ghost use Rattle.r3_serve.specs.Failed.{ReplyFailedIn};
ghost use Rattle.r3_serve.specs.Served.{Loud, Served};
ghost use Rattle.r3_serve.specs.Scripted.{StoppedIn, script_lines, ended_script_lines};

use crate::fault::{ScriptStop, ServeFault};
use crate::lines::serve_line;
use r3_desk::{Desk, Source};
use r3_script::{Script, ScriptFault};
use r3_session::Session;
use std::alloc::Global;

/// Answers the lines of a script until it ends.
pub fn serve_script<D: Desk, S: Source>(
    alloc: Global,
    session: &mut Session,
    desk: &mut D,
    source: &mut S,
) -> Result<(), ScriptStop>
    requires whole { session.old.failed ≡ false }
    requires served { (from : D) × (text : Text) × (h : List Entry) × (lines : List L) ×
        Served D.size D.image D.may_leave D.moment D.reach D.said D.asked from desk.old session.old.exec Loud text h lines }

    // Where the script's bytes are told, all of its lines were answered, or all that end within the limit, or before the fault.
    ensures serves { (from : D) (text : Text) (h : List Entry) (lines : List L) (script : Text) →
        Served D.size D.image D.may_leave D.moment D.reach D.said D.asked from desk.old session.old.exec Loud text h lines →
        S.left source.old ≡ Some script →
        OnOk result ((length script ≤ 2 ^ 26)
        × Served D.size D.image D.may_leave D.moment D.reach D.said D.asked from desk.new session.new.exec Loud text h (lines ++ script_lines script)) }
    ensures long { (from : D) (text : Text) (h : List Entry) (lines : List L) (script : Text) →
        Served D.size D.image D.may_leave D.moment D.reach D.said D.asked from desk.old session.old.exec Loud text h lines →
        S.left source.old ≡ Some script → result ≡ Err ScriptStop.TooLong →
        (2 ^ 26 < length script)
        × Served D.size D.image D.may_leave D.moment D.reach D.said D.asked from desk.new session.new.exec Loud text h (lines ++ ended_script_lines (take (2 ^ 26) script)) }
    ensures source { (from : D) (text : Text) (h : List Entry) (lines : List L) →
        Served D.size D.image D.may_leave D.moment D.reach D.said D.asked from desk.old session.old.exec Loud text h lines →
        result ≡ Err ScriptStop.Source →
        (given : Text) × Consumes (S.left source.old) (S.left source.new) given
        × Served D.size D.image D.may_leave D.moment D.reach D.said D.asked from desk.new session.new.exec Loud text h (lines ++ ended_script_lines given) }
    ensures stops { (from : D) (text : Text) (h : List Entry) (lines : List L) (script : Text) →
        Served D.size D.image D.may_leave D.moment D.reach D.said D.asked from desk.old session.old.exec Loud text h lines →
        S.left source.old ≡ Some script →
        OnErr result (StoppedIn D.size D.image D.may_leave D.moment D.reach D.said D.asked from desk.new session.new.exec text h lines script) }

    // Where the reply of some line failed to be said, each one before was said whole and in order, and nothing else was.
    ensures say_whole { (from : D) (text : Text) (h : List Entry) (lines : List L) (script : Text) →
        Served D.size D.image D.may_leave D.moment D.reach D.said D.asked from desk.old session.old.exec Loud text h lines →
        S.left source.old ≡ Some script → IsErrOf result ScriptStop.Say →
        ReplyFailedIn D.image D.may_leave D.moment D.reach D.said D.asked from desk.new (language session.old.exec) text h lines script }
    ensures program { session.new.exec.program ≡ session.old.exec.program }
    ensures ended { OnOk result (S.ended source.new ≡ true) }
    ensures disk { IsErrOf result ScriptStop.Disk → Rose (D.disk_faults desk.old) (D.disk_faults desk.new) }
    ensures no_fault { (IsErrOf result ScriptStop.Disk → ⊥) → D.disk_faults desk.new ≡ D.disk_faults desk.old }
    ensures say { IsErrOf result ScriptStop.Say → Rose (D.say_faults desk.old) (D.say_faults desk.new) }
    ensures no_say { (IsErrOf result ScriptStop.Say → ⊥) → D.say_faults desk.new ≡ D.say_faults desk.old }
    ensures input { IsErrOf result ScriptStop.Source → Rose (S.faults source.old) (S.faults source.new) }
    ensures no_input { (IsErrOf result ScriptStop.Source → ⊥) → S.faults source.new ≡ S.faults source.old }
{
    let mut script = match Script::new(alloc) {
        Ok(script) => script,
        Err(_) => return Err(ScriptStop::Memory),
    };
    'lines: for _turn in 0..u64::MAX {
        match script.next_line(source) {
            Ok(true) => {}
            Ok(false) => return Ok(()),
            Err(ScriptFault::Source) => return Err(ScriptStop::Source),
            Err(ScriptFault::TooLong) => return Err(ScriptStop::TooLong),
            Err(ScriptFault::Memory) => return Err(ScriptStop::Memory),
        }
        match serve_line(alloc, session, desk, script.line()) {
            Ok(()) => {}
            Err(ServeFault::Disk) => return Err(ScriptStop::Disk),
            Err(ServeFault::Memory) => return Err(ScriptStop::Memory),
            Err(ServeFault::Say) => return Err(ScriptStop::Say),
        }
    }
    Err(ScriptStop::Memory)
}

//! The command `check`.

ghost use Rattle.std.specs.Prelude.{◌≡◌, ◌⊎◌, [], Err, Option, Some};
ghost use Rattle.r3_desk.specs.Causes.{Rose};
ghost use Rattle.r3_desk.specs.Crash.{NothingPending};
ghost use Rattle.r3_model.specs.Language.{Text};
ghost use Rattle.r3_words.specs.Forms.{check as check_form};
ghost use Rattle.r3_top.specs.Causes.{HasCause};
ghost use Rattle.r3_top.specs.Statuses.{IsBroken};
ghost use Rattle.r3_top.specs.Refusals.{EndsAtFile, IsFunctionFile};
ghost use Rattle.r3_top.specs.Going.{CheckGoes};
ghost use Rattle.r3_top.specs.Ends.{CheckComes, end_of};

use crate::counts::counts_line;
use crate::files::{accept, fetch};
use crate::halt::Halt;
use r3_desk::{Desk, Shelf};
use std::alloc::Global;

/// Says how many items of each kind the functions of a file have. It opens no store.
pub fn check<D: Desk, F: Shelf>(
    alloc: Global,
    path: &str,
    desk: &mut D,
    shelf: &mut F,
) -> Result<(), Halt>
    requires { NothingPending (D.image desk.old) (D.may_leave desk.old) }
    ensures comes { (text : Text) → F.text_of shelf.old path.now ≡ Some text →
        IsBroken (end_of result) ⊎ CheckComes D.image D.said D.asked desk.old desk.new text (end_of result) [] }
    ensures goes { (text : Text) → F.text_of shelf.old path.now ≡ Some text →
        CheckGoes D.image D.may_leave D.moment D.reach D.said D.asked D.syncs desk.old desk.new text (end_of result) [] }
    ensures causes { (text : Text) (image left : Option Text) → F.text_of shelf.old path.now ≡ Some text →
        HasCause (check_form path.now) text image left (end_of result) }

    // The function file comes first.
    ensures file_first { (text : Text) → F.text_of shelf.old path.now ≡ Some text → (IsFunctionFile text → ⊥) →
        (desk.new ≡ desk.old) × EndsAtFile text (end_of result) }
    ensures image { D.image desk.new ≡ D.image desk.old }
    ensures disk_faults { D.disk_faults desk.new ≡ D.disk_faults desk.old }
    ensures disk { result ≡ Err Halt.Disk → ⊥ }
    ensures usage { result ≡ Err Halt.Usage → ⊥ }
    ensures script { result ≡ Err Halt.Script → ⊥ }
    ensures say { result ≡ Err Halt.Say → Rose (D.say_faults desk.old) (D.say_faults desk.new) }
    ensures say_kept { (result ≡ Err Halt.Say → ⊥) → D.say_faults desk.new ≡ D.say_faults desk.old }
    ensures files { result ≡ Err Halt.Files → Rose (F.faults shelf.old) (F.faults shelf.new) × (desk.new ≡ desk.old) }
    ensures files_kept { (result ≡ Err Halt.Files → ⊥) → F.faults shelf.new ≡ F.faults shelf.old }
{
    let text = match fetch(alloc, shelf, path) {
        Ok(text) => text,
        Err(halt) => return Err(halt),
    };
    let program = match accept(alloc, &text) {
        Ok(program) => program,
        Err(halt) => return Err(halt),
    };
    let line = match counts_line(alloc, &program) {
        Ok(line) => line,
        Err(_) => return Err(Halt::Memory),
    };
    match desk.say(&line) {
        Ok(()) => Ok(()),
        Err(_) => Err(Halt::Say),
    }
}

//! Which command the words are, and what it does.

ghost use Rattle.std.specs.Prelude.{◌≡◌, ◌⊎◌, ℕ, true, [], List, Err, Some, None, IfErr, OnOk, map, string_bytes, ⊤};
ghost use Rattle.r3_desk.specs.Causes.{Rose};
ghost use Rattle.r3_desk.specs.Crash.{NothingPending};
ghost use Rattle.r3_entry.specs.declared.entry.Entry.{Entry};
ghost use Rattle.r3_entry.specs.Image.{IsHistoryOf};
ghost use Rattle.r3_model.specs.Language.{Text};
ghost use Rattle.r3_recover.specs.Opened.{HasProgram};
ghost use Rattle.r3_words.specs.Forms.{Form, run as run_form, recover as recover_form, check as check_form, gen as gen_form};
ghost use Rattle.r3_top.specs.Commands.{OnStore, asked_by, functions_text};
ghost use Rattle.r3_top.specs.Statuses.{IsBroken};
ghost use Rattle.r3_top.specs.Refusals.{EndsAtFile, IsFunctionFile, ReadsNone};
ghost use Rattle.r3_top.specs.Causes.{HasCause, IsReady};
ghost use Rattle.r3_top.specs.Closes.{EndsAtStore};
ghost use Rattle.r3_top.specs.Going.{CheckGoes, GenGoes, RecoverGoes, RunGoes};
ghost use Rattle.r3_top.specs.Ends.{CheckComes, GenComes, RecoverComes, RunComes, end_of};

use crate::check::check;
use crate::generate::generate;
use crate::halt::Halt;
use crate::run::{recover, run};
use r3_desk::{Desk, Shelf, Source};
use r3_gen::BANK;
use r3_words::{Command, read};
use std::alloc::Global;

/// Does what the words say.
pub fn command<D: Desk, S: Source, F: Shelf>(
    alloc: Global,
    words: &[String],
    desk: &mut D,
    script: &mut S,
    shelf: &mut F,
) -> Result<(), Halt>
    requires { NothingPending (D.image desk.old) (D.may_leave desk.old) }
    ensures runs { (functions text : Text) → asked_by (map string_bytes words.now) ≡ Some (run_form functions) →
        F.text_of shelf.old functions ≡ Some text →
        IsBroken (end_of result) ⊎ RunComes D.image D.may_leave D.moment D.reach D.said D.asked desk.old desk.new
        (S.left script.old) (S.left script.new) text (end_of result) [] }
    ensures run_goes { (functions text image lines : Text) (h : List Entry) →
        asked_by (map string_bytes words.now) ≡ Some (run_form functions) →
        F.text_of shelf.old functions ≡ Some text → D.image desk.old ≡ Some image → S.left script.old ≡ Some lines →
        IsHistoryOf h image → HasProgram h text →
        RunGoes D.image D.may_leave D.moment D.reach D.said D.asked desk.old desk.new text h lines (end_of result) [] }
    ensures recovers { (functions text : Text) (turns : ℕ) →
        asked_by (map string_bytes words.now) ≡ Some (recover_form functions turns) →
        F.text_of shelf.old functions ≡ Some text →
        IsBroken (end_of result) ⊎ RecoverComes D.image D.may_leave D.moment D.reach D.said D.asked desk.old desk.new
        turns text (end_of result) [] }
    ensures recover_goes { (functions text image : Text) (turns : ℕ) (h : List Entry) →
        asked_by (map string_bytes words.now) ≡ Some (recover_form functions turns) →
        F.text_of shelf.old functions ≡ Some text → D.image desk.old ≡ Some image →
        IsHistoryOf h image → HasProgram h text →
        RecoverGoes D.image D.may_leave D.moment D.reach D.said D.asked desk.old desk.new text h turns (end_of result) [] }
    ensures generates { (number count : ℕ) → asked_by (map string_bytes words.now) ≡ Some (gen_form number count) →
        IsBroken (end_of result) ⊎ GenComes D.image D.may_leave D.moment D.reach D.said D.asked desk.old desk.new
        number count BANK.now (end_of result) [] }
    ensures gen_goes { (number count : ℕ) (image : Text) (h : List Entry) →
        asked_by (map string_bytes words.now) ≡ Some (gen_form number count) →
        D.image desk.old ≡ Some image → IsHistoryOf h image → HasProgram h BANK.now →
        GenGoes D.image D.may_leave D.moment D.reach D.said D.asked desk.old desk.new BANK.now h number count (end_of result) [] }
    ensures recover_reads_none { (functions : Text) (turns : ℕ) →
        asked_by (map string_bytes words.now) ≡ Some (recover_form functions turns) → script.new ≡ script.old }
    ensures gen_reads_none { (number count : ℕ) → asked_by (map string_bytes words.now) ≡ Some (gen_form number count) →
        (script.new ≡ script.old) × (shelf.new ≡ shelf.old) × IfErr result ReadsNone }
    ensures checks { (functions text : Text) → asked_by (map string_bytes words.now) ≡ Some (check_form functions) →
        F.text_of shelf.old functions ≡ Some text →
        IsBroken (end_of result) ⊎ CheckComes D.image D.said D.asked desk.old desk.new text (end_of result) [] }
    ensures check_goes { (functions text : Text) → asked_by (map string_bytes words.now) ≡ Some (check_form functions) →
        F.text_of shelf.old functions ≡ Some text →
        CheckGoes D.image D.may_leave D.moment D.reach D.said D.asked D.syncs desk.old desk.new text (end_of result) [] }
    ensures check_reads_none { (functions : Text) → asked_by (map string_bytes words.now) ≡ Some (check_form functions) →
        script.new ≡ script.old }
    ensures opens_no_store { (functions : Text) → asked_by (map string_bytes words.now) ≡ Some (check_form functions) →
        (D.image desk.new ≡ D.image desk.old) × (D.disk_faults desk.new ≡ D.disk_faults desk.old) }
    ensures causes { (form : Form) (text : Text) → asked_by (map string_bytes words.now) ≡ Some form →
        functions_text (F.text_of shelf.old) BANK.now form ≡ Some text →
        HasCause form text (D.image desk.old) (S.left script.old) (end_of result) }

    // The words come first, then the function file, then the store, and then the script.
    ensures words_first { asked_by (map string_bytes words.now) ≡ None →
        (desk.new ≡ desk.old) × (script.new ≡ script.old) × (shelf.new ≡ shelf.old)
        × ((result ≡ Err Halt.Usage) ⊎ (result ≡ Err Halt.Memory)) }
    ensures file_first { (form : Form) (text : Text) → asked_by (map string_bytes words.now) ≡ Some form →
        functions_text (F.text_of shelf.old) BANK.now form ≡ Some text → (IsFunctionFile text → ⊥) →
        (desk.new ≡ desk.old) × (script.new ≡ script.old) × EndsAtFile text (end_of result) }
    ensures store_first { (form : Form) (text image : Text) → asked_by (map string_bytes words.now) ≡ Some form →
        functions_text (F.text_of shelf.old) BANK.now form ≡ Some text → OnStore form ⊤ → D.image desk.old ≡ Some image →
        (IsReady text (Some image) → ⊥) → (script.new ≡ script.old)
        × EndsAtStore D.image D.may_leave D.moment D.reach D.said D.asked D.syncs desk.old desk.new text (end_of result) [] }

    // Each fault has its cause.
    ensures usage { result ≡ Err Halt.Usage → asked_by (map string_bytes words.now) ≡ None }
    ensures disk { result ≡ Err Halt.Disk → Rose (D.disk_faults desk.old) (D.disk_faults desk.new) }
    ensures disk_kept { (result ≡ Err Halt.Disk → ⊥) → D.disk_faults desk.new ≡ D.disk_faults desk.old }
    ensures say { result ≡ Err Halt.Say → Rose (D.say_faults desk.old) (D.say_faults desk.new) }
    ensures say_kept { (result ≡ Err Halt.Say → ⊥) → D.say_faults desk.new ≡ D.say_faults desk.old }
    ensures files { result ≡ Err Halt.Files → Rose (F.faults shelf.old) (F.faults shelf.new)
        × (desk.new ≡ desk.old) × (script.new ≡ script.old) }
    ensures files_kept { (result ≡ Err Halt.Files → ⊥) → F.faults shelf.new ≡ F.faults shelf.old }
    ensures script { result ≡ Err Halt.Script → Rose (S.faults script.old) (S.faults script.new) }
    ensures script_kept { (result ≡ Err Halt.Script → ⊥) → S.faults script.new ≡ S.faults script.old }
    ensures ended { (functions : Text) → asked_by (map string_bytes words.now) ≡ Some (run_form functions) →
        OnOk result (S.ended script.new ≡ true) }
{
    let line = match read(alloc, words) {
        Ok(Some(line)) => line,
        Ok(None) => return Err(Halt::Usage),
        Err(_) => return Err(Halt::Memory),
    };
    match line.command {
        Command::Run { functions } => run(alloc, functions, desk, script, shelf),
        Command::Recover { functions, turns } => recover(alloc, functions, turns, desk, shelf),
        Command::Check { functions } => check(alloc, functions, desk, shelf),
        Command::Gen { number, count } => generate(alloc, BANK, number, count, desk),
        _ => Err(Halt::Usage),
    }
}

//! The whole program, over any environment.

ghost use Rattle.std.specs.Prelude.{◌≡◌, ◌⊎◌, ◌<◌, ◌^◌, ℕ, true, [], List, length, Some, None, map, string_bytes, ⊤};
ghost use Rattle.std.specs.Option.{ForSome};
ghost use Rattle.r3_desk.specs.Causes.{Rose};
ghost use Rattle.r3_desk.specs.Crash.{NothingPending};
ghost use Rattle.r3_entry.specs.declared.entry.Entry.{Entry};
ghost use Rattle.r3_entry.specs.Image.{IsHistoryOf};
ghost use Rattle.r3_model.specs.Language.{Text};
ghost use Rattle.r3_recover.specs.Opened.{HasProgram};
ghost use Rattle.r3_words.specs.Forms.{Form, run as run_form, recover as recover_form, check as check_form, gen as gen_form};
ghost use Rattle.r3_top.specs.Commands.{OnStore, asked_by, file_of, functions_text};
ghost use Rattle.r3_top.specs.Functions.{IsRefused};
ghost use Rattle.r3_top.specs.Statuses.{GoesAs, HasLine, IsFault, IsStatus, status_of};
ghost use Rattle.r3_top.specs.Refusals.{EndsAtFile, IsFunctionFile, IsNoStore, IsOthers};
ghost use Rattle.r3_top.specs.Causes.{HasScript, HasStore, IsReady, IsStatusOf, IsTaken};
ghost use Rattle.r3_top.specs.Closes.{CallsNeither, EndsAtOnce, EndsAtStore};
ghost use Rattle.r3_top.specs.Going.{CheckGoes, FailsToSay, GenGoes, RecoverGoes, RunGoes};
ghost use Rattle.r3_top.specs.Ends.{CheckComes, EndsAs, GenComes, RecoverComes, RunComes};
ghost use Rattle.r3_top.specs.declared.functions.FunctionsFault.{FunctionsFault};
ghost use Rattle.r3_top.specs.declared.halt.Halt.{Halt as Halted};
ghost use Rattle.r3_top.specs.declared.halt.Halt.TheVariants as halts;

use crate::command::command;
use crate::halt::{Halt, last_line, status_of};
use r3_desk::{Desk, Shelf, Source};
use r3_gen::BANK;
use std::alloc::Global;

// Says the last line, and tells the status.
fn end<D: Desk>(alloc: Global, desk: &mut D, halt: Halt) -> u8
    ensures closes { EndsAtOnce D.image D.may_leave D.moment D.reach D.said D.asked desk.old desk.new halt result }
    ensures neither { CallsNeither D.size D.syncs D.disk_faults D.ask_faults desk.old desk.new }
    ensures image { D.image desk.new ≡ D.image desk.old }
    ensures disk_faults { D.disk_faults desk.new ≡ D.disk_faults desk.old }
    ensures status { (result ≡ 3) ⊎ (result ≡ 5) ⊎ (result ≡ status_of halt) }
    ensures own { (HasLine halt → ⊥) → result ≡ status_of halt }
    ensures say { result ≡ 5 → ((halt ≡ halts.Say) × (D.say_faults desk.new ≡ D.say_faults desk.old))
        ⊎ ((halt ≡ halts.Say → ⊥) × Rose (D.say_faults desk.old) (D.say_faults desk.new)) }
    ensures say_kept { (result ≡ 5 → ⊥) → D.say_faults desk.new ≡ D.say_faults desk.old }
{
    let Ok(line) = last_line(alloc, halt) else {
        return 3;
    };
    if line.is_empty() {
        return status_of(halt);
    }
    match desk.say(&line) {
        Ok(()) => status_of(halt),
        Err(_) => 5,
    }
}

/// Runs the command that the words say, with everything outside handed in, and tells the exit status.
///
/// The words are read first, then the function file, then the store; then the program is compared, and then the work
/// is done. The functions of `gen` are `BANK`, and it reads no file but the store.
///
/// | status | when |
/// |---|---|
/// | 0 | the command is done; of `run`, the script has ended and each of its lines was answered |
/// | 2 | the words are no command |
/// | 3 | there was no memory |
/// | 4, 5 | the disk or the output has failed |
/// | 6 | the function file or the script can't be read |
/// | 7 | the function file is refused |
/// | 8 | the store's file is no store |
/// | 9 | the store was begun with another program |
/// | 10 | the function file has more than 2^20 bytes, or the script more than 2^26 |
pub fn top<D: Desk, S: Source, F: Shelf>(
    alloc: Global,
    words: &[String],
    desk: &mut D,
    script: &mut S,
    shelf: &mut F,
) -> u8
    requires { NothingPending (D.image desk.old) (D.may_leave desk.old) }

    // The headline: what is said, asked and stored is the machine's, unless there is no memory or the disk or the
    // output has failed.
    ensures runs { (functions text : Text) → asked_by (map string_bytes words.now) ≡ Some (run_form functions) →
        F.text_of shelf.old functions ≡ Some text →
        IsFault result ⊎ EndsAs (RunComes D.image D.may_leave D.moment D.reach D.said D.asked desk.old desk.new
        (S.left script.old) (S.left script.new) text) result }
    ensures recovers { (functions text : Text) (turns : ℕ) →
        asked_by (map string_bytes words.now) ≡ Some (recover_form functions turns) →
        F.text_of shelf.old functions ≡ Some text →
        IsFault result ⊎ EndsAs (RecoverComes D.image D.may_leave D.moment D.reach D.said D.asked desk.old desk.new turns text) result }
    ensures generates { (number count : ℕ) → asked_by (map string_bytes words.now) ≡ Some (gen_form number count) →
        IsFault result ⊎ EndsAs (GenComes D.image D.may_leave D.moment D.reach D.said D.asked desk.old desk.new number count BANK.now) result }
    ensures recover_reads_none { (functions : Text) (turns : ℕ) →
        asked_by (map string_bytes words.now) ≡ Some (recover_form functions turns) → script.new ≡ script.old }
    ensures gen_reads_none { (number count : ℕ) → asked_by (map string_bytes words.now) ≡ Some (gen_form number count) →
        (script.new ≡ script.old) × (shelf.new ≡ shelf.old) × (result ≡ 6 → ⊥) × (result ≡ 10 → ⊥) }
    ensures checks { (functions text : Text) → asked_by (map string_bytes words.now) ≡ Some (check_form functions) →
        F.text_of shelf.old functions ≡ Some text →
        IsFault result ⊎ EndsAs (CheckComes D.image D.said D.asked desk.old desk.new text) result }
    ensures check_reads_none { (functions : Text) → asked_by (map string_bytes words.now) ≡ Some (check_form functions) →
        script.new ≡ script.old }
    ensures opens_no_store { (functions : Text) → asked_by (map string_bytes words.now) ≡ Some (check_form functions) →
        (D.image desk.new ≡ D.image desk.old) × (D.disk_faults desk.new ≡ D.disk_faults desk.old) }

    // However it ends on a store of this program, a crash at any moment leaves a prefix of the machine's history with
    // all that was acknowledged.
    ensures run_goes { (functions text image lines : Text) (h : List Entry) →
        asked_by (map string_bytes words.now) ≡ Some (run_form functions) →
        F.text_of shelf.old functions ≡ Some text → D.image desk.old ≡ Some image → S.left script.old ≡ Some lines →
        IsHistoryOf h image → HasProgram h text →
        GoesAs (RunGoes D.image D.may_leave D.moment D.reach D.said D.asked desk.old desk.new text h lines) result }
    ensures recover_goes { (functions text image : Text) (turns : ℕ) (h : List Entry) →
        asked_by (map string_bytes words.now) ≡ Some (recover_form functions turns) →
        F.text_of shelf.old functions ≡ Some text → D.image desk.old ≡ Some image →
        IsHistoryOf h image → HasProgram h text →
        GoesAs (RecoverGoes D.image D.may_leave D.moment D.reach D.said D.asked desk.old desk.new text h turns) result }
    ensures gen_goes { (number count : ℕ) (image : Text) (h : List Entry) →
        asked_by (map string_bytes words.now) ≡ Some (gen_form number count) →
        D.image desk.old ≡ Some image → IsHistoryOf h image → HasProgram h BANK.now →
        GoesAs (GenGoes D.image D.may_leave D.moment D.reach D.said D.asked desk.old desk.new BANK.now h number count) result }

    // Where the output has failed, all that was to be said before was said, and nothing else.
    ensures run_say_whole { (functions text image lines : Text) (h : List Entry) →
        asked_by (map string_bytes words.now) ≡ Some (run_form functions) →
        F.text_of shelf.old functions ≡ Some text → D.image desk.old ≡ Some image → S.left script.old ≡ Some lines →
        IsHistoryOf h image → HasProgram h text → result ≡ 5 →
        FailsToSay (RunGoes D.image D.may_leave D.moment D.reach D.said D.asked desk.old desk.new text h lines) }
    ensures recover_say_whole { (functions text image : Text) (turns : ℕ) (h : List Entry) →
        asked_by (map string_bytes words.now) ≡ Some (recover_form functions turns) →
        F.text_of shelf.old functions ≡ Some text → D.image desk.old ≡ Some image →
        IsHistoryOf h image → HasProgram h text → result ≡ 5 →
        FailsToSay (RecoverGoes D.image D.may_leave D.moment D.reach D.said D.asked desk.old desk.new text h turns) }
    ensures gen_say_whole { (number count : ℕ) (image : Text) (h : List Entry) →
        asked_by (map string_bytes words.now) ≡ Some (gen_form number count) →
        D.image desk.old ≡ Some image → IsHistoryOf h image → HasProgram h BANK.now → result ≡ 5 →
        FailsToSay (GenGoes D.image D.may_leave D.moment D.reach D.said D.asked desk.old desk.new BANK.now h number count) }

    // However a check ends, it has said the counts or a first part of them, or nothing but its last line, and the disk is
    // as it was.
    ensures check_goes { (functions text : Text) → asked_by (map string_bytes words.now) ≡ Some (check_form functions) →
        F.text_of shelf.old functions ≡ Some text →
        GoesAs (CheckGoes D.image D.may_leave D.moment D.reach D.said D.asked D.syncs desk.old desk.new text) result }
    ensures check_say_whole { (functions text : Text) → asked_by (map string_bytes words.now) ≡ Some (check_form functions) →
        F.text_of shelf.old functions ≡ Some text → result ≡ 5 →
        FailsToSay (CheckGoes D.image D.may_leave D.moment D.reach D.said D.asked D.syncs desk.old desk.new text) }

    // Where the script has failed, each line that ends before was answered; where the function file can't be read,
    // nothing was done.
    ensures script_fails { (functions text : Text) → asked_by (map string_bytes words.now) ≡ Some (run_form functions) →
        F.text_of shelf.old functions ≡ Some text → (S.faults script.new ≡ S.faults script.old → ⊥) →
        (result ≡ 6) × RunComes D.image D.may_leave D.moment D.reach D.said D.asked desk.old desk.new
        (S.left script.old) (S.left script.new) text (Some halts.Script) [] }
    ensures run_input { (functions text : Text) → asked_by (map string_bytes words.now) ≡ Some (run_form functions) →
        F.text_of shelf.old functions ≡ Some text → result ≡ 6 →
        (Rose (F.faults shelf.old) (F.faults shelf.new) × (desk.new ≡ desk.old) × (script.new ≡ script.old))
        ⊎ (Rose (S.faults script.old) (S.faults script.new)
        × RunComes D.image D.may_leave D.moment D.reach D.said D.asked desk.old desk.new
        (S.left script.old) (S.left script.new) text (Some halts.Script) []) }

    // The words come first, then the function file, then the store, and then the script: what is refused at one of
    // them leaves all that comes behind it alone.
    ensures words_first { asked_by (map string_bytes words.now) ≡ None →
        EndsAtOnce D.image D.may_leave D.moment D.reach D.said D.asked desk.old desk.new halts.Usage result
        × CallsNeither D.size D.syncs D.disk_faults D.ask_faults desk.old desk.new
        × (script.new ≡ script.old) × (shelf.new ≡ shelf.old) }
    ensures shelf_first { (F.faults shelf.new ≡ F.faults shelf.old → ⊥) →
        (result ≡ 6) × (desk.new ≡ desk.old) × (script.new ≡ script.old) }
    ensures file_first { (form : Form) (text : Text) → asked_by (map string_bytes words.now) ≡ Some form →
        functions_text (F.text_of shelf.old) BANK.now form ≡ Some text → (IsFunctionFile text → ⊥) →
        (halt : Halted) × EndsAtFile text (Some halt)
        × EndsAtOnce D.image D.may_leave D.moment D.reach D.said D.asked desk.old desk.new halt result
        × CallsNeither D.size D.syncs D.disk_faults D.ask_faults desk.old desk.new × (script.new ≡ script.old) }
    ensures refused_first { (form : Form) (text image : Text) → asked_by (map string_bytes words.now) ≡ Some form →
        functions_text (F.text_of shelf.old) BANK.now form ≡ Some text → OnStore form ⊤ → D.image desk.old ≡ Some image →
        (IsReady text (Some image) → ⊥) → (script.new ≡ script.old)
        × GoesAs (EndsAtStore D.image D.may_leave D.moment D.reach D.said D.asked D.syncs desk.old desk.new text) result }

    // Each status has its cause, and each cause its status: what stands first in the way is told, and 0 where nothing
    // does, unless something fails or there is no memory.
    ensures known { IsStatus result }
    ensures statuses { (form : Form) (text image lines : Text) → asked_by (map string_bytes words.now) ≡ Some form →
        functions_text (F.text_of shelf.old) BANK.now form ≡ Some text → D.image desk.old ≡ Some image →
        S.left script.old ≡ Some lines →
        IsStatusOf form text image lines (Rose (D.disk_faults desk.old) (D.disk_faults desk.new))
        (Rose (D.say_faults desk.old) (D.say_faults desk.new))
        (Rose (S.faults script.old) (S.faults script.new) ⊎ Rose (F.faults shelf.old) (F.faults shelf.new)) result }
    ensures failures { ((D.disk_faults desk.new ≡ D.disk_faults desk.old → ⊥) → result ≡ 4)
        × ((D.say_faults desk.new ≡ D.say_faults desk.old → ⊥) → result ≡ 5)
        × ((S.faults script.new ≡ S.faults script.old → ⊥) → result ≡ 6) }
    ensures done { result ≡ 0 → (D.disk_faults desk.new ≡ D.disk_faults desk.old)
        × (D.say_faults desk.new ≡ D.say_faults desk.old) × (S.faults script.new ≡ S.faults script.old)
        × (F.faults shelf.new ≡ F.faults shelf.old) }
    ensures ended { (functions : Text) → asked_by (map string_bytes words.now) ≡ Some (run_form functions) →
        result ≡ 0 → S.ended script.new ≡ true }
    ensures usage { result ≡ 2 → asked_by (map string_bytes words.now) ≡ None }
    ensures disk { result ≡ 4 → Rose (D.disk_faults desk.old) (D.disk_faults desk.new) }
    ensures say { result ≡ 5 → Rose (D.say_faults desk.old) (D.say_faults desk.new) }
    ensures input { result ≡ 6 →
        Rose (S.faults script.old) (S.faults script.new) ⊎ Rose (F.faults shelf.old) (F.faults shelf.new) }
    ensures functions { (form : Form) (text : Text) → asked_by (map string_bytes words.now) ≡ Some form →
        functions_text (F.text_of shelf.old) BANK.now form ≡ Some text →
        result ≡ 7 → ((fault : FunctionsFault) × IsRefused text fault) × (IsFunctionFile text → ⊥) }
    ensures store { (form : Form) (text : Text) → asked_by (map string_bytes words.now) ≡ Some form →
        functions_text (F.text_of shelf.old) BANK.now form ≡ Some text →
        result ≡ 8 → (entry : ℕ) × IsNoStore (D.image desk.old) entry }
    ensures program { (form : Form) (text : Text) → asked_by (map string_bytes words.now) ≡ Some form →
        functions_text (F.text_of shelf.old) BANK.now form ≡ Some text →
        result ≡ 9 → IsOthers text (D.image desk.old) }
    ensures long { (form : Form) (text : Text) → asked_by (map string_bytes words.now) ≡ Some form →
        functions_text (F.text_of shelf.old) BANK.now form ≡ Some text →
        result ≡ 10 → (2 ^ 20 < length text) ⊎ ForSome (S.left script.old) (λ lines. 2 ^ 26 < length lines) }

    // Where nothing stands in the way and nothing fails, the command is done, or there is no memory.
    ensures completes { (form : Form) (path text : Text) → asked_by (map string_bytes words.now) ≡ Some form →
        file_of form ≡ Some path → F.text_of shelf.old path ≡ Some text → IsTaken text →
        HasStore form text (D.image desk.old) → HasScript form (S.left script.old) →
        (Rose (D.disk_faults desk.old) (D.disk_faults desk.new) → ⊥) → (Rose (D.say_faults desk.old) (D.say_faults desk.new) → ⊥) →
        (Rose (S.faults script.old) (S.faults script.new) → ⊥) → (Rose (F.faults shelf.old) (F.faults shelf.new) → ⊥) →
        (result ≡ 0) ⊎ (result ≡ 3) }
    ensures gen_completes { (number count : ℕ) → asked_by (map string_bytes words.now) ≡ Some (gen_form number count) →
        IsTaken BANK.now → IsReady BANK.now (D.image desk.old) →
        (Rose (D.disk_faults desk.old) (D.disk_faults desk.new) → ⊥) → (Rose (D.say_faults desk.old) (D.say_faults desk.new) → ⊥) →
        (result ≡ 0) ⊎ (result ≡ 3) }
{
    match command(alloc, words, desk, script, shelf) {
        Ok(()) => 0,
        Err(halt) => end(alloc, desk, halt),
    }
}

//! The lines of the program's calls, as lines of a script.

ghost use Rattle.std.specs.Prelude.{◌≡◌, ℕ, List, [], ◌∷◌, ◌++◌};
ghost use Rattle.std.specs.List.{AllByRecursion};
ghost use Rattle.r3_model.specs.Forms.{line_of};
ghost use Rattle.r3_model.specs.Generator.{generated};
ghost use Rattle.r3_model.specs.Language.{Text};
ghost use Rattle.r3_model.specs.Script.{Line as L, Drain};
ghost use Rattle.r3_serve.specs.Scripted.{script_lines, ended_script_lines};
ghost use Rattle.r3_repeats.specs.Steps.{IsOfScript};
ghost use Rattle.r3_invoked.specs.Left.{AreBegun};

/// Whatever the script is, its lines are such as the laws of calls on one store ask for, and so are a drain and the
/// generator's lines, and what of them a call had begun.
pub fn lines_keep_limits()
    ensures line { (bytes : Text) → IsOfScript (line_of bytes) }
    ensures script { (script : Text) (done later : List L) →
        script_lines script ≡ done ++ later → AllByRecursion IsOfScript done }
    ensures ended { (bytes : Text) (done later : List L) →
        ended_script_lines bytes ≡ done ++ later → AllByRecursion IsOfScript done }
    ensures drain { (turns : ℕ) → AllByRecursion IsOfScript (Drain turns ∷ []) }
    ensures generated { (number count : ℕ) (done later : List L) →
        generated number count ≡ done ++ later → AllByRecursion IsOfScript done }
    ensures begun { (lines : List L) (line : L) (begun : List L) →
        AllByRecursion IsOfScript (lines ++ line ∷ []) → AreBegun lines line begun → AllByRecursion IsOfScript begun }
{}

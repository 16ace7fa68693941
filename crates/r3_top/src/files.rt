//! The function file of a command.

ghost use Rattle.std.specs.Prelude.{◌≡◌, ◌⊎◌, ◌≤◌, ◌<◌, ◌^◌, List, Err, IfOk, OnErr, length};
ghost use Rattle.std.specs.Option.{ForSome};
ghost use Rattle.fn_tree.specs.declared.program.Item.{Item};
ghost use Rattle.r3_desk.specs.Causes.{Rose};
ghost use Rattle.r3_top.specs.Functions.{IsAccepted, IsRefused};
ghost use Rattle.r3_top.specs.declared.functions.FunctionsFault.{FunctionsFault};

use crate::functions::{NoFunctions, functions_of};
use crate::halt::Halt;
use fn_tree::checked::Checked;
use r3_desk::{Shelf, ShelfFault};
use std::alloc::Global;

const MAX_TEXT: usize = 1 << 20;

/// The function file's text.
pub fn fetch<F: Shelf>(alloc: Global, shelf: &mut F, path: &str) -> Result<Vec<u8>, Halt>
    ensures text { IfOk result (λ v. ForSome (F.text_of shelf.old path.now) (λ text. v.items ≡ text)) }
    ensures short { IfOk result (λ v. length v.items ≤ 2 ^ 20) }
    ensures long { result ≡ Err Halt.LongFile → ForSome (F.text_of shelf.old path.now) (λ text. 2 ^ 20 < length text) }
    ensures stops { OnErr result ((result ≡ Err Halt.Memory) ⊎ (result ≡ Err Halt.Files) ⊎ (result ≡ Err Halt.LongFile)) }
    ensures files { result ≡ Err Halt.Files → Rose (F.faults shelf.old) (F.faults shelf.new) }
    ensures files_kept { (result ≡ Err Halt.Files → ⊥) → F.faults shelf.new ≡ F.faults shelf.old }
{
    match shelf.text(alloc, path, MAX_TEXT as u64) {
        Ok(text) if text.len() > MAX_TEXT => Err(Halt::LongFile),
        Ok(text) => Ok(text),
        Err(ShelfFault::Fault) => Err(Halt::Files),
        Err(ShelfFault::TooLong) => Err(Halt::LongFile),
        Err(ShelfFault::Memory) => Err(Halt::Memory),
    }
}

/// The functions of a text.
pub fn accept(alloc: Global, text: &[u8]) -> Result<Checked, Halt>
    requires { length text.now ≤ 2 ^ 20 }
    ensures accepted { IfOk result (λ program. IsAccepted text.now program) }
    ensures faultless { IfOk result (λ _. (fault : FunctionsFault) → IsRefused text.now fault → ⊥) }
    ensures refused { (fault : _) → result ≡ Err (Halt.Functions fault) → IsRefused text.now fault }
    ensures none { (fault : _) → result ≡ Err (Halt.Functions fault) →
        (items : List Item) → IsAccepted text.now items → ⊥ }
    ensures halts { OnErr result ((result ≡ Err Halt.Memory) ⊎ ((fault : _) × (result ≡ Err (Halt.Functions fault)))) }
{
    match functions_of(alloc, text) {
        Ok(program) => Ok(program),
        Err(NoFunctions::Refused { fault }) => Err(Halt::Functions { fault }),
        Err(NoFunctions::Memory) => Err(Halt::Memory),
    }
}

//! Checks a program.

ghost use Rattle.std.specs.Prelude.{◌≡◌, take, true, None, ◌↔◌, IfOk};
ghost use Rattle.fn_tree.specs.Soundness as meaning_of;
ghost use Rattle.fn_tree.specs.Soundness.{IsSound, is_distinct};
ghost use Rattle.fn_check.specs.Answers.{Tells, Finds};
ghost use Rattle.fn_check.specs.FirstFault.{first_fault, IsReadable};
ghost use Rattle.fn_check.specs.FirstFault as meaning;
ghost use Rattle.fn_check.specs.Answers.{Answers};
ghost use Rattle.fn_check.specs.BodyCheck as body_meaning;
ghost use Rattle.fn_check.specs.BodyCheck.{kind_of};
ghost use Rattle.fn_check.specs.ExpressionCheck.{expr_check};

use crate::declarations::{Declarations, are_distinct, name_of, params_of};
use crate::expression::expression;
use crate::fault::{CheckError, CheckKind, Stop};
use crate::statement::{BodyKind, block};
use crate::variables::Variables;
use fn_tree::checked::Checked;
use fn_tree::expr::Expr;
use fn_tree::program::{Item, Program};
use fn_tree::stmt::Stmt;
use r3_value::Txt;
use std::alloc::Global;

/// The program, if it is sound. Else the first fault: that of the first item that has one, and in it
/// the one that stands first in the text; at one place the kinds come in the order of `CheckKind`.
///
/// Each name of the program has 1 to 64 bytes, and each item has at most 16 parameters. An item whose
/// number is no `u32` takes more memory than there is.
#[tactic(auto, using(crate::proofs::ProgramLemmas::no_fault_is_sound))]
pub fn check(alloc: Global, program: Program) -> Result<Checked, CheckError>
    requires readable { IsReadable program.items.items }
    ensures program { IfOk result (λ c. c ≡ program.items.items) }
    ensures fault { Tells result (first_fault program.items.items) }

    // So the answer is Ok exactly where the program is sound.
    ensures sound { (first_fault program.items.items ≡ None) ↔ IsSound program.items.items }
{
    search(alloc, program.items.as_slice())?;
    Ok(Checked::new(program))
}

// The first fault of the items.
fn search(alloc: Global, items: &[Item]) -> Result<(), CheckError>
    ensures { Tells result (first_fault items.now) }
{
    let declared = Declarations::of(alloc, items)?;
    let mut before = 0;
    for item in items {
        let found = item_check(alloc, &declared, before, item);
        before += 1;
        answer(before, found)?;
    }
    Ok(())
}

// The answer for the item of this number.
fn answer(number: usize, found: Result<(), Stop>) -> Result<(), CheckError>
    ensures { Answers result number found }
{
    match found {
        Ok(()) => Ok(()),
        Err(Stop::Fault(kind)) => match u32::try_from(number) {
            Ok(item) => Err(CheckError::Check { item, kind }),
            Err(_) => Err(CheckError::Memory),
        },
        Err(Stop::Memory) => Err(CheckError::Memory),
    }
}

// The first fault of an item behind so many others.
fn item_check(
    alloc: Global,
    items: &Declarations<'_>,
    before: usize,
    item: &Item,
) -> Result<(), Stop>
    ensures { Finds result (meaning.item_check (take before items.now) items.now item.now) }
{
    if items.is_before(name_of(item), before) {
        return Err(Stop::Fault(CheckKind::DuplicateName));
    }
    if !are_distinct(params_of(item)) {
        return Err(Stop::Fault(CheckKind::DuplicateName));
    }
    inside_check(alloc, items, before, item)
}

fn inside_check(
    alloc: Global,
    items: &Declarations<'_>,
    before: usize,
    item: &Item,
) -> Result<(), Stop>
    requires distinct { is_distinct (meaning_of.params_of item.now) ≡ true }
    ensures { Finds result (meaning.inside_check (take before items.now) items.now item.now) }
{
    match item {
        Item::Helper { params, body, .. } => helper(alloc, items, before, params.as_slice(), body),
        Item::Txn { params, body, .. } => {
            let kind = BodyKind::Txn;
            body_check(alloc, items, kind, params.as_slice(), body.as_slice())
        }
        Item::Flow { params, body, .. } => {
            let kind = BodyKind::Flow;
            body_check(alloc, items, kind, params.as_slice(), body.as_slice())
        }
        _ => Ok(()),
    }
}

fn helper(
    alloc: Global,
    items: &Declarations<'_>,
    before: usize,
    params: &[Txt],
    body: &Expr,
) -> Result<(), Stop>
    requires distinct { is_distinct params.now ≡ true }
    ensures { Finds result (expr_check (take before items.now) items.now body.now params.now) }
{
    let scope = Variables::of(alloc, params)?;
    expression(items, before, body, &scope)?;
    Ok(())
}

fn body_check(
    alloc: Global,
    items: &Declarations<'_>,
    kind: BodyKind,
    params: &[Txt],
    body: &[Stmt],
) -> Result<(), Stop>
    requires distinct { is_distinct params.now ≡ true }
    ensures { Finds result (body_meaning.body_check items.now (kind_of kind) params.now body.now) }
{
    let mut scope = Variables::of(alloc, params)?;
    block(items, kind, body, &mut scope)
}

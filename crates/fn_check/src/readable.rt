//! Whether names and parameters keep the limits of a text.

ghost use Rattle.std.specs.Prelude.{◌≡◌, ◌↔◌, IsTrue};
ghost use Rattle.fn_tree.specs.Soundness as meaning;
ghost use Rattle.fn_tree.specs.Soundness.{body_names};
ghost use Rattle.fn_check.specs.FirstFault.{IsReadable, is_readable_item, names_of, all_fit};

use crate::declarations::{name_of, params_of};
use fn_tree::program::{Item, Program};
use fn_tree::stmt::Stmt;
use r3_value::Txt;

/// Whether each name has 1 to 64 bytes, and each item at most 16 parameters: what `check` asks.
#[tactic(auto, using(crate::proofs::ReadableLemmas::readable_is))]
pub fn is_readable(program: &Program) -> bool
    ensures { IsTrue result ↔ IsReadable program.now.items.items }
{
    items_fit(program.items.as_slice())
}

fn items_fit(items: &[Item]) -> bool
    ensures { result ≡ meaning.each_passes is_readable_item items.now }
{
    for item in items {
        if !item_fits(item) {
            return false;
        }
    }
    true
}

#[tactic(auto, using(crate::proofs::ReadableLemmas::item_is))]
fn item_fits(item: &Item) -> bool
    ensures { result ≡ is_readable_item item.now }
{
    let params = params_of(item);
    let named = name_fits(name_of(item)) && names_fit(params) && body_fits(item);
    named && params.len() < 17
}

fn name_fits(name: &Txt) -> bool
    ensures { result ≡ meaning.is_name name.now }
{
    let len = name.as_str().len();
    0 < len && len < 65
}

fn names_fit(names: &[Txt]) -> bool
    ensures { result ≡ meaning.are_names names.now }
{
    for name in names {
        if !name_fits(name) {
            return false;
        }
    }
    true
}

// The names that are bound in an item's body.
#[tactic(auto, using(crate::proofs::ReadableLemmas::all_fit_is))]
fn body_fits(item: &Item) -> bool
    ensures { result ≡ meaning.are_names (body_names item.now) }
{
    match item {
        Item::Txn { body, .. } => block_fits(body.as_slice()),
        Item::Flow { body, .. } => block_fits(body.as_slice()),
        _ => true,
    }
}

#[cycle(fits)]
fn block_fits(body: &[Stmt]) -> bool
    ensures { result ≡ all_fit body.now }
{
    for s in body {
        if !statement_fits(s) {
            return false;
        }
    }
    true
}

#[cycle(fits)]
#[tactic(auto, using(crate::proofs::ReadableLemmas::names_at_each))]
fn statement_fits(s: &Stmt) -> bool
    ensures { result ≡ meaning.are_names (names_of s.now) }
{
    match s {
        Stmt::Let { name, .. } => name_fits(name),
        Stmt::If { yes, no, .. } => {
            if !block_fits(yes.as_slice()) {
                return false;
            }
            match no {
                None => true,
                Some(no) => block_fits(no.as_slice()),
            }
        }
        Stmt::While { body, .. } => block_fits(body.as_slice()),
        Stmt::Each { name, body, .. } => name_fits(name) && block_fits(body.as_slice()),
        Stmt::Try {
            body,
            name,
            handler,
        } => { block_fits(body.as_slice()) && name_fits(name) && block_fits(handler.as_slice()) }
        _ => true,
    }
}

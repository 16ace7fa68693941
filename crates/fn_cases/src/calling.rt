//! A transaction that is called by its name.

ghost use Rattle.std.specs.Prelude.{◌≡◌, IfOk};
ghost use Rattle.fn_tree.specs.Declarations as meaning;
ghost use Rattle.fn_cases.specs.Transacts.{Transacts};

use fn_tree::checked::Checked;
use fn_tree::flow::AskKind;
use fn_tree::look::TxnRun;
use fn_tree::program::Item;
use fn_txn::{View, run_txn};
use r3_steps::Steps;
use r3_value::{Memory, Val};
use std::alloc::Global;
use std::sync::ledger::Ledger;

// What an item is to a call of a name with so many arguments.
fn call_of(item: &Item, name: &str, count: usize) -> Option<AskKind>
    ensures { result ≡ meaning.call_of name.now count item.now }
{
    match item {
        Item::Outside { name: x, params } => {
            if x.as_str() == name && params.len() == count {
                Some(AskKind::Outside)
            } else {
                None
            }
        }
        Item::Txn {
            serial: _,
            name: x,
            params,
            body: _,
        } => {
            if x.as_str() == name && params.len() == count {
                Some(AskKind::Txn)
            } else {
                None
            }
        }
        _ => None,
    }
}

// What a call of a name with so many arguments asks for.
fn called(items: &[Item], name: &str, count: usize) -> Option<AskKind>
    ensures { result ≡ meaning.called items.now name.now count }
{
    for item in items {
        if let Some(kind) = call_of(item, name, count) {
            return Some(kind);
        }
    }
    None
}

/// The run of the transaction of a name on a map, or None where the program has none of that name
/// with as many parameters as the value lists. Each expression node that is evaluated takes one step.
pub fn transact<M: View, L: Ledger>(
    alloc: Global,
    program: &Checked,
    name: &str,
    args: &Val,
    view: &M,
    steps: &mut Steps<L>,
) -> Result<Option<TxnRun>, Memory>
    ensures run { IfOk result (λ run. Transacts program.now (M.versions view.now) name.now args.now
        run steps.old steps.new) }
{
    let items = program.program().items.as_slice();
    match args {
        Val::List(vs) => match called(items, name, vs.items().len()) {
            Some(AskKind::Txn) => {
                let run = run_txn(alloc, program, name, args, view, steps)?;
                Ok(Some(run))
            }
            _ => Ok(None),
        },
        _ => Ok(None),
    }
}

//! Whether an item is what a use of its name needs.

ghost use Rattle.std.specs.Option.{option_copied};
ghost use Rattle.std.specs.Prelude.{◌≡◌};
ghost use Rattle.fn_check.specs.Uses as meaning;

use crate::fault::CheckKind;
use fn_tree::program::Item;
use r3_value::Txt;

fn takes(params: &[Txt], count: usize) -> Result<(), CheckKind>
    ensures { result ≡ meaning.takes params.now count }
{
    if params.len() == count {
        Ok(())
    } else {
        Err(CheckKind::Arity)
    }
}

/// A table.
pub fn table_use(found: Option<&Item>) -> Result<(), CheckKind>
    ensures { result ≡ meaning.table_use (option_copied found.entry) }
{
    match found {
        None => Err(CheckKind::UnknownName),
        Some(Item::Table { .. }) => Ok(()),
        Some(_) => Err(CheckKind::Kind),
    }
}

/// A transaction or an outside, called with so many arguments.
pub fn call_use(found: Option<&Item>, count: usize) -> Result<(), CheckKind>
    ensures { result ≡ meaning.call_use (option_copied found.entry) count }
{
    match found {
        None => Err(CheckKind::UnknownName),
        Some(Item::Outside { params, .. }) => takes(params.as_slice(), count),
        Some(Item::Txn { params, .. }) => takes(params.as_slice(), count),
        Some(_) => Err(CheckKind::Kind),
    }
}

/// A flow, spawned with so many arguments.
pub fn spawn_use(found: Option<&Item>, count: usize) -> Result<(), CheckKind>
    ensures { result ≡ meaning.spawn_use (option_copied found.entry) count }
{
    match found {
        None => Err(CheckKind::UnknownName),
        Some(Item::Flow { params, .. }) => takes(params.as_slice(), count),
        Some(_) => Err(CheckKind::Kind),
    }
}

/// A helper, called with so many arguments where it may be called if it is declared early.
pub fn helper_use(found: Option<&Item>, early: bool, count: usize) -> Result<(), CheckKind>
    ensures { result ≡ meaning.helper_use (option_copied found.entry) early count }
{
    match found {
        None => Err(CheckKind::UnknownName),
        Some(Item::Helper { params, .. }) => {
            if early {
                takes(params.as_slice(), count)
            } else {
                Err(CheckKind::CallOrder)
            }
        }
        Some(_) => Err(CheckKind::Kind),
    }
}

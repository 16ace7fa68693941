//! What a program declares.

ghost use Rattle.std.specs.Prelude.{◌≡◌, List, Option, [], MatchOption, codes};
ghost use Rattle.fn_tree.specs.Declarations as meaning;
ghost use Rattle.fn_tree.specs.Ends.{Failed};
ghost use Rattle.fn_walk.specs.Runs.{place_at};
ghost use Rattle.fn_tree.specs.Flow.{begun_among, begun_on};
ghost use Rattle.fn_tree.specs.declared.program.Item.{Item as I};
ghost use Rattle.r3_value.specs.declared.value.Val.{Val};

use fn_tree::flow::AskKind;
use fn_tree::program::Item;
use fn_tree::stmt::Stmt;
use r3_value::Txt;

fn call_of(item: &Item, name: &Txt, count: usize) -> Option<AskKind>
    ensures { result ≡ meaning.call_of name.now count item.now }
{
    match item {
        Item::Outside { name: x, params } => {
            if x.as_str() == name.as_str() && params.len() == count {
                Some(AskKind::Outside)
            } else {
                None
            }
        }
        Item::Txn {
            serial: _,
            name: x,
            params,
            body: _,
        } => {
            if x.as_str() == name.as_str() && params.len() == count {
                Some(AskKind::Txn)
            } else {
                None
            }
        }
        _ => None,
    }
}

fn spawn_of(item: &Item, name: &Txt, count: usize) -> Option<AskKind>
    ensures { result ≡ meaning.spawn_of name.now count item.now }
{
    match item {
        Item::Flow {
            name: x,
            params,
            body: _,
        } => {
            if x.as_str() == name.as_str() && params.len() == count {
                Some(AskKind::Child)
            } else {
                None
            }
        }
        _ => None,
    }
}

/// What a call of a name with so many arguments asks for.
pub fn called(items: &[Item], name: &Txt, count: usize) -> Option<AskKind>
    ensures { result ≡ meaning.called items.now name.now count }
{
    for item in items {
        if let Some(kind) = call_of(item, name, count) {
            return Some(kind);
        }
    }
    None
}

/// What a spawn of a name with so many arguments asks for.
pub fn spawned(items: &[Item], name: &Txt, count: usize) -> Option<AskKind>
    ensures { result ≡ meaning.spawned items.now name.now count }
{
    for item in items {
        if let Some(kind) = spawn_of(item, name, count) {
            return Some(kind);
        }
    }
    None
}

/// The parameters and the body of the workflow of a name.
pub fn flow<'a>(items: &'a [Item], name: &str) -> Option<(&'a [Txt], &'a [Stmt])>
    ensures { (all : List I) (args : Option (List Val)) → MatchOption result (begun_among all items.now name.now args ≡ Failed (codes "unknown_function") (place_at [] 0 100000 0)) (λ r. begun_among all items.now name.now args ≡ begun_on all r.0.now r.1.now args) }
{
    for item in items {
        if let Item::Flow {
            name: x,
            params,
            body,
        } = item
        {
            if x.as_str() == name {
                return Some((params.as_slice(), body.as_slice()));
            }
        }
    }
    None
}

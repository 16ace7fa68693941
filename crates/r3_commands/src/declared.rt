//! What a program declares.

ghost use Rattle.std.specs.Prelude.{◌≡◌, ◌≤◌, [], ◌∷◌, length, IsTrue, OnSome, filter_map, bytes_eq};
ghost use Rattle.std.specs.List.{list_any};
ghost use Rattle.fn_tree.specs.Declarations as declarations;
ghost use Rattle.fn_tree.specs.Declarations.{any};
ghost use Rattle.r3_model.specs.Language.{Queue};
ghost use Rattle.r3_model.specs.Functions.{language_of, queue_of, arity_of, arity_by, first_some};

use fn_tree::checked::Checked;
use fn_tree::program::Item;

/// Whether the program declares a table of that name.
pub fn has_table(program: &Checked, table: &str) -> bool
    ensures value { result ≡ (language_of program.now).has_table table.now }
    ensures short { IsTrue result → length table.now ≤ 64 }
{
    has_table_in(&program.program().items, table)
}

/// Whether the program declares a queue of that name.
pub fn has_queue(program: &Checked, queue: &str) -> bool
    ensures value { result ≡ list_any (λ (q : Queue). bytes_eq q.name queue.now) (language_of program.now).queues }
    ensures short { IsTrue result → length queue.now ≤ 64 }
{
    has_queue_in(&program.program().items, queue)
}

/// The number of parameters of the workflow of that name, if one is declared.
pub fn arity(program: &Checked, function: &str) -> Option<usize>
    ensures value { result ≡ (language_of program.now).arity function.now }
    ensures short { OnSome result (length function.now ≤ 64) }
{
    arity_in(&program.program().items, function)
}

fn is_table(item: &Item, table: &str) -> bool
    ensures { result ≡ declarations.is_table table.now item.now }
{
    match item {
        Item::Table { name } => name.as_str() == table,
        _ => false,
    }
}

fn has_table_in(items: &[Item], table: &str) -> bool
    ensures { result ≡ any (declarations.is_table table.now) items.now }
{
    'items: for item in items {
        if is_table(item, table) {
            return true;
        }
    }
    false
}

fn is_queue(item: &Item, queue: &str) -> bool
    ensures { result ≡ list_any (λ (q : Queue). bytes_eq q.name queue.now) (filter_map queue_of (item.now ∷ [])) }
{
    match item {
        Item::Queue { name, .. } => name.as_str() == queue,
        _ => false,
    }
}

fn has_queue_in(items: &[Item], queue: &str) -> bool
    ensures { result ≡ list_any (λ (q : Queue). bytes_eq q.name queue.now) (filter_map queue_of items.now) }
{
    'items: for item in items {
        if is_queue(item, queue) {
            return true;
        }
    }
    false
}

fn arity_by(item: &Item, function: &str) -> Option<usize>
    ensures { result ≡ arity_by function.now item.now }
{
    match item {
        Item::Flow { name, params, .. } => {
            if name.as_str() == function {
                Some(params.len())
            } else {
                None
            }
        }
        _ => None,
    }
}

fn arity_in(items: &[Item], function: &str) -> Option<usize>
    ensures { result ≡ arity_of items.now function.now }
{
    'items: for item in items {
        let arity = arity_by(item, function);
        if arity.is_some() {
            return arity;
        }
    }
    None
}

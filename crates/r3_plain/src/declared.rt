//! The queues that a program declares.

ghost use Rattle.std.specs.Prelude.{◌≡◌, [], ◌∷◌, find, filter_map, bytes_eq, IfOk};
ghost use Rattle.std.specs.Option.{option_map};
ghost use Rattle.r3_model.specs.Functions.{language_of, queue_of};
ghost use Rattle.r3_model.specs.Language.{Queue};
ghost use Rattle.r3_plain.specs.Flows.{declared_of};

use fn_tree::checked::Checked;
use fn_tree::program::Item;
use r3_value::{Memory, Txt};

/// A queue, of which so many workflows may run at a time.
#[derive(Drop)]
pub struct Declared {
    pub name: Txt,
    pub bound: u32,
}

// The queue that an item declares, if it is called so.
fn queue_by(item: &Item, called: &str) -> Result<Option<Declared>, Memory>
    ensures { IfOk result (λ q. option_map declared_of q ≡ find (λ (q : Queue). bytes_eq q.name called.now) (filter_map queue_of (item.now ∷ []))) }
{
    match item {
        Item::Queue { name, bound } => {
            if name.as_str() == called {
                let name = name.copy()?;
                Ok(Some(Declared {
                    name,
                    bound: *bound,
                }))
            } else {
                Ok(None)
            }
        }
        _ => Ok(None),
    }
}

// The first queue of that name.
fn queue_in(items: &[Item], called: &str) -> Result<Option<Declared>, Memory>
    ensures { IfOk result (λ q. option_map declared_of q ≡ find (λ (q : Queue). bytes_eq q.name called.now) (filter_map queue_of items.now)) }
{
    'items: for item in items {
        match queue_by(item, called)? {
            Some(queue) => return Ok(Some(queue)),
            None => {}
        }
    }
    Ok(None)
}

/// The queue of that name.
pub fn queue_called(program: &Checked, called: &str) -> Result<Option<Declared>, Memory>
    ensures { IfOk result (λ q. option_map declared_of q ≡ find (λ (q : Queue). bytes_eq q.name called.now) (language_of program.now).queues) }
{
    queue_in(&program.program().items, called)
}

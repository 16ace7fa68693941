//! The names in scope, with their values.

ghost use Rattle.std.specs.Option.{option_copied};
ghost use Rattle.std.specs.Prelude.{◌≡◌, IfOk};
ghost use Rattle.fn_tree.specs.Evaluation as meaning;
ghost use Rattle.fn_tree.specs.Expression.{bound};

use r3_value::{Memory, Txt, Val};
use sqlite_items::Items;
use std::alloc::Global;

/// The bound names with their values, in the order in which they were bound. The last of equal
/// names counts.
#[derive(Drop)]
pub struct Env {
    pub names: Vec<(Txt, Val)>,
}

/// The value of the last binding of a name, if it is bound.
#[tactic(auto, using(fn_meaning::proofs::ExpressionLemmas::look_up_last))]
pub fn look_up<'a>(names: &'a [(Txt, Val)], name: &Txt) -> Option<&'a Val>
    ensures { option_copied result ≡ meaning.look_up names.now name.now }
{
    let mut rest = names;
    while let Some((last, earlier)) = rest.split_last() {
        if last.0.as_str() == name.as_str() {
            return Some(&last.1);
        }
        rest = earlier;
    }
    None
}

/// The parameters, bound to the arguments.
#[tactic(auto, using(crate::proofs::ScopeLemmas::bound_none))]
pub fn bind(alloc: Global, params: &[Txt], args: Vec<Val>) -> Result<Env, Memory>
    ensures { IfOk result (λ env. env.names.items ≡ bound params.now args.items) }
{
    let mut args = Items::from_vec(args);
    let mut names = Vec::new(alloc);
    for param in params {
        if args.is_empty() {
            break;
        }
        let value = args.remove(0);
        names.push((param.copy()?, value))?;
    }
    Ok(Env { names })
}

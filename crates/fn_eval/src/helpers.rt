//! Which helper a call means.

ghost use Rattle.std.specs.Prelude.{◌≡◌, ℕ, ◌+◌, ◌<◌, List, length, Some, MatchOption};
ghost use Rattle.fn_tree.specs.Expression.{evaluated, calls_of, no_calls, bound};
ghost use Rattle.fn_tree.specs.declared.expr.Expr.{size-Expr};
ghost use Rattle.r3_value.specs.declared.value.Val.{Val};
ghost use Rattle.fn_eval.specs.Scope.{scope_size};

use fn_tree::expr::Expr;
use fn_tree::program::Item;
use r3_value::Txt;

/// The helper that a name calls with so many arguments: the items before it, its parameters and
/// its body.
#[tactic(auto, using(fn_meaning::proofs::ExpressionLemmas::calls_of_last, crate::proofs::ScopeLemmas::scope_size_last))]
pub fn find<'a>(
    items: &'a [Item],
    name: &Txt,
    count: usize,
) -> Option<(&'a [Item], &'a [Txt], &'a Expr)>
    ensures called { (vs : List Val) (units cost : ℕ) → length vs ≡ count → MatchOption result (calls_of items.now name.now vs units cost ≡ no_calls name.now vs units cost) (λ r. calls_of items.now name.now vs units cost ≡ evaluated (calls_of r.0.now) r.2.now (bound r.1.now vs) units cost) }
    ensures smaller { MatchOption result (Unit {0}) (λ r. scope_size r.0.now + size-Expr r.2.now < scope_size items.now) }
{
    let mut rest = items;
    while let Some((last, earlier)) = rest.split_last() {
        if let Item::Helper {
            name: found,
            params,
            body,
        } = last
        {
            if found.as_str() == name.as_str() && params.len() == count {
                return Some((earlier, params.as_slice(), body));
            }
        }
        rest = earlier;
    }
    None
}

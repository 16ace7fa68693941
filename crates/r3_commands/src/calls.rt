//! The function and the arguments of a new workflow.

ghost use Rattle.std.specs.Prelude.{◌≡◌, ◌≤◌, length, None};
ghost use Rattle.r3_model.specs.Commands as rule;
ghost use Rattle.r3_model.specs.Functions.{language_of};
ghost use Rattle.r3_commands.specs.Drafts.{refused_by, call_tests};

use crate::declared::arity;
use fn_tree::checked::Checked;
use r3_value::Val;
use sys_flow::Refusal;

// The number of arguments; of what is no list 0.
fn args_count(args: &Val) -> usize
    ensures { result ≡ rule.args_count args.now }
{
    match args {
        Val::List(values) => values.items().len(),
        _ => 0,
    }
}

/// What the function or the number of arguments is refused for.
pub fn call_refusal(program: &Checked, function: &str, args: &Val) -> Option<Refusal>
    ensures refusal { result ≡ refused_by (call_tests (language_of program.now) function.now args.now) }
    ensures short { result ≡ None → length function.now ≤ 64 }
{
    match arity(program, function) {
        None => Some(Refusal::UnknownFunction),
        Some(n) => {
            if n == args_count(args) {
                None
            } else {
                Some(Refusal::Arity)
            }
        }
    }
}

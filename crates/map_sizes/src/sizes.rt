//! What an expression breaks, and its width by itself.

ghost use Rattle.std.specs.Prelude.{◌≡◌, is_some};
ghost use Rattle.wb_values.specs.Choice.{some_if};
ghost use Rattle.verilog_meaning.specs.Expression.{width_of};
ghost use Rattle.verilog_rules.specs.Expression.{has_width, refusal_of};
ghost use Rattle.v_syntax.specs.Tree.{tree_of};
ghost use Rattle.v_size.specs.Rule.{coded};
ghost use Rattle.v_value.specs.Scope.{scope_at};
ghost use Rattle.map_sizes.specs.Kinds.{has_kind};

use v_size::{Broken, Names, Position, judged_in};
use v_syntax::tree::Expression;

/// What an expression is where anything may be read.
#[derive(Clone, Copy, PartialEq, Eq, Debug)]
pub struct Judgement {
    /// Whether it breaks a rule on expressions.
    pub is_refused: bool,
    /// Its width by itself, where that has a value.
    pub width: Option<u32>,
}

/// Whether one of the kinds is among the rules that are broken.
fn has_kind(broken: Broken) -> bool
    ensures { result ≡ has_kind broken }
{
    broken.undeclared
        || (broken.has_xz
            || (broken.bad_constant
                || (broken.width_over_128 || (broken.bad_select || broken.memory_use))))
}

/// Whether an expression breaks a rule on expressions, and its width by itself, in a scope of names that fit words.
pub fn judged(expression: &Expression<'_>, names: Names<'_, '_>) -> Judgement
    ensures refused { result.is_refused ≡ is_some (refusal_of (scope_at names.entry.scope.now) (tree_of expression.now)) }
    ensures width { result.width ≡ some_if (has_width (scope_at names.entry.scope.now) (tree_of expression.now)) (width_of (scope_at names.entry.scope.now) (tree_of expression.now)) }
{
    let (broken, width) = judged_in(expression, names, Position::Anywhere);
    Judgement {
        is_refused: has_kind(broken),
        width,
    }
}

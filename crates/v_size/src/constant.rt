//! The number of a constant.
ghost use Rattle.std.specs.Prelude.{◌≡◌};
ghost use Rattle.verilog_rules.specs.Expression.{constant_number};
ghost use Rattle.v_value.specs.Scope.{scope_at};
ghost use Rattle.v_value.specs.Narrow.{HasNarrowObjects};
ghost use Rattle.v_syntax.specs.Tree.{tree_of};
ghost use Rattle.v_size.specs.Rule.{number_at};

use crate::judged::{Names, judged_constant};
use v_syntax::tree::Expression;
use v_value::scope::Scope;
use v_value::select::Integer;

/// The number that a constant has by its own width and sign, where it breaks no rule. All names of the scope have at most 128 bits.
#[tactic(auto, unfolding(crate::specs::Judged::constant_number_at))]
pub fn constant_number(expression: &Expression<'_>, scope: &Scope<'_>) -> Option<Integer>
    requires { HasNarrowObjects (scope_at scope.now) }
    ensures { number_at result ≡ constant_number (scope_at scope.now) (tree_of expression.now) }
{
    judged_constant(expression, Names { scope }).number
}

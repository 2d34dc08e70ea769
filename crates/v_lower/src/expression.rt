//! Whole expressions: their terms, or why they are refused.

ghost use Rattle.std.specs.Prelude.{ℕ, ◌≤◌};
ghost use Rattle.v_value.specs.Scope.{scope_at};
ghost use Rattle.v_value.specs.Evaluation.{width_at};
ghost use Rattle.v_value.specs.Narrow.{HasNarrowObjects};
ghost use Rattle.v_syntax.specs.Tree.{tree_of};
ghost use Rattle.v_lower.specs.Table.{images_at};
ghost use Rattle.v_lower.specs.Answer.{IsAsked, IsAnswer, IsMade, outcome_of};
ghost use Rattle.v_lower.specs.Lowered.{HasImages};
ghost use Rattle.v_lower.specs.Walking.{IsSound};

use crate::names::Names;
use crate::table::NamedTerms;
use crate::walking::lower_in;
use v_size::{SizeRefusal, size};
use v_syntax::tree::Expression;
use v_value::scope::Scope;
use wb_terms::{TermId, Terms};

/// Why an expression has no term.
#[derive(Clone, Copy, PartialEq, Eq, Debug)]
pub enum SizeStop {
    /// It breaks a rule: the first kind of those that are broken.
    Refused(SizeRefusal),
    /// Out of memory.
    NoMemory,
}

/// The term of an expression that breaks no rule, or else the store as it was.
fn lower_sound(
    expression: &Expression<'_>,
    names: Names<'_, '_, '_, '_>,
    terms: &mut Terms,
    width: u32,
    signed: bool,
) -> Result<TermId, SizeStop>
    requires known { HasImages (scope_at names.scope.now) (images_at names.table.now) terms.old }
    requires sound { IsSound (scope_at names.scope.now) (tree_of expression.now) }
    requires within { width_at (scope_at names.scope.now) (tree_of expression.now) ≤ width }
    requires at_most_128 { width ≤ 128 }
    ensures { IsMade (scope_at names.entry.scope.now) (images_at names.entry.table.now) terms.old terms.new (tree_of expression.now) width signed (outcome_of result) }
{
    let before = terms.len();
    match lower_in(expression, names, terms, width, signed) {
        Ok(id) => Ok(id),
        Err(_) => {
            terms.cut(before);
            Err(SizeStop::NoMemory)
        }
    }
}

/// Lowers an expression of a module in a context of `width` bits, where `signed` says whether operands are widened with their sign
/// (1364-2005, 5.4 and 5.5). It answers a term of the store, or the first kind of refusal whose rule is broken, or that memory ran
/// out, and then the store is as it was.
pub fn lower(
    expression: &Expression<'_>,
    scope: &Scope<'_>,
    table: &NamedTerms<'_>,
    width: u32,
    signed: bool,
    terms: &mut Terms,
) -> Result<TermId, SizeStop>
    requires objects { HasNarrowObjects (scope_at scope.now) }
    requires asked { IsAsked (scope_at scope.now) (images_at table.now) terms.old (tree_of expression.now) width }
    ensures { IsAnswer (scope_at scope.now) (images_at table.now) terms.old terms.new (tree_of expression.now) width signed (outcome_of result) }
{
    if let Err(refusal) = size(expression, scope) {
        return Err(SizeStop::Refused(refusal));
    }
    lower_sound(expression, Names { scope, table }, terms, width, signed)
}

//! What statements read: the terms of expressions, of conditions, and of the values that assignments give.

ghost use Rattle.std.specs.Prelude.{◌≡◌, ◌≤◌, ℕ, true, false, cond, not, ◌&&◌, Bool, Some, IfOk};
ghost use Rattle.wb_values.specs.Value.{truth, word, Valuation};
ghost use Rattle.verilog_meaning.specs.Expression.{assigned_value};
ghost use Rattle.v_syntax.specs.Tree.{tree_of};
ghost use Rattle.v_value.specs.Scope.{scope_at};
ghost use Rattle.v_value.specs.Narrow.{HasNarrowObjects};
ghost use Rattle.v_value.specs.Evaluation.{width_at, sign_at};
ghost use Rattle.v_operators.specs.Meaning.{Grows, IsOfSort, HasNumber, HasTruth};
ghost use Rattle.v_lower.specs.Lowered.{HasImages, StandsFor, IsLowered, IsLoweredAlone};
ghost use Rattle.v_lower.specs.Table.{images_at};
ghost use Rattle.v_lower.specs.Walking.{IsSound};
ghost use Rattle.v_write.specs.Guard.{IsGuard, Guards};
ghost use Rattle.v_write.specs.Running.{IsCondition, IsAssigned};

use crate::NoMemory;
use std::alloc::AllocError;
use v_bits::{Operand, resized};
use v_lower::{NamedTerms, lower};
use v_operators::{both, is_nonzero, put};
use v_syntax::tree::Expression;
use v_value::scope::Scope;
use v_value::sign::sign_of;
use v_value::width::width_of;
use wb_terms::{Node, TermId, Terms};

/// The term of an expression in a context of `width` bits and this sign.
pub(crate) fn lowered(
    expression: &Expression<'_>,
    scope: &Scope<'_>,
    table: &NamedTerms<'_>,
    terms: &mut Terms,
    width: u32,
    signed: bool,
) -> Result<TermId, NoMemory>
    requires objects { HasNarrowObjects (scope_at scope.now) }
    requires known { HasImages (scope_at scope.now) (images_at table.now) terms.old }
    requires sound { IsSound (scope_at scope.now) (tree_of expression.now) }
    requires within { width_at (scope_at scope.now) (tree_of expression.now) ≤ width }
    requires at_most_128 { width ≤ 128 }
    ensures grows { Grows terms.old terms.new }
    ensures lowered { IfOk result (λ r. IsLowered (scope_at scope.now) (images_at table.now) terms.new (tree_of expression.now) width signed r.0) }
{
    match lower(expression, scope, table, width, signed, terms) {
        Ok(id) => Ok(id),
        // No rule is broken, so memory ran out.
        Err(_) => Err(AllocError),
    }
}

/// How many bits an expression has by itself.
pub(crate) fn own_width(expression: &Expression<'_>, scope: &Scope<'_>) -> u32
    requires objects { HasNarrowObjects (scope_at scope.now) }
    requires sound { IsSound (scope_at scope.now) (tree_of expression.now) }
    ensures width { result ≡ width_at (scope_at scope.now) (tree_of expression.now) }
    ensures at_most_128 { result ≤ 128 }
{
    width_of(expression, scope)
}

/// The term of an expression by itself.
pub(crate) fn lowered_alone(
    expression: &Expression<'_>,
    scope: &Scope<'_>,
    table: &NamedTerms<'_>,
    terms: &mut Terms,
) -> Result<Operand, NoMemory>
    requires objects { HasNarrowObjects (scope_at scope.now) }
    requires known { HasImages (scope_at scope.now) (images_at table.now) terms.old }
    requires sound { IsSound (scope_at scope.now) (tree_of expression.now) }
    ensures grows { Grows terms.old terms.new }
    ensures lowered { IfOk result (λ r. IsLoweredAlone (scope_at scope.now) (images_at table.now) terms.new (tree_of expression.now) r.width r.id.0) }
    ensures sign { IfOk result (λ r. r.signed ≡ sign_at (scope_at scope.now) (tree_of expression.now)) }
{
    let width = own_width(expression, scope);
    let signed = sign_of(expression, scope);
    let id = lowered(expression, scope, table, terms, width, signed)?;
    Ok(Operand { id, width, signed })
}

/// The term of a condition: whether an expression is true.
pub(crate) fn condition(
    expression: &Expression<'_>,
    scope: &Scope<'_>,
    table: &NamedTerms<'_>,
    terms: &mut Terms,
) -> Result<TermId, NoMemory>
    requires objects { HasNarrowObjects (scope_at scope.now) }
    requires known { HasImages (scope_at scope.now) (images_at table.now) terms.old }
    requires sound { IsSound (scope_at scope.now) (tree_of expression.now) }
    ensures grows { Grows terms.old terms.new }
    ensures condition { IfOk result (λ r. IsCondition (scope_at scope.now) (images_at table.now) terms.new (tree_of expression.now) r.0) }
{
    let own = lowered_alone(expression, scope, table, terms)?;
    let id = is_nonzero(terms, own.id, own.width)?;
    Ok(id)
}

/// The term of the value that an assignment of an expression gives a target of `width` bits.
pub(crate) fn assigned(
    expression: &Expression<'_>,
    scope: &Scope<'_>,
    table: &NamedTerms<'_>,
    terms: &mut Terms,
    width: u32,
) -> Result<TermId, NoMemory>
    requires objects { HasNarrowObjects (scope_at scope.now) }
    requires known { HasImages (scope_at scope.now) (images_at table.now) terms.old }
    requires sound { IsSound (scope_at scope.now) (tree_of expression.now) }
    requires some_bits { 1 ≤ width }
    requires at_most_128 { width ≤ 128 }
    ensures grows { Grows terms.old terms.new }
    ensures assigned { IfOk result (λ r. IsAssigned (scope_at scope.now) (images_at table.now) terms.new (tree_of expression.now) width r.0) }
{
    let own = own_width(expression, scope);
    let signed = sign_of(expression, scope);
    if own <= width {
        let id = lowered(expression, scope, table, terms, width, signed)?;
        return Ok(id);
    }
    let all = lowered(expression, scope, table, terms, own, signed)?;
    let id = resized(terms, all, own, width)?;
    Ok(id)
}

/// A condition's two sides: where another holds beside it, and where that doesn't.
#[derive(Clone, Copy, PartialEq, Eq, Debug)]
pub(crate) struct Split {
    pub(crate) taken: TermId,
    pub(crate) other: TermId,
}

/// The opposite of a truth value.
fn opposite(terms: &mut Terms, said: TermId) -> Result<TermId, NoMemory>
    requires { IsOfSort terms.old said.0 truth }
    ensures grows { Grows terms.old terms.new }
    ensures of_sort { IfOk result (λ r. IsOfSort terms.new r.0 truth) }
    ensures value { IfOk result (λ r. (p : Valuation) (b : Bool) → HasTruth terms.old said.0 p b → HasTruth terms.new r.0 p (not b)) }
{
    let id = put(terms, Node::Not(said))?;
    Ok(id)
}

/// Whether a condition holds and a truth value too.
fn with(terms: &mut Terms, guard: Option<TermId>, said: TermId) -> Result<TermId, NoMemory>
    requires guard { IsGuard terms.old guard }
    requires said { IsOfSort terms.old said.0 truth }
    ensures grows { Grows terms.old terms.new }
    ensures of_sort { IfOk result (λ r. IsOfSort terms.new r.0 truth) }
    ensures value { IfOk result (λ r. (p : Valuation) (c b : Bool) → Guards terms.old p guard c → HasTruth terms.old said.0 p b → HasTruth terms.new r.0 p (c && b)) }
{
    match guard {
        None => Ok(said),
        Some(outer) => {
            let id = both(terms, outer, said)?;
            Ok(id)
        }
    }
}

/// The two sides of a condition by a truth value.
pub(crate) fn sides(
    terms: &mut Terms,
    guard: Option<TermId>,
    said: TermId,
) -> Result<Split, NoMemory>
    requires guard { IsGuard terms.old guard }
    requires said { IsOfSort terms.old said.0 truth }
    ensures grows { Grows terms.old terms.new }
    ensures taken_sort { IfOk result (λ r. IsOfSort terms.new r.taken.0 truth) }
    ensures other_sort { IfOk result (λ r. IsOfSort terms.new r.other.0 truth) }
    ensures taken { IfOk result (λ r. (p : Valuation) (c b : Bool) → Guards terms.old p guard c → HasTruth terms.old said.0 p b → HasTruth terms.new r.taken.0 p (c && b)) }
    ensures other { IfOk result (λ r. (p : Valuation) (c b : Bool) → Guards terms.old p guard c → HasTruth terms.old said.0 p b → HasTruth terms.new r.other.0 p (c && not b)) }
{
    let taken = with(terms, guard, said)?;
    let no = opposite(terms, said)?;
    let other = with(terms, guard, no)?;
    Ok(Split { taken, other })
}

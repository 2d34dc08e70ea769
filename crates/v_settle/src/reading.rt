//! What continuous assignments give their targets: the terms of right sides. (The same functions are private in `v_write`.)

ghost use Rattle.std.specs.Prelude.{◌≡◌, ◌≤◌, IfOk};
ghost use Rattle.v_syntax.specs.Tree.{tree_of};
ghost use Rattle.v_value.specs.Scope.{scope_at};
ghost use Rattle.v_value.specs.Evaluation.{width_at};
ghost use Rattle.v_value.specs.Narrow.{HasNarrowObjects};
ghost use Rattle.v_operators.specs.Meaning.{Grows};
ghost use Rattle.v_lower.specs.Lowered.{HasImages, IsLowered};
ghost use Rattle.v_lower.specs.Table.{images_at};
ghost use Rattle.v_lower.specs.Walking.{IsSound};
ghost use Rattle.v_write.specs.Running.{IsAssigned};

use crate::NoMemory;
use std::alloc::AllocError;
use v_bits::resized;
use v_lower::{NamedTerms, lower};
use v_syntax::tree::Expression;
use v_value::scope::Scope;
use v_value::sign::sign_of;
use v_value::width::width_of;
use wb_terms::{TermId, Terms};

/// The term of an expression in a context of `width` bits and this sign.
fn lowered(
    expression: &Expression<'_>,
    scope: &Scope<'_>,
    table: &NamedTerms<'_>,
    terms: &mut Terms,
    width: u32,
    signed: bool,
) -> Result<TermId, NoMemory>
    requires objects { HasNarrowObjects (scope_at scope.now) }
    requires known { HasImages (scope_at scope.now) (images_at table.now) terms.old }
    requires sound { IsSound (scope_at scope.now) (tree_of expression.now) }
    requires within { width_at (scope_at scope.now) (tree_of expression.now) ≤ width }
    requires at_most_128 { width ≤ 128 }
    ensures grows { Grows terms.old terms.new }
    ensures lowered { IfOk result (λ r. IsLowered (scope_at scope.now) (images_at table.now) terms.new (tree_of expression.now) width signed r.0) }
{
    match lower(expression, scope, table, width, signed, terms) {
        Ok(id) => Ok(id),
        // No rule is broken, so memory ran out.
        Err(_) => Err(AllocError),
    }
}

/// How many bits an expression has by itself.
fn own_width(expression: &Expression<'_>, scope: &Scope<'_>) -> u32
    requires objects { HasNarrowObjects (scope_at scope.now) }
    requires sound { IsSound (scope_at scope.now) (tree_of expression.now) }
    ensures width { result ≡ width_at (scope_at scope.now) (tree_of expression.now) }
    ensures at_most_128 { result ≤ 128 }
{
    width_of(expression, scope)
}

/// The term of the value that an assignment of an expression gives a target of `width` bits.
pub(crate) fn assigned(
    expression: &Expression<'_>,
    scope: &Scope<'_>,
    table: &NamedTerms<'_>,
    terms: &mut Terms,
    width: u32,
) -> Result<TermId, NoMemory>
    requires objects { HasNarrowObjects (scope_at scope.now) }
    requires known { HasImages (scope_at scope.now) (images_at table.now) terms.old }
    requires sound { IsSound (scope_at scope.now) (tree_of expression.now) }
    requires some_bits { 1 ≤ width }
    requires at_most_128 { width ≤ 128 }
    ensures grows { Grows terms.old terms.new }
    ensures assigned { IfOk result (λ r. IsAssigned (scope_at scope.now) (images_at table.now) terms.new (tree_of expression.now) width r.0) }
{
    let own = own_width(expression, scope);
    let signed = sign_of(expression, scope);
    if own <= width {
        let id = lowered(expression, scope, table, terms, width, signed)?;
        return Ok(id);
    }
    let all = lowered(expression, scope, table, terms, own, signed)?;
    let id = resized(terms, all, own, width)?;
    Ok(id)
}

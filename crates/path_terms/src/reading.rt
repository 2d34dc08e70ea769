//! Terms of what expressions give: conditions, and values of states and inputs.

ghost use Rattle.std.specs.Prelude.{◌≡◌, ℕ, IfOk, None, cond, map, option_map};
ghost use Rattle.wb_values.specs.Value.{memory, truth, word};
ghost use Rattle.verilog_meaning.specs.Expression.{width_of};
ghost use Rattle.wb_terms.specs.Sort.{as_sort};
ghost use Rattle.v_syntax.specs.Tree.{tree_of};
ghost use Rattle.v_value.specs.Scope.{scope_at};
ghost use Rattle.v_value.specs.Narrow.{HasNarrowObjects};
ghost use Rattle.v_operators.specs.Meaning.{Grows};
ghost use Rattle.v_lower.specs.Lowered.{HasImages, IsLoweredAlone};
ghost use Rattle.v_lower.specs.Table.{images_at};
ghost use Rattle.path_terms.specs.Mapped.{AreConditions, AreFit, Gives, IsFit, IsMemoryName, IsTermFor, named_term, stands_alone};

use crate::NoMemory;
use std::alloc::{AllocError, Global};
use v_lower::{NamedTerms, SizeStop, lower};
use v_operators::is_nonzero;
use v_size::size;
use v_syntax::tree::Expression;
use v_value::scope::Scope;
use wb_terms::{Sort, TermId, Terms};

/// The term of an expression by itself, and its width.
#[derive(Clone, Copy)]
struct OwnTerm {
    id: TermId,
    width: u32,
}

/// The term of an expression by itself.
fn alone(
    expression: &Expression<'_>,
    scope: &Scope<'_>,
    table: &NamedTerms<'_>,
    terms: &mut Terms,
) -> Result<OwnTerm, NoMemory>
    requires objects { HasNarrowObjects (scope_at scope.now) }
    requires known { HasImages (scope_at scope.now) (images_at table.now) terms.old }
    requires fit { IsFit (scope_at scope.now) (tree_of expression.now) }
    ensures grows { Grows terms.old terms.new }
    ensures lowered { IfOk result (λ r. IsLoweredAlone (scope_at scope.now) (images_at table.now) terms.new (tree_of expression.now) r.width r.id.0) }
{
    match size(expression, scope) {
        Ok((width, signed)) => match lower(expression, scope, table, width, signed, terms) {
            Ok(id) => Ok(OwnTerm { id, width }),
            Err(SizeStop::NoMemory) => Err(AllocError),
            Err(SizeStop::Refused(_)) => unreachable!(),
        },
        Err(_) => unreachable!(),
    }
}

/// The term of whether an expression is true: it is not 0.
pub fn condition(
    expression: &Expression<'_>,
    scope: &Scope<'_>,
    table: &NamedTerms<'_>,
    terms: &mut Terms,
) -> Result<TermId, NoMemory>
    requires objects { HasNarrowObjects (scope_at scope.now) }
    requires known { HasImages (scope_at scope.now) (images_at table.now) terms.old }
    requires fit { IsFit (scope_at scope.now) (tree_of expression.now) }
    ensures grows { Grows terms.old terms.new }
    ensures condition { IfOk result (λ r. IsTermFor (scope_at scope.now) (images_at table.now) terms.new truth (tree_of expression.now) r.0) }
{
    let number = alone(expression, scope, table, terms)?;
    let id = is_nonzero(terms, number.id, number.width)?;
    Ok(id)
}

/// The term of the number that an expression has by itself.
fn number_term(
    expression: &Expression<'_>,
    scope: &Scope<'_>,
    table: &NamedTerms<'_>,
    terms: &mut Terms,
) -> Result<TermId, NoMemory>
    requires objects { HasNarrowObjects (scope_at scope.now) }
    requires known { HasImages (scope_at scope.now) (images_at table.now) terms.old }
    requires fit { IsFit (scope_at scope.now) (tree_of expression.now) }
    ensures grows { Grows terms.old terms.new }
    ensures number { IfOk result (λ r. IsTermFor (scope_at scope.now) (images_at table.now) terms.new (word (width_of (scope_at scope.now) (tree_of expression.now))) (tree_of expression.now) r.0) }
{
    let number = alone(expression, scope, table, terms)?;
    Ok(number.id)
}

/// This term where nothing else stands beside the name.
fn term_alone<X>(others: &[X], term: Option<TermId>) -> Option<TermId>
    ensures { option_map (λ id. id.0) result ≡ cond (stands_alone others.now) (option_map (λ id. id.0) term) None }
{
    if others.is_empty() { term } else { None }
}

/// The term of the name that an expression is, if it is one. A chain without links is what stands in it.
#[cycle(path)]
fn named_term(expression: &Expression<'_>, table: &NamedTerms<'_>) -> Option<TermId>
    ensures { option_map (λ id. id.0) result ≡ named_term (images_at table.now) (tree_of expression.now) }
{
    match expression {
        Expression::Number(_) => None,
        Expression::Name(name, _) => table.term(name),
        Expression::Concatenation(_) => None,
        Expression::Replication(_, _) => None,
        Expression::AsSigned(_) => None,
        Expression::AsUnsigned(_) => None,
        Expression::Prefix(operators, operand) => {
            term_alone(operators, named_term(operand, table))
        }
        Expression::Binary(first, links) => term_alone(links, named_term(first, table)),
        Expression::Test(first, links) => term_alone(links, named_term(first, table)),
        Expression::Conditional(choices, last) => term_alone(choices, named_term(last, table)),
    }
}

/// The term of a memory that is named whole.
fn memory_term(
    expression: &Expression<'_>,
    scope: &Scope<'_>,
    table: &NamedTerms<'_>,
    sort: Sort,
    _terms: &Terms,
) -> TermId
    requires known { HasImages (scope_at scope.now) (images_at table.now) _terms.now }
    requires memory { (a : ℕ) × (d : ℕ) × (as_sort sort ≡ memory a d) × IsMemoryName (scope_at scope.now) a d (tree_of expression.now) }
    ensures { IsTermFor (scope_at scope.now) (images_at table.now) _terms.now (as_sort sort) (tree_of expression.now) result.0 }
{
    match named_term(expression, table) {
        Some(id) => id,
        None => unreachable!(),
    }
}

/// The term of what an expression gives a state or an input of a sort.
pub fn mapped_term(
    expression: &Expression<'_>,
    scope: &Scope<'_>,
    table: &NamedTerms<'_>,
    sort: Sort,
    terms: &mut Terms,
) -> Result<TermId, NoMemory>
    requires objects { HasNarrowObjects (scope_at scope.now) }
    requires known { HasImages (scope_at scope.now) (images_at table.now) terms.old }
    requires gives { Gives (scope_at scope.now) (as_sort sort) (tree_of expression.now) }
    ensures grows { Grows terms.old terms.new }
    ensures mapped { IfOk result (λ r. IsTermFor (scope_at scope.now) (images_at table.now) terms.new (as_sort sort) (tree_of expression.now) r.0) }
{
    match sort {
        Sort::Truth => {
            let id = condition(expression, scope, table, terms)?;
            Ok(id)
        }
        Sort::Word(_) => {
            let id = number_term(expression, scope, table, terms)?;
            Ok(id)
        }
        Sort::Memory(_, _) => Ok(memory_term(expression, scope, table, sort, terms)),
    }
}

/// The terms of conditions, in their order.
pub fn conditions(
    alloc: Global,
    expressions: &[Expression<'_>],
    scope: &Scope<'_>,
    table: &NamedTerms<'_>,
    terms: &mut Terms,
) -> Result<Vec<TermId>, NoMemory>
    requires objects { HasNarrowObjects (scope_at scope.now) }
    requires known { HasImages (scope_at scope.now) (images_at table.now) terms.old }
    requires fit { AreFit (scope_at scope.now) (map tree_of expressions.now) }
    ensures grows { Grows terms.old terms.new }
    ensures conditions { IfOk result (λ v. AreConditions (scope_at scope.now) (images_at table.now) terms.new (map tree_of expressions.now) (map (λ id. id.0) v.items)) }
{
    let mut list = Vec::new(alloc);
    for expression in expressions {
        let id = condition(expression, scope, table, terms)?;
        list.push(id)?;
    }
    Ok(list)
}

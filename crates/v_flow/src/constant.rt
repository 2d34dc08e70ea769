//! Which expressions are constant: they read parameters and numbers alone.

ghost use Rattle.std.specs.Prelude.{◌≡◌, ◌&&◌, is_some};
ghost use Rattle.v_value.specs.Scope.{scope_at};
ghost use Rattle.v_syntax.specs.Tree.{tree_of, select_of, selects_of};
ghost use Rattle.v_flow.specs.Flow.{constant_at, select_constant_at, selects_constant_at, parts_constant, links_constant, tests_constant, choices_constant};

use v_syntax::tree::{BinaryLink, Choice, Expression, Select, Selects, TestLink};
use v_value::scope::Scope;

/// Whether the expression reads parameters and numbers alone, where names stand for what the scope says.
#[cycle(constant)]
pub fn is_constant(expression: &Expression<'_>, scope: &Scope<'_>) -> bool
    ensures { result ≡ constant_at (scope_at scope.now) (tree_of expression.now) }
{
    match expression {
        Expression::Number(_) => true,
        Expression::Name(name, selects) => is_constant_name(selects, scope, name),
        Expression::Concatenation(parts) => are_constant_parts(parts, scope),
        Expression::Replication(_, parts) => are_constant_parts(parts, scope),
        Expression::AsSigned(operand) => is_constant(operand, scope),
        Expression::AsUnsigned(operand) => is_constant(operand, scope),
        Expression::Prefix(_, operand) => is_constant(operand, scope),
        Expression::Binary(first, links) => {
            let known = is_constant(first, scope);
            are_constant_links(links, scope, known)
        }
        Expression::Test(first, links) => {
            let known = is_constant(first, scope);
            are_constant_tests(links, scope, known)
        }
        Expression::Conditional(choices, last) => {
            let known = is_constant(last, scope);
            are_constant_choices(choices, scope, known)
        }
    }
}

#[cycle(constant)]
fn is_constant_name(selects: &Selects<'_>, scope: &Scope<'_>, name: &str) -> bool
    ensures { result ≡ (is_some (scope_at scope.now name.now).constant && selects_constant_at (scope_at scope.now) (selects_of selects.now)) }
{
    if scope.object(name).constant.is_none() {
        return false;
    }
    are_constant_selects(selects, scope)
}

#[cycle(constant)]
fn are_constant_parts(parts: &[Expression<'_>], scope: &Scope<'_>) -> bool
    ensures { result ≡ parts_constant (scope_at scope.now) parts.now }
{
    for part in parts {
        if !is_constant(part, scope) {
            return false;
        }
    }
    true
}

/// Whether links are constant, after an operand that may be constant.
#[cycle(constant)]
fn are_constant_links(links: &[BinaryLink<'_>], scope: &Scope<'_>, first: bool) -> bool
    ensures { result ≡ (first && links_constant (scope_at scope.now) links.now) }
{
    if !first {
        return false;
    }
    for link in links {
        if !is_constant(&link.operand, scope) {
            return false;
        }
    }
    true
}

#[cycle(constant)]
fn are_constant_tests(links: &[TestLink<'_>], scope: &Scope<'_>, first: bool) -> bool
    ensures { result ≡ (first && tests_constant (scope_at scope.now) links.now) }
{
    if !first {
        return false;
    }
    for link in links {
        if !is_constant(&link.operand, scope) {
            return false;
        }
    }
    true
}

#[cycle(constant)]
fn are_constant_choices(choices: &[Choice<'_>], scope: &Scope<'_>, last: bool) -> bool
    ensures { result ≡ (choices_constant (scope_at scope.now) choices.now && last) }
{
    if !last {
        return false;
    }
    for choice in choices {
        if !is_constant_choice(choice, scope) {
            return false;
        }
    }
    true
}

/// Whether a condition with its value is constant.
#[cycle(constant)]
fn is_constant_choice(choice: &Choice<'_>, scope: &Scope<'_>) -> bool
    ensures { result ≡ (constant_at (scope_at scope.now) (tree_of choice.now.condition) && constant_at (scope_at scope.now) (tree_of choice.now.value)) }
{
    if !is_constant(&choice.condition, scope) {
        return false;
    }
    is_constant(&choice.value, scope)
}

/// Whether the index of a select is constant, or the base of `+:` and `-:`.
#[cycle(constant)]
pub(crate) fn is_constant_select(select: &Select<'_>, scope: &Scope<'_>) -> bool
    ensures { result ≡ select_constant_at (scope_at scope.now) (select_of select.now) }
{
    match select {
        Select::Index(index) => is_constant(index, scope),
        Select::Part(_, _) => true,
        Select::PartUp(base, _) => is_constant(base, scope),
        Select::PartDown(base, _) => is_constant(base, scope),
    }
}

/// Whether all indexes after a name are constant.
#[cycle(constant)]
pub fn are_constant_selects(selects: &Selects<'_>, scope: &Scope<'_>) -> bool
    ensures { result ≡ selects_constant_at (scope_at scope.now) (selects_of selects.now) }
{
    match selects {
        Selects::Whole => true,
        Selects::One(select) => is_constant_select(select, scope),
        Selects::Two(first, second) => {
            is_constant_select(first, scope) && is_constant_select(second, scope)
        }
    }
}

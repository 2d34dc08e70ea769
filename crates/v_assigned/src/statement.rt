//! Whether a statement assigns a wrong name.

ghost use Rattle.std.specs.Prelude.{◌≡◌, true};
ghost use Rattle.std.specs.List.{list_any};
ghost use Rattle.verilog_designs.specs.Drivers.{assigned_names, assigned_in_all, assigned_in_arms};
ghost use Rattle.v_syntax.specs.Tree.{statement_of};
ghost use Rattle.v_statement.specs.Statements.{statement_list};
ghost use Rattle.v_statement.specs.Effects.{item_list, item_statement};
ghost use Rattle.v_value.specs.Scope.{scope_at};
ghost use Rattle.v_assigned.specs.Names.{is_wrong};
ghost use Rattle.v_assigned.specs.Assigned.{arms_names};

use crate::target::assigns_wrong;
use v_scopes::ModuleScope;
use v_syntax::tree::{Arm, CaseItem, Statement};
use v_value::scope::Scope;

/// Whether a statement of a block assigns a name that no block may assign.
#[cycle(assigning)]
pub(crate) fn has_wrong(
    statement: &Statement<'_>,
    names: &ModuleScope<'_>,
    scope: &Scope<'_>,
) -> bool
    ensures { result ≡ list_any (is_wrong names.now (scope_at scope.now) true) (assigned_names (statement_of statement.now)) }
{
    match statement {
        Statement::Empty => false,
        Statement::Blocking(target, _) => assigns_wrong(target, names, scope, true),
        Statement::Nonblocking(target, _) => assigns_wrong(target, names, scope, true),
        Statement::If(arms, last) => {
            if an_arm_has_wrong(arms, names, scope) {
                return true;
            }
            match last {
                Some(other) => has_wrong(other, names, scope),
                None => false,
            }
        }
        Statement::Case(_, _, items) => an_item_has_wrong(items, names, scope),
        Statement::Block(_, statements) => one_has_wrong(statements, names, scope),
    }
}

#[cycle(assigning)]
fn one_has_wrong(statements: &[Statement<'_>], names: &ModuleScope<'_>, scope: &Scope<'_>) -> bool
    ensures { result ≡ list_any (is_wrong names.now (scope_at scope.now) true) (assigned_in_all (statement_list statements.now)) }
{
    for statement in statements {
        if has_wrong(statement, names, scope) {
            return true;
        }
    }
    false
}

#[cycle(assigning)]
fn an_arm_has_wrong(arms: &[Arm<'_>], names: &ModuleScope<'_>, scope: &Scope<'_>) -> bool
    ensures { result ≡ list_any (is_wrong names.now (scope_at scope.now) true) (arms_names arms.now) }
{
    for arm in arms {
        if has_wrong(&arm.statement, names, scope) {
            return true;
        }
    }
    false
}

#[cycle(assigning)]
fn an_item_has_wrong(items: &[CaseItem<'_>], names: &ModuleScope<'_>, scope: &Scope<'_>) -> bool
    ensures { result ≡ list_any (is_wrong names.now (scope_at scope.now) true) (assigned_in_arms (item_list items.now)) }
{
    for item in items {
        if item_has_wrong(item, names, scope) {
            return true;
        }
    }
    false
}

#[cycle(assigning)]
fn item_has_wrong(item: &CaseItem<'_>, names: &ModuleScope<'_>, scope: &Scope<'_>) -> bool
    ensures { result ≡ list_any (is_wrong names.now (scope_at scope.now) true) (assigned_names (item_statement item.now)) }
{
    match item {
        CaseItem::Values(_, statement) => has_wrong(statement, names, scope),
        CaseItem::Default(statement) => has_wrong(statement, names, scope),
    }
}

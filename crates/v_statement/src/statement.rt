//! Runs of statements (1364-2005, 9.2 to 9.5): blocking assignments change the values, nonblocking ones add updates.
ghost use Rattle.std.specs.Prelude.{◌≡◌, ◌≤◌, ◌<◌, ◌^◌, ◌++◌, ◌∷◌, [], IfOk, OnOk, OnErr, is_some};
ghost use Rattle.verilog_trees.specs.Syntax.{case as meaning_case};
ghost use Rattle.verilog_meaning.specs.Expression.{assigned_value};
ghost use Rattle.verilog_meaning.specs.Statement.{places, written, target_width, run, run_all, after_updates};
ghost use Rattle.v_value.specs.Scope.{scope_at, valuation_at};
ghost use Rattle.v_syntax.specs.Tree.{tree_of, target_of, statement_of, case_kind_of};
ghost use Rattle.v_statement.specs.Places.{places_of as places_view, update_of as update_view, updates_of};
ghost use Rattle.v_value.specs.Narrow.{IsNarrow};
ghost use Rattle.v_statement.specs.Statements.{IsReadyFor, IsNarrowTarget, IsNarrowStatement, AreNarrowStatements, AreNarrowItems, statement_list};
ghost use Rattle.v_statement.specs.Effects.{effect_at, first_true, run_if_any, AreNarrowArms, item_list, item_statement};

use crate::choice::chosen_item;
use crate::copy::copied;
use crate::evaluation::{assigned_value, is_true};
use crate::place::{Place, Update};
use crate::target::{add_places, places_width};
use crate::write::write;
use std::alloc::{AllocError, Global};
use v_syntax::tree::{Arm, CaseItem, CaseKind, Expression, Statement, Target};
use v_value::scope::{Entry, Scope, Values};

/// The places of a target.
fn places_of<'s>(
    alloc: Global,
    target: &Target<'s>,
    scope: &Scope<'_>,
    values: &[Entry<'_>],
) -> Result<Vec<Place<'s>>, AllocError>
    requires ready { IsReadyFor (scope_at scope.now) (valuation_at values.now) }
    requires narrow { IsNarrowTarget (scope_at scope.now) (target_of target.now) }
    ensures { IfOk result (λ ps. places_view ps.items
        ≡ places (scope_at scope.now) (valuation_at values.now) (target_of target.now)) }
{
    let mut found = Vec::new(alloc);
    add_places(target, scope, values, &mut found)?;
    Ok(found)
}

/// A blocking assignment.
fn assign<'s>(
    alloc: Global,
    target: &Target<'s>,
    expression: &Expression<'s>,
    scope: &Scope<'_>,
    values: &mut Values<'s>,
) -> Result<(), AllocError>
    requires ready { IsReadyFor (scope_at scope.now) (valuation_at values.old.entries.items) }
    requires target_narrow { IsNarrowTarget (scope_at scope.now) (target_of target.now) }
    requires narrow { IsNarrow (scope_at scope.now) (tree_of expression.now) }
    ensures { OnOk result (valuation_at values.new.entries.items
        ≡ written (scope_at scope.now) (valuation_at values.old.entries.items)
        (places (scope_at scope.now) (valuation_at values.old.entries.items) (target_of target.now))
        (assigned_value (scope_at scope.now) (valuation_at values.old.entries.items)
        (target_width (scope_at scope.now) (target_of target.now)) (tree_of expression.now))) }
{
    let places = places_of(alloc, target, scope, &values.entries)?;
    let width = places_width(&places);
    let value = assigned_value(expression, scope, &values.entries, width);
    write(alloc, scope, values, &places, value)
}

/// A nonblocking assignment: its update, with its places and its value as they are now.
fn update_of<'s>(
    alloc: Global,
    target: &Target<'s>,
    expression: &Expression<'s>,
    scope: &Scope<'_>,
    values: &[Entry<'_>],
) -> Result<Update<'s>, AllocError>
    requires ready { IsReadyFor (scope_at scope.now) (valuation_at values.now) }
    requires target_narrow { IsNarrowTarget (scope_at scope.now) (target_of target.now) }
    requires narrow { IsNarrow (scope_at scope.now) (tree_of expression.now) }
    ensures { IfOk result (λ u. update_view u
        ≡ record {
          places = places (scope_at scope.now) (valuation_at values.now) (target_of target.now);
          value = assigned_value (scope_at scope.now) (valuation_at values.now)
              (target_width (scope_at scope.now) (target_of target.now)) (tree_of expression.now);
        }) }
{
    let places = places_of(alloc, target, scope, values)?;
    let width = places_width(&places);
    let value = assigned_value(expression, scope, values, width);
    Ok(Update { places, value })
}

/// A nonblocking assignment adds its update.
fn defer<'s>(
    alloc: Global,
    target: &Target<'s>,
    expression: &Expression<'s>,
    scope: &Scope<'_>,
    values: &[Entry<'_>],
    updates: &mut Vec<Update<'s>>,
) -> Result<(), AllocError>
    requires ready { IsReadyFor (scope_at scope.now) (valuation_at values.now) }
    requires target_narrow { IsNarrowTarget (scope_at scope.now) (target_of target.now) }
    requires narrow { IsNarrow (scope_at scope.now) (tree_of expression.now) }
    ensures { OnOk result (updates_of updates.new.items
        ≡ updates_of updates.old.items
        ++ record {
          places = places (scope_at scope.now) (valuation_at values.now) (target_of target.now);
          value = assigned_value (scope_at scope.now) (valuation_at values.now)
              (target_width (scope_at scope.now) (target_of target.now)) (tree_of expression.now);
        } ∷ []) }
{
    let update = update_of(alloc, target, expression, scope, values)?;
    updates.push(update)?;
    Ok(())
}

/// Runs a statement on the values, and adds its updates after those that wait. When memory runs out, both stay as they were.
pub fn run<'s>(
    alloc: Global,
    statement: &Statement<'s>,
    scope: &Scope<'_>,
    values: &mut Values<'s>,
    updates: &mut Vec<Update<'s>>,
) -> Result<(), AllocError>
    requires ready { IsReadyFor (scope_at scope.now) (valuation_at values.old.entries.items) }
    requires narrow { IsNarrowStatement (scope_at scope.now) (statement_of statement.now) }
    ensures effect { OnOk result (effect_at values.new updates.new.items
        ≡ after_updates (updates_of updates.old.items)
        (run (scope_at scope.now) (statement_of statement.now) (valuation_at values.old.entries.items))) }
    ensures values_kept { OnErr result (values.new.entries.items ≡ values.old.entries.items) }
    ensures updates_kept { OnErr result (updates.new.items ≡ updates.old.items) }
{
    let mut after = copied(alloc, &values.entries)?;
    let mut added = Vec::new(alloc);
    run_statement(alloc, statement, scope, &mut after, &mut added)?;
    updates.append(&mut added)?;
    *values = after;
    Ok(())
}

/// Runs a statement on the values, and adds its updates after those that wait. When memory runs out, some of it may have run.
#[cycle(run)]
pub(crate) fn run_statement<'s>(
    alloc: Global,
    statement: &Statement<'s>,
    scope: &Scope<'_>,
    values: &mut Values<'s>,
    updates: &mut Vec<Update<'s>>,
) -> Result<(), AllocError>
    requires ready { IsReadyFor (scope_at scope.now) (valuation_at values.old.entries.items) }
    requires narrow { IsNarrowStatement (scope_at scope.now) (statement_of statement.now) }
    ensures { OnOk result (effect_at values.new updates.new.items
        ≡ after_updates (updates_of updates.old.items)
        (run (scope_at scope.now) (statement_of statement.now) (valuation_at values.old.entries.items))) }
{
    match statement {
        Statement::Empty => Ok(()),
        Statement::Blocking(target, expression) => assign(alloc, target, expression, scope, values),
        Statement::Nonblocking(target, expression) => {
            defer(alloc, target, expression, scope, &values.entries, updates)
        }
        Statement::If(arms, last) => {
            if run_arms(alloc, arms, scope, values, updates)? {
                return Ok(());
            }
            match last {
                Some(other) => run_statement(alloc, other, scope, values, updates),
                None => Ok(()),
            }
        }
        Statement::Case(kind, expression, items) => {
            run_case(alloc, items, expression, scope, *kind, values, updates)
        }
        Statement::Block(_, statements) => run_all(alloc, statements, scope, values, updates),
    }
}

/// Runs statements one after the other.
#[cycle(run)]
fn run_all<'s>(
    alloc: Global,
    statements: &[Statement<'s>],
    scope: &Scope<'_>,
    values: &mut Values<'s>,
    updates: &mut Vec<Update<'s>>,
) -> Result<(), AllocError>
    requires ready { IsReadyFor (scope_at scope.now) (valuation_at values.old.entries.items) }
    requires narrow { AreNarrowStatements (scope_at scope.now) (statement_list statements.now) }
    ensures { OnOk result (effect_at values.new updates.new.items
        ≡ after_updates (updates_of updates.old.items)
        (run_all (scope_at scope.now) (statement_list statements.now) (valuation_at values.old.entries.items))) }
{
    for statement in statements {
        run_statement(alloc, statement, scope, values, updates)?;
    }
    Ok(())
}

/// Runs the statement of the first arm whose condition is true, and says whether there is one.
#[cycle(run)]
fn run_arms<'s>(
    alloc: Global,
    arms: &[Arm<'s>],
    scope: &Scope<'_>,
    values: &mut Values<'s>,
    updates: &mut Vec<Update<'s>>,
) -> Result<bool, AllocError>
    requires ready { IsReadyFor (scope_at scope.now) (valuation_at values.old.entries.items) }
    requires narrow { AreNarrowArms (scope_at scope.now) arms.now }
    ensures found { IfOk result (λ ran. ran
        ≡ is_some (first_true (scope_at scope.now) (valuation_at values.old.entries.items) arms.now)) }
    ensures effect { OnOk result (effect_at values.new updates.new.items
        ≡ after_updates (updates_of updates.old.items)
        (run_if_any (scope_at scope.now) (first_true (scope_at scope.now) (valuation_at values.old.entries.items) arms.now)
        (valuation_at values.old.entries.items))) }
{
    for arm in arms {
        if is_true(&arm.condition, scope, &values.entries) {
            run_statement(alloc, &arm.statement, scope, values, updates)?;
            return Ok(true);
        }
    }
    Ok(false)
}

/// Runs the item of a case that matches, or else its default.
#[cycle(run)]
fn run_case<'s>(
    alloc: Global,
    items: &[CaseItem<'s>],
    expression: &Expression<'s>,
    scope: &Scope<'_>,
    kind: CaseKind,
    values: &mut Values<'s>,
    updates: &mut Vec<Update<'s>>,
) -> Result<(), AllocError>
    requires ready { IsReadyFor (scope_at scope.now) (valuation_at values.old.entries.items) }
    requires narrow { IsNarrow (scope_at scope.now) (tree_of expression.now) }
    requires items_narrow { AreNarrowItems (scope_at scope.now) (item_list items.now) }
    ensures { OnOk result (effect_at values.new updates.new.items
        ≡ after_updates (updates_of updates.old.items)
        (run (scope_at scope.now) (meaning_case (case_kind_of kind) (tree_of expression.now) (item_list items.now))
        (valuation_at values.old.entries.items))) }
{
    match chosen_item(expression, items, scope, &values.entries, kind) {
        Some(index) => run_item(alloc, &items[index], scope, values, updates),
        None => Ok(()),
    }
}

/// Runs the statement of an item of a case.
#[cycle(run)]
fn run_item<'s>(
    alloc: Global,
    item: &CaseItem<'s>,
    scope: &Scope<'_>,
    values: &mut Values<'s>,
    updates: &mut Vec<Update<'s>>,
) -> Result<(), AllocError>
    requires ready { IsReadyFor (scope_at scope.now) (valuation_at values.old.entries.items) }
    requires narrow { IsNarrowStatement (scope_at scope.now) (item_statement item.now) }
    ensures { OnOk result (effect_at values.new updates.new.items
        ≡ after_updates (updates_of updates.old.items)
        (run (scope_at scope.now) (item_statement item.now) (valuation_at values.old.entries.items))) }
{
    match item {
        CaseItem::Values(_, statement) => run_statement(alloc, statement, scope, values, updates),
        CaseItem::Default(statement) => run_statement(alloc, statement, scope, values, updates),
    }
}

//! Statements lowered to terms: each assignment is written under the condition on which it is reached.

ghost use Rattle.std.specs.Prelude.{◌≡◌, ℕ, Option, IfOk, OnOk, cond};
ghost use Rattle.wb_values.specs.Value.{word, Valuation};
ghost use Rattle.verilog_trees.specs.Syntax as pure;
ghost use Rattle.verilog_meaning.specs.Expression.{is_true};
ghost use Rattle.verilog_meaning.specs.Statement.{Effect, run, run_all};
ghost use Rattle.v_syntax.specs.Tree.{tree_of, target_of, statement_of, or_empty, case_kind_of};
ghost use Rattle.v_value.specs.Scope.{scope_at};
ghost use Rattle.v_value.specs.Narrow.{HasNarrowObjects};
ghost use Rattle.v_operators.specs.Meaning.{Grows, IsOfSort};
ghost use Rattle.v_lower.specs.Lowered.{Images, HasImages};
ghost use Rattle.v_lower.specs.Table.{images_at};
ghost use Rattle.v_lower.specs.Walking.{IsSound};
ghost use Rattle.v_write.specs.Guard.{IsGuard};
ghost use Rattle.v_write.specs.Sound.{IsSoundAssignment, IsSoundStatement, AreSoundStatements, AreSoundBranches, AreSoundItems, statement_list, arm_list, item_list};
ghost use Rattle.v_write.specs.Matching.{IsComparable};
ghost use Rattle.v_write.specs.Cases.{item_effect, item_statement};
ghost use Rattle.v_write.specs.Running.{Runs, Always, IsWorth, IsGoing};

use crate::NoMemory;
use crate::choosing::{Selector, default_item, item_matches, lowered_selector};
use crate::preparing::prepared;
use crate::reading::{condition, sides};
use crate::writing::write_parts;
use std::alloc::Global;
use v_lower::NamedTerms;
use v_syntax::tree::{Arm, CaseItem, CaseKind, Expression, Statement, Target};
use v_value::scope::Scope;
use wb_terms::{TermId, Terms};

/// A blocking assignment, where a condition holds.
pub(crate) fn assign<'s>(
    alloc: Global,
    target: &Target<'s>,
    expression: &Expression<'s>,
    scope: &Scope<'_>,
    table: &mut NamedTerms<'s>,
    terms: &mut Terms,
    guard: Option<TermId>,
) -> Result<(), NoMemory>
    requires objects { HasNarrowObjects (scope_at scope.now) }
    requires known { HasImages (scope_at scope.now) (images_at table.old) terms.old }
    requires guard { IsGuard terms.old guard }
    requires sound { IsSoundAssignment (scope_at scope.now) (target_of target.now) (tree_of expression.now) }
    ensures grows { Grows terms.old terms.new }
    ensures ran { OnOk result ((n : Images) → HasImages (scope_at scope.now) n terms.old → Runs (scope_at scope.now) (images_at table.old) n terms.old guard (run (scope_at scope.now) (pure.blocking (target_of target.now) (tree_of expression.now))) (images_at table.new) n terms.new) }
{
    let ready = prepared(alloc, target, expression, scope, table, terms)?;
    write_parts(
        scope,
        table,
        terms,
        &ready.parts,
        ready.value,
        ready.width,
        guard,
    )?;
    Ok(())
}

/// A nonblocking assignment, where a condition holds: its places and its value are read in one table, and written in the other.
pub(crate) fn defer<'s>(
    alloc: Global,
    target: &Target<'s>,
    expression: &Expression<'s>,
    scope: &Scope<'_>,
    table: &NamedTerms<'_>,
    next: &mut NamedTerms<'s>,
    terms: &mut Terms,
    guard: Option<TermId>,
) -> Result<(), NoMemory>
    requires objects { HasNarrowObjects (scope_at scope.now) }
    requires known { HasImages (scope_at scope.now) (images_at table.now) terms.old }
    requires known_next { HasImages (scope_at scope.now) (images_at next.old) terms.old }
    requires guard { IsGuard terms.old guard }
    requires sound { IsSoundAssignment (scope_at scope.now) (target_of target.now) (tree_of expression.now) }
    ensures grows { Grows terms.old terms.new }
    ensures ran { OnOk result (Runs (scope_at scope.now) (images_at table.now) (images_at next.old) terms.old guard (run (scope_at scope.now) (pure.nonblocking (target_of target.now) (tree_of expression.now))) (images_at table.now) (images_at next.new) terms.new) }
{
    let ready = prepared(alloc, target, expression, scope, table, terms)?;
    write_parts(
        scope,
        next,
        terms,
        &ready.parts,
        ready.value,
        ready.width,
        guard,
    )?;
    Ok(())
}

/// A statement, where a condition holds.
#[cycle(run)]
pub(crate) fn run_statement<'s>(
    alloc: Global,
    statement: &Statement<'s>,
    scope: &Scope<'_>,
    table: &mut NamedTerms<'s>,
    next: &mut NamedTerms<'s>,
    terms: &mut Terms,
    guard: Option<TermId>,
) -> Result<(), NoMemory>
    requires objects { HasNarrowObjects (scope_at scope.now) }
    requires known { HasImages (scope_at scope.now) (images_at table.old) terms.old }
    requires known_next { HasImages (scope_at scope.now) (images_at next.old) terms.old }
    requires guard { IsGuard terms.old guard }
    requires sound { IsSoundStatement (scope_at scope.now) (statement_of statement.now) }
    ensures grows { Grows terms.old terms.new }
    ensures ran { OnOk result (Runs (scope_at scope.now) (images_at table.old) (images_at next.old) terms.old guard (run (scope_at scope.now) (statement_of statement.now)) (images_at table.new) (images_at next.new) terms.new) }
{
    match statement {
        Statement::Empty => Ok(()),
        Statement::Blocking(target, expression) => {
            assign(alloc, target, expression, scope, table, terms, guard)?;
            Ok(())
        }
        Statement::Nonblocking(target, expression) => {
            defer(alloc, target, expression, scope, table, next, terms, guard)?;
            Ok(())
        }
        Statement::If(arms, last) => {
            let rest = run_arms(alloc, arms, scope, table, next, terms, guard)?;
            match last {
                Some(other) => {
                    run_statement(alloc, other, scope, table, next, terms, rest)?;
                    Ok(())
                }
                None => Ok(()),
            }
        }
        Statement::Case(kind, expression, items) => {
            run_case(
                alloc, items, expression, scope, *kind, table, next, terms, guard,
            )?;
            Ok(())
        }
        Statement::Block(_, statements) => {
            run_all(alloc, statements, scope, table, next, terms, guard)?;
            Ok(())
        }
    }
}

/// Statements one after the other, where a condition holds.
#[cycle(run)]
fn run_all<'s>(
    alloc: Global,
    statements: &[Statement<'s>],
    scope: &Scope<'_>,
    table: &mut NamedTerms<'s>,
    next: &mut NamedTerms<'s>,
    terms: &mut Terms,
    guard: Option<TermId>,
) -> Result<(), NoMemory>
    requires objects { HasNarrowObjects (scope_at scope.now) }
    requires known { HasImages (scope_at scope.now) (images_at table.old) terms.old }
    requires known_next { HasImages (scope_at scope.now) (images_at next.old) terms.old }
    requires guard { IsGuard terms.old guard }
    requires sound { AreSoundStatements (scope_at scope.now) (statement_list statements.now) }
    ensures grows { Grows terms.old terms.new }
    ensures ran { OnOk result (Runs (scope_at scope.now) (images_at table.old) (images_at next.old) terms.old guard (run_all (scope_at scope.now) (statement_list statements.now)) (images_at table.new) (images_at next.new) terms.new) }
{
    for statement in statements {
        run_statement(alloc, statement, scope, table, next, terms, guard)?;
    }
    Ok(())
}

/// The arms of a ladder, where a condition holds. It answers the condition on which none of them is taken.
#[cycle(run)]
fn run_arms<'s>(
    alloc: Global,
    arms: &[Arm<'s>],
    scope: &Scope<'_>,
    table: &mut NamedTerms<'s>,
    next: &mut NamedTerms<'s>,
    terms: &mut Terms,
    guard: Option<TermId>,
) -> Result<Option<TermId>, NoMemory>
    requires objects { HasNarrowObjects (scope_at scope.now) }
    requires known { HasImages (scope_at scope.now) (images_at table.old) terms.old }
    requires known_next { HasImages (scope_at scope.now) (images_at next.old) terms.old }
    requires guard { IsGuard terms.old guard }
    requires sound { AreSoundBranches (scope_at scope.now) arms.now }
    ensures grows { Grows terms.old terms.new }
    ensures going { IfOk result (λ r. (y : Option pure.Statement) → IsGoing (scope_at scope.now) (images_at table.old) (images_at next.old) terms.old Always guard (λ v. run (scope_at scope.now) (or_empty (arm_list arms.now y)) v)
        (images_at table.new) (images_at next.new) terms.new r (λ v. run (scope_at scope.now) (or_empty y) v)) }
{
    let mut rest = guard;
    for arm in arms {
        rest = run_arm(alloc, arm, scope, table, next, terms, rest)?;
    }
    Ok(rest)
}

/// One arm of a ladder, where a condition holds. It answers the condition on which it is not taken.
#[cycle(run)]
fn run_arm<'s>(
    alloc: Global,
    arm: &Arm<'s>,
    scope: &Scope<'_>,
    table: &mut NamedTerms<'s>,
    next: &mut NamedTerms<'s>,
    terms: &mut Terms,
    guard: Option<TermId>,
) -> Result<Option<TermId>, NoMemory>
    requires objects { HasNarrowObjects (scope_at scope.now) }
    requires known { HasImages (scope_at scope.now) (images_at table.old) terms.old }
    requires known_next { HasImages (scope_at scope.now) (images_at next.old) terms.old }
    requires guard { IsGuard terms.old guard }
    requires condition { IsSound (scope_at scope.now) (tree_of arm.now.condition) }
    requires sound { IsSoundStatement (scope_at scope.now) (statement_of arm.now.statement) }
    ensures grows { Grows terms.old terms.new }
    ensures going { IfOk result (λ r. (rest : Valuation → Effect) → IsGoing (scope_at scope.now) (images_at table.old) (images_at next.old) terms.old Always guard
        (λ v. cond (is_true (scope_at scope.now) v (tree_of arm.now.condition)) (run (scope_at scope.now) (statement_of arm.now.statement) v) (rest v))
        (images_at table.new) (images_at next.new) terms.new r rest) }
{
    let said = condition(&arm.condition, scope, table, terms)?;
    let split = sides(terms, guard, said)?;
    run_statement(
        alloc,
        &arm.statement,
        scope,
        table,
        next,
        terms,
        Some(split.taken),
    )?;
    Ok(Some(split.other))
}

/// A case, where a condition holds: its items in their order, and then its default, wherever that stands.
#[cycle(run)]
fn run_case<'s>(
    alloc: Global,
    items: &[CaseItem<'s>],
    expression: &Expression<'s>,
    scope: &Scope<'_>,
    kind: CaseKind,
    table: &mut NamedTerms<'s>,
    next: &mut NamedTerms<'s>,
    terms: &mut Terms,
    guard: Option<TermId>,
) -> Result<(), NoMemory>
    requires objects { HasNarrowObjects (scope_at scope.now) }
    requires known { HasImages (scope_at scope.now) (images_at table.old) terms.old }
    requires known_next { HasImages (scope_at scope.now) (images_at next.old) terms.old }
    requires guard { IsGuard terms.old guard }
    requires expression { IsSound (scope_at scope.now) (tree_of expression.now) }
    requires items { AreSoundItems (scope_at scope.now) (case_kind_of kind) (item_list items.now) }
    ensures grows { Grows terms.old terms.new }
    ensures ran { OnOk result (Runs (scope_at scope.now) (images_at table.old) (images_at next.old) terms.old guard
        (run (scope_at scope.now) (pure.case (case_kind_of kind) (tree_of expression.now) (item_list items.now))) (images_at table.new) (images_at next.new) terms.new) }
{
    let selector = lowered_selector(expression, items, scope, table, terms, kind)?;
    let mut rest = guard;
    for item in items {
        rest = run_item(alloc, item, scope, selector, table, next, terms, rest)?;
    }
    match default_item(items) {
        Some(index) => {
            run_default(alloc, &items[index], scope, table, next, terms, rest)?;
            Ok(())
        }
        None => Ok(()),
    }
}

/// One item of a case, where a condition holds. It answers the condition on which it does not match; a default never does.
#[cycle(run)]
fn run_item<'s>(
    alloc: Global,
    item: &CaseItem<'s>,
    scope: &Scope<'_>,
    selector: Selector,
    table: &mut NamedTerms<'s>,
    next: &mut NamedTerms<'s>,
    terms: &mut Terms,
    guard: Option<TermId>,
) -> Result<Option<TermId>, NoMemory>
    requires objects { HasNarrowObjects (scope_at scope.now) }
    requires known { HasImages (scope_at scope.now) (images_at table.old) terms.old }
    requires known_next { HasImages (scope_at scope.now) (images_at next.old) terms.old }
    requires guard { IsGuard terms.old guard }
    requires selector { IsOfSort terms.old selector.id.0 (word selector.width) }
    requires item { IsComparable (scope_at scope.now) (case_kind_of selector.kind) selector.width item.now }
    ensures grows { Grows terms.old terms.new }
    ensures going { IfOk result (λ r. (a : ℕ) (rest : Valuation → Effect) → IsGoing (scope_at scope.now) (images_at table.old) (images_at next.old) terms.old
        (IsWorth terms.old selector.id.0 selector.width a) guard
        (λ v. item_effect (scope_at scope.now) (case_kind_of selector.kind) selector.width selector.signed a item.now v (rest v))
        (images_at table.new) (images_at next.new) terms.new r rest) }
{
    match item {
        CaseItem::Values(values, statement) => {
            let said = item_matches(values, scope, table, terms, selector)?;
            let split = sides(terms, guard, said)?;
            run_statement(
                alloc,
                statement,
                scope,
                table,
                next,
                terms,
                Some(split.taken),
            )?;
            Ok(Some(split.other))
        }
        CaseItem::Default(_) => Ok(guard),
    }
}

/// The statement of the default of a case, where a condition holds.
#[cycle(run)]
fn run_default<'s>(
    alloc: Global,
    item: &CaseItem<'s>,
    scope: &Scope<'_>,
    table: &mut NamedTerms<'s>,
    next: &mut NamedTerms<'s>,
    terms: &mut Terms,
    guard: Option<TermId>,
) -> Result<(), NoMemory>
    requires objects { HasNarrowObjects (scope_at scope.now) }
    requires known { HasImages (scope_at scope.now) (images_at table.old) terms.old }
    requires known_next { HasImages (scope_at scope.now) (images_at next.old) terms.old }
    requires guard { IsGuard terms.old guard }
    requires sound { IsSoundStatement (scope_at scope.now) (item_statement item.now) }
    ensures grows { Grows terms.old terms.new }
    ensures ran { OnOk result (Runs (scope_at scope.now) (images_at table.old) (images_at next.old) terms.old guard (run (scope_at scope.now) (item_statement item.now)) (images_at table.new) (images_at next.new) terms.new) }
{
    match item {
        CaseItem::Values(_, statement) => {
            run_statement(alloc, statement, scope, table, next, terms, guard)?;
            Ok(())
        }
        CaseItem::Default(statement) => {
            run_statement(alloc, statement, scope, table, next, terms, guard)?;
            Ok(())
        }
    }
}

//! What a statement of a combinational block assigns on each path, and what it reads from outside, in one walk.

ghost use Rattle.std.specs.Prelude.{◌≡◌, true, IfOk, OnOk};
ghost use Rattle.verilog_designs.specs.Reads.{or_in, but_not_in, reads, target_reads, surely_reaches, no_bits};
ghost use Rattle.v_syntax.specs.Tree.{tree_of, target_of, statement_of};
ghost use Rattle.v_value.specs.Scope.{scope_at};
ghost use Rattle.v_value.specs.Narrow.{IsNarrow, HasNarrowObjects};
ghost use Rattle.v_statement.specs.Effects.{item_statement};
ghost use Rattle.v_flow.specs.Spans.{bits_in, existing};
ghost use Rattle.v_flow.specs.Narrow.{HasNarrowParts, IsNarrowFlow};
ghost use Rattle.v_flow.specs.Flow.{assigned_at, all_assigned, ladder_assigned, bodies_assigned, AreNarrowLadder, AreNarrowAll, AreNarrowItems};
ghost use Rattle.v_masks.specs.Masks.{masked, spread};
ghost use Rattle.v_paths.specs.Premises.{HasNoMemory};
ghost use Rattle.v_paths.specs.Walks.{sure_at, outside_at, all_sure, all_outside, ladder_sure, ladder_outside, met as met_in, bodies_sure, bodies_outside, where_full};

use crate::full::is_full;
use crate::label::add_all_labels;
use crate::mask::{add_left, add_spans, met};
use std::alloc::{AllocError, Global};
use std::collections::BTreeMap;
use v_flow::span::Span;
use v_flow::{add_reads, add_surely_reached, add_target_reads};
use v_syntax::tree::{Arm, CaseItem, Expression, Statement, Target};
use v_value::scope::Scope;

/// Adds what an assignment reads: its value, and the indexes of its target.
fn add_assignment<'s>(
    target: &Target<'s>,
    value: &Expression<'s>,
    scope: &Scope<'_>,
    outside: &mut Vec<Span<'s>>,
) -> Result<(), AllocError>
    requires objects { HasNarrowObjects (scope_at scope.now) }
    requires target { HasNarrowParts (scope_at scope.now) (target_of target.now) }
    requires value { IsNarrow (scope_at scope.now) (tree_of value.now) }
    ensures { OnOk result (bits_in outside.new.items
        ≡ or_in (bits_in outside.old.items) (or_in (reads (scope_at scope.now) (tree_of value.now)) (target_reads (scope_at scope.now) (target_of target.now)))) }
{
    add_reads(value, scope, outside)?;
    add_target_reads(target, scope, outside)?;
    Ok(())
}

/// The bits that an assignment to a target assigns, whatever its variable indexes are.
fn reached<'s>(
    alloc: Global,
    target: &Target<'s>,
    scope: &Scope<'_>,
) -> Result<Vec<Span<'s>>, AllocError>
    requires objects { HasNarrowObjects (scope_at scope.now) }
    requires narrow { HasNarrowParts (scope_at scope.now) (target_of target.now) }
    ensures { IfOk result (λ v. bits_in v.items ≡ existing (scope_at scope.now) (surely_reaches (scope_at scope.now) (target_of target.now))) }
{
    let mut sure = Vec::new(alloc);
    add_surely_reached(target, scope, &mut sure)?;
    Ok(sure)
}

/// A statement of a block reads these spans and assigns those, after statements that assign the spans of `sure`, which `done` has too.
fn follow<'s>(
    done: &mut BTreeMap<&'s str, u128>,
    sure: &mut Vec<Span<'s>>,
    read: &[Span<'s>],
    assigned: &[Span<'s>],
    outside: &mut Vec<Span<'s>>,
) -> Result<(), AllocError>
    ensures outside { OnOk result (bits_in outside.new.items ≡ or_in (bits_in outside.old.items) (but_not_in (bits_in read.now) (masked done.old))) }
    ensures done { OnOk result (masked done.new ≡ or_in (masked done.old) (spread (bits_in assigned.now))) }
    ensures sure { OnOk result (bits_in sure.new.items ≡ or_in (bits_in sure.old.items) (bits_in assigned.now)) }
{
    add_left(done, read, outside)?;
    add_spans(done, assigned)?;
    sure.extend_from_slice(assigned)?;
    Ok(())
}

/// What arms assign that assign these spans, where those before them all assign the others.
fn met_arms<'s>(
    alloc: Global,
    first: bool,
    before: &[Span<'s>],
    assigned: Vec<Span<'s>>,
) -> Result<Vec<Span<'s>>, AllocError>
    ensures { IfOk result (λ v. bits_in v.items ≡ met_in first (bits_in assigned.entry.items) (spread (bits_in before.now))) }
{
    if first {
        return Ok(assigned);
    }
    let both = met(alloc, before, &assigned)?;
    Ok(both)
}

/// What a case assigns whose items all assign these spans.
fn sure_where<'s>(alloc: Global, full: bool, sure: Vec<Span<'s>>) -> Vec<Span<'s>>
    ensures { bits_in result.items ≡ where_full full (bits_in sure.entry.items) }
{
    if full { sure } else { Vec::new(alloc) }
}

/// The bits that a statement assigns on each path; adds those that it reads from outside.
#[cycle(walking)]
pub(crate) fn walk<'s>(
    alloc: Global,
    statement: &Statement<'s>,
    scope: &Scope<'_>,
    outside: &mut Vec<Span<'s>>,
) -> Result<Vec<Span<'s>>, AllocError>
    requires objects { HasNarrowObjects (scope_at scope.now) }
    requires narrow { IsNarrowFlow (scope_at scope.now) (statement_of statement.now) }
    requires plain { HasNoMemory (scope_at scope.now) (assigned_at (scope_at scope.now) (statement_of statement.now)) }
    ensures sure { IfOk result (λ v. bits_in v.items ≡ sure_at (scope_at scope.now) (statement_of statement.now)) }
    ensures outside { OnOk result (bits_in outside.new.items ≡ or_in (bits_in outside.old.items) (outside_at (scope_at scope.now) (statement_of statement.now))) }
{
    match statement {
        Statement::Empty => Ok(Vec::new(alloc)),
        Statement::Blocking(target, value) => {
            add_assignment(target, value, scope, outside)?;
            let sure = reached(alloc, target, scope)?;
            Ok(sure)
        }
        Statement::Nonblocking(target, value) => {
            add_assignment(target, value, scope, outside)?;
            Ok(Vec::new(alloc))
        }
        Statement::If(arms, last) => match last {
            Some(other) => {
                let otherwise = walk(alloc, other, scope, outside)?;
                let sure = ladder(alloc, arms, scope, otherwise, outside)?;
                Ok(sure)
            }
            None => {
                let sure = ladder(alloc, arms, scope, Vec::new(alloc), outside)?;
                Ok(sure)
            }
        },
        Statement::Case(kind, value, items) => {
            add_reads(value, scope, outside)?;
            add_all_labels(items, scope, outside)?;
            let full = is_full(alloc, value, items, scope, *kind)?;
            let sure = bodies(alloc, items, scope, outside)?;
            Ok(sure_where(alloc, full, sure))
        }
        Statement::Block(_, statements) => {
            let sure = in_turn(alloc, statements, scope, outside)?;
            Ok(sure)
        }
    }
}

/// Statements one after the other: what is read after an assignment to it is not read from outside.
#[cycle(walking)]
fn in_turn<'s>(
    alloc: Global,
    statements: &[Statement<'s>],
    scope: &Scope<'_>,
    outside: &mut Vec<Span<'s>>,
) -> Result<Vec<Span<'s>>, AllocError>
    requires objects { HasNarrowObjects (scope_at scope.now) }
    requires narrow { AreNarrowAll (scope_at scope.now) statements.now }
    requires plain { HasNoMemory (scope_at scope.now) (all_assigned (scope_at scope.now) statements.now) }
    ensures sure { IfOk result (λ v. bits_in v.items ≡ all_sure (scope_at scope.now) statements.now) }
    ensures outside { OnOk result (bits_in outside.new.items ≡ or_in (bits_in outside.old.items) (all_outside (scope_at scope.now) statements.now)) }
{
    let mut sure = Vec::new(alloc);
    let mut done = BTreeMap::new(alloc);
    for statement in statements {
        let mut read = Vec::new(alloc);
        let assigned = walk(alloc, statement, scope, &mut read)?;
        follow(&mut done, &mut sure, &read, &assigned, outside)?;
    }
    Ok(sure)
}

/// Arms of an `if`: these spans are assigned where no arm is taken.
#[cycle(walking)]
fn ladder<'s>(
    alloc: Global,
    arms: &[Arm<'s>],
    scope: &Scope<'_>,
    otherwise: Vec<Span<'s>>,
    outside: &mut Vec<Span<'s>>,
) -> Result<Vec<Span<'s>>, AllocError>
    requires objects { HasNarrowObjects (scope_at scope.now) }
    requires narrow { AreNarrowLadder (scope_at scope.now) arms.now }
    requires plain { HasNoMemory (scope_at scope.now) (ladder_assigned (scope_at scope.now) arms.now) }
    ensures sure { IfOk result (λ v. bits_in v.items ≡ ladder_sure (scope_at scope.now) arms.now (bits_in otherwise.entry.items)) }
    ensures outside { OnOk result (bits_in outside.new.items ≡ or_in (bits_in outside.old.items) (ladder_outside (scope_at scope.now) arms.now)) }
{
    let mut sure = otherwise;
    for arm in arms {
        add_reads(&arm.condition, scope, outside)?;
        let assigned = walk(alloc, &arm.statement, scope, outside)?;
        sure = met_arms(alloc, false, &sure, assigned)?;
    }
    Ok(sure)
}

/// The bits that all items of a case assign; none where it has no item.
#[cycle(walking)]
fn bodies<'s>(
    alloc: Global,
    items: &[CaseItem<'s>],
    scope: &Scope<'_>,
    outside: &mut Vec<Span<'s>>,
) -> Result<Vec<Span<'s>>, AllocError>
    requires objects { HasNarrowObjects (scope_at scope.now) }
    requires narrow { AreNarrowItems (scope_at scope.now) items.now }
    requires plain { HasNoMemory (scope_at scope.now) (bodies_assigned (scope_at scope.now) items.now) }
    ensures sure { IfOk result (λ v. bits_in v.items ≡ bodies_sure (scope_at scope.now) items.now true no_bits) }
    ensures outside { OnOk result (bits_in outside.new.items ≡ or_in (bits_in outside.old.items) (bodies_outside (scope_at scope.now) items.now)) }
{
    let mut sure = Vec::new(alloc);
    let mut first = true;
    for item in items {
        let assigned = body(alloc, item, scope, outside)?;
        sure = met_arms(alloc, first, &sure, assigned)?;
        first = false;
    }
    Ok(sure)
}

#[cycle(walking)]
fn body<'s>(
    alloc: Global,
    item: &CaseItem<'s>,
    scope: &Scope<'_>,
    outside: &mut Vec<Span<'s>>,
) -> Result<Vec<Span<'s>>, AllocError>
    requires objects { HasNarrowObjects (scope_at scope.now) }
    requires narrow { IsNarrowFlow (scope_at scope.now) (item_statement item.now) }
    requires plain { HasNoMemory (scope_at scope.now) (assigned_at (scope_at scope.now) (item_statement item.now)) }
    ensures sure { IfOk result (λ v. bits_in v.items ≡ sure_at (scope_at scope.now) (item_statement item.now)) }
    ensures outside { OnOk result (bits_in outside.new.items ≡ or_in (bits_in outside.old.items) (outside_at (scope_at scope.now) (item_statement item.now))) }
{
    match item {
        CaseItem::Values(_, statement) => {
            let sure = walk(alloc, statement, scope, outside)?;
            Ok(sure)
        }
        CaseItem::Default(statement) => {
            let sure = walk(alloc, statement, scope, outside)?;
            Ok(sure)
        }
    }
}

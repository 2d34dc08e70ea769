//! What a run of a combinational block leaves resting on bits that are not settled yet.

ghost use Rattle.std.specs.Prelude.{◌≡◌, ◌↔◌, cond, Option, IsTrue, IfOk, OnOk};
ghost use Rattle.verilog_trees.specs.Syntax as pure;
ghost use Rattle.verilog_meaning.specs.Register.{may_assign};
ghost use Rattle.verilog_designs.specs.Reads.{no_bits, or_in, reads, reads_in_all, items_read};
ghost use Rattle.verilog_designs.specs.Dependence.{Bit, is_in, AfterAll};
ghost use Rattle.v_syntax.specs.Tree.{tree_of, statement_of, expressions_of, arm_before, or_empty};
ghost use Rattle.v_statement.specs.Statements.{statement_list, arm_list};
ghost use Rattle.v_statement.specs.Effects.{item_list, item_statement};
ghost use Rattle.v_value.specs.Scope.{scope_at};
ghost use Rattle.v_value.specs.Narrow.{IsNarrow, AreNarrow, HasNarrowObjects};
ghost use Rattle.v_flow.specs.Spans.{bits_in, existing};
ghost use Rattle.v_flow.specs.Narrow.{IsNarrowFlow};
ghost use Rattle.v_flow.specs.Flow.{IsNarrowLabel, AreNarrowItems};
ghost use Rattle.v_masks.specs.Masks.{masked, spread};
ghost use Rattle.v_paths.specs.Premises.{HasNoMemory, AssignsNoMemory};
ghost use Rattle.v_depend.specs.Resting.{IsThere, OneIsUnsettled, at_first, RestsAfter};
ghost use Rattle.v_depend.specs.Running.{HasNarrowTargets, IsFit, AreFit, AreFitArms, AreFitItems, Tells, Adds, AddsArms, label_bits};

use crate::assignment::take;
use crate::read::{meets, rests};
use crate::table::{copy_of, unite};
use std::alloc::{AllocError, Global};
use std::collections::BTreeMap;
use v_flow::span::Span;
use v_flow::{add_assigned, add_reads};
use v_paths::is_full;
use v_paths::mask::add_spans;
use v_syntax::tree::{Arm, CaseItem, Expression, Statement};
use v_value::scope::Scope;

// ---- what is read and assigned

/// Adds the bits that a statement may assign.
fn add_assigned_bits<'s>(
    alloc: Global,
    statement: &Statement<'s>,
    scope: &Scope<'_>,
    assigned: &mut BTreeMap<&'s str, u128>,
) -> Result<(), AllocError>
    requires objects { HasNarrowObjects (scope_at scope.now) }
    requires narrow { IsNarrowFlow (scope_at scope.now) (statement_of statement.now) }
    ensures { OnOk result (masked assigned.new ≡ or_in (masked assigned.old) (spread (existing (scope_at scope.now) (may_assign (scope_at scope.now) (statement_of statement.now))))) }
{
    let mut spans = Vec::new(alloc);
    add_assigned(statement, scope, &mut spans)?;
    add_spans(assigned, &spans)?;
    Ok(())
}

/// Adds the bits that expressions read.
fn add_all_reads<'s>(
    expressions: &[Expression<'s>],
    scope: &Scope<'_>,
    found: &mut Vec<Span<'s>>,
) -> Result<(), AllocError>
    requires objects { HasNarrowObjects (scope_at scope.now) }
    requires narrow { AreNarrow (scope_at scope.now) (expressions_of expressions.now) }
    ensures { OnOk result (bits_in found.new.items ≡ or_in (bits_in found.old.items) (reads_in_all (scope_at scope.now) (expressions_of expressions.now))) }
{
    for expression in expressions {
        add_reads(expression, scope, found)?;
    }
    Ok(())
}

/// Adds the bits that the values of an item read.
fn add_label_reads<'s>(
    item: &CaseItem<'s>,
    scope: &Scope<'_>,
    found: &mut Vec<Span<'s>>,
) -> Result<(), AllocError>
    requires objects { HasNarrowObjects (scope_at scope.now) }
    requires narrow { IsNarrowLabel (scope_at scope.now) item.now }
    ensures { OnOk result (bits_in found.new.items ≡ or_in (bits_in found.old.items) (label_bits (scope_at scope.now) item.now)) }
{
    match item {
        CaseItem::Values(values, _) => add_all_reads(values, scope, found),
        CaseItem::Default(_) => Ok(()),
    }
}

/// Adds the bits that the values of items read.
fn add_labels<'s>(
    items: &[CaseItem<'s>],
    scope: &Scope<'_>,
    found: &mut Vec<Span<'s>>,
) -> Result<(), AllocError>
    requires objects { HasNarrowObjects (scope_at scope.now) }
    requires narrow { AreNarrowItems (scope_at scope.now) items.now }
    ensures { OnOk result (bits_in found.new.items ≡ or_in (bits_in found.old.items) (items_read (scope_at scope.now) (item_list items.now))) }
{
    for item in items {
        add_label_reads(item, scope, found)?;
    }
    Ok(())
}

/// Whether one of the bits that a case reads at its start is not settled.
fn choice_rests<'s>(
    alloc: Global,
    value: &Expression<'s>,
    items: &[CaseItem<'s>],
    scope: &Scope<'_>,
    unsettled: &BTreeMap<&'s str, u128>,
) -> Result<bool, AllocError>
    requires objects { HasNarrowObjects (scope_at scope.now) }
    requires value { IsNarrow (scope_at scope.now) (tree_of value.now) }
    requires items { AreNarrowItems (scope_at scope.now) items.now }
    ensures { IfOk result (λ r. IsTrue r ↔ OneIsUnsettled (masked unsettled.now) (or_in (reads (scope_at scope.now) (tree_of value.now)) (items_read (scope_at scope.now) (item_list items.now)))) }
{
    let mut spans = Vec::new(alloc);
    add_reads(value, scope, &mut spans)?;
    add_labels(items, scope, &mut spans)?;
    let met = meets(&spans, unsettled);
    Ok(met)
}

// ---- choices

/// Adds all that is assigned, where what chooses rests.
fn choose<'s>(
    alloc: Global,
    rests: bool,
    assigned: &BTreeMap<&'s str, u128>,
    left: &mut BTreeMap<&'s str, u128>,
) -> Result<(), AllocError>
    ensures { OnOk result (masked left.new ≡ or_in (masked left.old) (cond rests (masked assigned.now) no_bits)) }
{
    if rests {
        return unite(alloc, assigned, left);
    }
    Ok(())
}

/// What is left where no item of a case matches: nothing where the case is full.
fn unmatched<'s>(
    alloc: Global,
    full: bool,
    unsettled: &BTreeMap<&'s str, u128>,
) -> Result<BTreeMap<&'s str, u128>, AllocError>
    ensures { IfOk result (λ t. masked t ≡ cond full no_bits (masked unsettled.now)) }
{
    if full {
        return Ok(BTreeMap::new(alloc));
    }
    let copy = copy_of(alloc, unsettled)?;
    Ok(copy)
}

// ---- statements

/// Leaves in the table the bits that rest on its bits after a run of a statement.
#[cycle(running)]
fn run<'s>(
    alloc: Global,
    statement: &Statement<'s>,
    scope: &Scope<'_>,
    unsettled: &mut BTreeMap<&'s str, u128>,
) -> Result<(), AllocError>
    requires objects { HasNarrowObjects (scope_at scope.now) }
    requires fit { IsFit (scope_at scope.now) (statement_of statement.now) }
    requires variables { HasNoMemory (scope_at scope.now) (existing (scope_at scope.now) (masked unsettled.old)) }
    ensures { OnOk result ((u : Bit) → IsThere (scope_at scope.now) u
        → IsTrue (is_in (masked unsettled.new) u) ↔ RestsAfter (masked unsettled.old) (scope_at scope.now) (statement_of statement.now) u) }
{
    match statement {
        Statement::Empty => Ok(()),
        Statement::Blocking(target, value) => {
            take(alloc, target, value, scope, unsettled)?;
            Ok(())
        }
        Statement::Nonblocking(_, _) => Ok(()),
        Statement::If(arms, last) => match last {
            Some(other) => {
                let mut left = copy_of(alloc, unsettled)?;
                run(alloc, other, scope, &mut left)?;
                let mut assigned = BTreeMap::new(alloc);
                add_assigned_bits(alloc, other, scope, &mut assigned)?;
                ladder(alloc, arms, scope, unsettled, &mut assigned, &mut left)?;
                *unsettled = left;
                Ok(())
            }
            None => {
                let mut left = copy_of(alloc, unsettled)?;
                let mut assigned = BTreeMap::new(alloc);
                ladder(alloc, arms, scope, unsettled, &mut assigned, &mut left)?;
                *unsettled = left;
                Ok(())
            }
        },
        Statement::Case(kind, value, items) => {
            let full = is_full(alloc, value, items, scope, *kind)?;
            let rests = choice_rests(alloc, value, items, scope, unsettled)?;
            let mut left = unmatched(alloc, full, unsettled)?;
            let mut assigned = BTreeMap::new(alloc);
            bodies(alloc, items, scope, unsettled, &mut assigned, &mut left)?;
            choose(alloc, rests, &assigned, &mut left)?;
            *unsettled = left;
            Ok(())
        }
        Statement::Block(_, statements) => {
            in_turn(alloc, statements, scope, unsettled)?;
            Ok(())
        }
    }
}

/// The same of statements one after the other.
#[cycle(running)]
fn in_turn<'s>(
    alloc: Global,
    statements: &[Statement<'s>],
    scope: &Scope<'_>,
    unsettled: &mut BTreeMap<&'s str, u128>,
) -> Result<(), AllocError>
    requires objects { HasNarrowObjects (scope_at scope.now) }
    requires fit { AreFit (scope_at scope.now) statements.now }
    requires variables { HasNoMemory (scope_at scope.now) (existing (scope_at scope.now) (masked unsettled.old)) }
    ensures { OnOk result ((u : Bit) → IsThere (scope_at scope.now) u
        → IsTrue (is_in (masked unsettled.new) u) ↔ AfterAll (scope_at scope.now) (at_first (masked unsettled.old)) (statement_list statements.now) u u) }
{
    for statement in statements {
        run(alloc, statement, scope, unsettled)?;
    }
    Ok(())
}

/// Adds to what is left what a branch leaves that is run on a copy, and to what is assigned what it may assign.
#[cycle(running)]
fn add_branch<'s>(
    alloc: Global,
    statement: &Statement<'s>,
    scope: &Scope<'_>,
    unsettled: &BTreeMap<&'s str, u128>,
    assigned: &mut BTreeMap<&'s str, u128>,
    left: &mut BTreeMap<&'s str, u128>,
) -> Result<(), AllocError>
    requires objects { HasNarrowObjects (scope_at scope.now) }
    requires fit { IsFit (scope_at scope.now) (statement_of statement.now) }
    requires variables { HasNoMemory (scope_at scope.now) (existing (scope_at scope.now) (masked unsettled.now)) }
    ensures { OnOk result (Adds (masked unsettled.now) (scope_at scope.now) (statement_of statement.now)
        (masked assigned.old) (masked left.old) (masked assigned.new) (masked left.new)) }
{
    let mut copy = copy_of(alloc, unsettled)?;
    run(alloc, statement, scope, &mut copy)?;
    unite(alloc, &copy, left)?;
    add_assigned_bits(alloc, statement, scope, assigned)?;
    Ok(())
}

/// An arm of an `if` before what stands behind its `else`.
#[cycle(running)]
fn arm<'s>(
    alloc: Global,
    arm: &Arm<'s>,
    scope: &Scope<'_>,
    unsettled: &BTreeMap<&'s str, u128>,
    assigned: &mut BTreeMap<&'s str, u128>,
    left: &mut BTreeMap<&'s str, u128>,
) -> Result<(), AllocError>
    requires objects { HasNarrowObjects (scope_at scope.now) }
    requires narrow { IsNarrow (scope_at scope.now) (tree_of arm.now.condition) }
    requires fit { IsFit (scope_at scope.now) (statement_of arm.now.statement) }
    requires variables { HasNoMemory (scope_at scope.now) (existing (scope_at scope.now) (masked unsettled.now)) }
    ensures { OnOk result ((y : Option pure.Statement) → Tells (masked unsettled.now) (scope_at scope.now) (or_empty y) (masked assigned.old) (masked left.old)
        → Tells (masked unsettled.now) (scope_at scope.now) (arm_before (tree_of arm.now.condition) (statement_of arm.now.statement) y) (masked assigned.new) (masked left.new)) }
{
    add_branch(alloc, &arm.statement, scope, unsettled, assigned, left)?;
    let rests = rests(alloc, &arm.condition, scope, unsettled)?;
    choose(alloc, rests, assigned, left)?;
    Ok(())
}

/// Arms of an `if`, the last first.
#[cycle(running)]
fn ladder<'s>(
    alloc: Global,
    arms: &[Arm<'s>],
    scope: &Scope<'_>,
    unsettled: &BTreeMap<&'s str, u128>,
    assigned: &mut BTreeMap<&'s str, u128>,
    left: &mut BTreeMap<&'s str, u128>,
) -> Result<(), AllocError>
    requires objects { HasNarrowObjects (scope_at scope.now) }
    requires fit { AreFitArms (scope_at scope.now) arms.now }
    requires variables { HasNoMemory (scope_at scope.now) (existing (scope_at scope.now) (masked unsettled.now)) }
    ensures { OnOk result ((y : Option pure.Statement) → Tells (masked unsettled.now) (scope_at scope.now) (or_empty y) (masked assigned.old) (masked left.old)
        → Tells (masked unsettled.now) (scope_at scope.now) (or_empty (arm_list arms.now y)) (masked assigned.new) (masked left.new)) }
{
    for i in (0..arms.len()).rev() {
        arm(alloc, &arms[i], scope, unsettled, assigned, left)?;
    }
    Ok(())
}

/// Items of a case.
#[cycle(running)]
fn bodies<'s>(
    alloc: Global,
    items: &[CaseItem<'s>],
    scope: &Scope<'_>,
    unsettled: &BTreeMap<&'s str, u128>,
    assigned: &mut BTreeMap<&'s str, u128>,
    left: &mut BTreeMap<&'s str, u128>,
) -> Result<(), AllocError>
    requires objects { HasNarrowObjects (scope_at scope.now) }
    requires fit { AreFitItems (scope_at scope.now) items.now }
    requires variables { HasNoMemory (scope_at scope.now) (existing (scope_at scope.now) (masked unsettled.now)) }
    ensures { OnOk result (AddsArms (masked unsettled.now) (scope_at scope.now) (item_list items.now)
        (masked assigned.old) (masked left.old) (masked assigned.new) (masked left.new)) }
{
    for item in items {
        body(alloc, item, scope, unsettled, assigned, left)?;
    }
    Ok(())
}

#[cycle(running)]
fn body<'s>(
    alloc: Global,
    item: &CaseItem<'s>,
    scope: &Scope<'_>,
    unsettled: &BTreeMap<&'s str, u128>,
    assigned: &mut BTreeMap<&'s str, u128>,
    left: &mut BTreeMap<&'s str, u128>,
) -> Result<(), AllocError>
    requires objects { HasNarrowObjects (scope_at scope.now) }
    requires fit { IsFit (scope_at scope.now) (item_statement item.now) }
    requires variables { HasNoMemory (scope_at scope.now) (existing (scope_at scope.now) (masked unsettled.now)) }
    ensures { OnOk result (Adds (masked unsettled.now) (scope_at scope.now) (item_statement item.now)
        (masked assigned.old) (masked left.old) (masked assigned.new) (masked left.new)) }
{
    match item {
        CaseItem::Values(_, statement) => {
            add_branch(alloc, statement, scope, unsettled, assigned, left)?;
            Ok(())
        }
        CaseItem::Default(statement) => {
            add_branch(alloc, statement, scope, unsettled, assigned, left)?;
            Ok(())
        }
    }
}

/// Leaves in the table the bits that rest on its bits after a run of a statement of a combinational block. When memory runs out, nothing is
/// said of the table.
pub fn after<'s>(
    alloc: Global,
    statement: &Statement<'s>,
    scope: &Scope<'_>,
    unsettled: &mut BTreeMap<&'s str, u128>,
) -> Result<(), AllocError>
    requires objects { HasNarrowObjects (scope_at scope.now) }
    requires narrow { IsNarrowFlow (scope_at scope.now) (statement_of statement.now) }
    requires targets { HasNarrowTargets (scope_at scope.now) (statement_of statement.now) }
    requires plain { AssignsNoMemory (scope_at scope.now) (statement_of statement.now) }
    requires variables { HasNoMemory (scope_at scope.now) (existing (scope_at scope.now) (masked unsettled.old)) }
    ensures { OnOk result ((u : Bit) → IsThere (scope_at scope.now) u
        → IsTrue (is_in (masked unsettled.new) u) ↔ RestsAfter (masked unsettled.old) (scope_at scope.now) (statement_of statement.now) u) }
{
    run(alloc, statement, scope, unsettled)?;
    Ok(())
}

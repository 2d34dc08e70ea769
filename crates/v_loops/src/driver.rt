//! What a driver leaves resting on bits that are not settled yet, and what it settles. Most often a look at what it reads tells; else it is
//! looked at with a table of the bits alone that it reads or may assign.

ghost use Rattle.std.specs.Prelude.{◌≡◌, ◌↔◌, IsTrue, IfOk, OnOk};
ghost use Rattle.verilog_trees.specs.Syntax.{whole, place, blocking};
ghost use Rattle.verilog_meaning.specs.Register.{may_assign};
ghost use Rattle.verilog_designs.specs.Reads.{or_in, and_in};
ghost use Rattle.verilog_designs.specs.Drivers.{statement_reads};
ghost use Rattle.verilog_designs.specs.Dependence.{Bit, is_in};
ghost use Rattle.v_syntax.specs.Tree.{tree_of, target_of};
ghost use Rattle.v_value.specs.Scope.{scope_at};
ghost use Rattle.v_value.specs.Narrow.{HasNarrowObjects};
ghost use Rattle.v_flow.specs.Spans.{bits_in, existing};
ghost use Rattle.v_masks.specs.Masks.{masked, spread};
ghost use Rattle.v_paths.specs.Premises.{HasNoMemory};
ghost use Rattle.v_depend.specs.Resting.{IsThere, RestsAfter};
ghost use Rattle.v_depend.specs.Running.{IsFit};
ghost use Rattle.v_order.specs.Lists.{driving_in, statement_in};
ghost use Rattle.v_loops.specs.Turns.{is_constant_place, is_constant_link, RestsNowhere, TellsWhereAssigned, AreSettled};

use crate::span::{append, held_in};
use std::alloc::{AllocError, Global};
use std::collections::BTreeMap;
use v_depend::laws::rests_where_it_depends;
use v_depend::{after, meets, take};
use v_flow::are_constant_selects;
use v_flow::span::Span;
use v_order::driver::Driver;
use v_order::{add_driven, add_read};
use v_paths::mask::{add_left, kept_in, masks_of};
use v_syntax::tree::{Expression, Selects, Target};
use v_value::scope::Scope;

// ---- a look at what is read

/// Whether a target is a name with constant selects.
fn is_constant_place(target: &Target<'_>, scope: &Scope<'_>) -> bool
    ensures { result ≡ is_constant_place (scope_at scope.now) (target_of target.now) }
{
    match target {
        Target::Place(_, selects) => are_constant_selects(selects, scope),
        Target::Joined(_) => false,
    }
}

/// Whether a driver is an assignment to a name with constant selects, which assigns each bit that it may assign.
fn is_constant_link(driver: Driver<'_, '_>, scope: &Scope<'_>) -> bool
    ensures { result ≡ is_constant_link (scope_at scope.now) (driving_in driver.entry) }
{
    match driver {
        Driver::Link(target, _) => is_constant_place(target, scope),
        Driver::Net(_, _) => true,
        Driver::Block(_) => false,
    }
}

/// Whether a driver is an assignment to a name with constant selects that reads no unsettled bit: so nothing that it assigns rests on one.
/// Told of what it reads.
fn rests_nowhere(
    driver: Driver<'_, '_>,
    scope: &Scope<'_>,
    read: &[Span<'_>],
    unsettled: &BTreeMap<&str, u128>,
) -> bool
    requires fit { IsFit (scope_at scope.now) (statement_in driver) }
    requires read { bits_in read.now ≡ statement_reads (scope_at scope.now) (statement_in driver) }
    ensures { IsTrue result → RestsNowhere (masked unsettled.now) (scope_at scope.now) (statement_in driver.entry) }
{
    rests_where_it_depends();
    if !is_constant_link(driver, scope) {
        return false;
    }
    let met = meets(read, unsettled);
    !met
}

// ---- a table of what is read and assigned

/// The bits of spans that a table has, as a table.
fn part_of<'s>(
    alloc: Global,
    table: &BTreeMap<&'s str, u128>,
    spans: &[Span<'s>],
) -> Result<BTreeMap<&'s str, u128>, AllocError>
    ensures { IfOk result (λ t. masked t ≡ spread (and_in (bits_in spans.now) (masked table.now))) }
{
    let kept = kept_in(alloc, table, spans)?;
    let part = masks_of(alloc, &kept)?;
    Ok(part)
}

/// Leaves in the table the bits that rest on its bits after a net got the value of its declaration.
fn run_net<'s>(
    alloc: Global,
    value: &Expression<'_>,
    name: &'s str,
    scope: &Scope<'_>,
    unsettled: &mut BTreeMap<&'s str, u128>,
) -> Result<(), AllocError>
    requires objects { HasNarrowObjects (scope_at scope.now) }
    requires fit { IsFit (scope_at scope.now) (blocking (place name.now whole) (tree_of value.now)) }
    requires variables { HasNoMemory (scope_at scope.now) (existing (scope_at scope.now) (masked unsettled.old)) }
    ensures { OnOk result ((u : Bit) → IsThere (scope_at scope.now) u
        → IsTrue (is_in (masked unsettled.new) u) ↔ RestsAfter (masked unsettled.old) (scope_at scope.now) (blocking (place name.now whole) (tree_of value.now)) u) }
{
    let target = Target::Place(name, Selects::Whole);
    take(alloc, &target, value, scope, unsettled)?;
    Ok(())
}

/// Leaves in the table the bits that rest on its bits after a driver.
fn run<'s>(
    alloc: Global,
    driver: Driver<'_, 's>,
    scope: &Scope<'_>,
    unsettled: &mut BTreeMap<&'s str, u128>,
) -> Result<(), AllocError>
    requires objects { HasNarrowObjects (scope_at scope.now) }
    requires fit { IsFit (scope_at scope.now) (statement_in driver) }
    requires variables { HasNoMemory (scope_at scope.now) (existing (scope_at scope.now) (masked unsettled.old)) }
    ensures { OnOk result ((u : Bit) → IsThere (scope_at scope.now) u
        → IsTrue (is_in (masked unsettled.new) u) ↔ RestsAfter (masked unsettled.old) (scope_at scope.now) (statement_in driver.entry) u) }
{
    match driver {
        Driver::Link(target, value) => {
            take(alloc, target, value, scope, unsettled)?;
            Ok(())
        }
        Driver::Net(name, value) => {
            run_net(alloc, value, name, scope, unsettled)?;
            Ok(())
        }
        Driver::Block(block) => {
            after(alloc, block, scope, unsettled)?;
            Ok(())
        }
    }
}

/// A table that has of the bits which a driver may assign those that rest on an unsettled one after it. Told of what it reads or may assign:
/// where none of these bits is unsettled, the table is empty.
pub(crate) fn resting<'s>(
    alloc: Global,
    driver: Driver<'_, 's>,
    scope: &Scope<'_>,
    unsettled: &BTreeMap<&'s str, u128>,
    needed: &[Span<'s>],
) -> Result<BTreeMap<&'s str, u128>, AllocError>
    requires objects { HasNarrowObjects (scope_at scope.now) }
    requires fit { IsFit (scope_at scope.now) (statement_in driver) }
    requires variables { HasNoMemory (scope_at scope.now) (masked unsettled.now) }
    requires needed { bits_in needed.now ≡ or_in (statement_reads (scope_at scope.now) (statement_in driver))
        (existing (scope_at scope.now) (may_assign (scope_at scope.now) (statement_in driver))) }
    ensures { IfOk result (λ t. TellsWhereAssigned (masked unsettled.now) (scope_at scope.now) (statement_in driver.entry) (masked t)) }
{
    rests_where_it_depends();
    let some = meets(needed, unsettled);
    if !some {
        let none = BTreeMap::new(alloc);
        return Ok(none);
    }
    let mut table = part_of(alloc, unsettled, needed)?;
    run(alloc, driver, scope, &mut table)?;
    Ok(table)
}

// ---- what is settled

/// The unsettled bits that a driver settles: it may assign them, and they rest on no unsettled bit after it.
pub fn settled_by<'s>(
    alloc: Global,
    driver: Driver<'_, 's>,
    scope: &Scope<'_>,
    unsettled: &BTreeMap<&'s str, u128>,
) -> Result<Vec<Span<'s>>, AllocError>
    requires objects { HasNarrowObjects (scope_at scope.now) }
    requires fit { IsFit (scope_at scope.now) (statement_in driver) }
    requires variables { HasNoMemory (scope_at scope.now) (masked unsettled.now) }
    ensures { IfOk result (λ v. AreSettled (masked unsettled.now) (scope_at scope.now) (statement_in driver.entry) (bits_in v.items)) }
{
    let mut spans = Vec::new(alloc);
    add_driven(driver, scope, &mut spans)?;
    let waiting = held_in(alloc, unsettled, &spans)?;
    if waiting.is_empty() {
        return Ok(waiting);
    }
    let mut needed = Vec::new(alloc);
    add_read(driver, scope, &mut needed)?;
    let nowhere = rests_nowhere(driver, scope, &needed, unsettled);
    if nowhere {
        return Ok(waiting);
    }
    append(&spans, &mut needed)?;
    let table = resting(alloc, driver, scope, unsettled, &needed)?;
    let mut settled = Vec::new(alloc);
    add_left(&table, &waiting, &mut settled)?;
    Ok(settled)
}

//! What a driver leaves resting on marked bits. Each driver is looked at with a table of the bits alone that it reads or may assign.

ghost use Rattle.std.specs.Prelude.{◌≡◌, ◌↔◌, IsTrue, IfOk, OnOk};
ghost use Rattle.verilog_trees.specs.Syntax.{whole, place, blocking};
ghost use Rattle.verilog_designs.specs.Reads.{and_in};
ghost use Rattle.verilog_designs.specs.Dependence.{Bit, is_in};
ghost use Rattle.v_syntax.specs.Tree.{tree_of};
ghost use Rattle.v_value.specs.Scope.{scope_at};
ghost use Rattle.v_value.specs.Narrow.{HasNarrowObjects};
ghost use Rattle.v_flow.specs.Spans.{bits_in, existing};
ghost use Rattle.v_masks.specs.Masks.{masked, spread};
ghost use Rattle.v_paths.specs.Premises.{HasNoMemory};
ghost use Rattle.v_depend.specs.Resting.{IsThere, RestsAfter};
ghost use Rattle.v_depend.specs.Running.{IsFit};
ghost use Rattle.v_order.specs.Lists.{statement_in};
ghost use Rattle.v_loops.specs.Turns.{TellsWhereAssigned};

use std::alloc::{AllocError, Global};
use std::collections::BTreeMap;
use v_depend::laws::rests_where_it_depends;
use v_depend::{after, take};
use v_flow::span::Span;
use v_order::driver::Driver;
use v_order::{add_driven, add_read};
use v_paths::mask::{kept_in, masks_of};
use v_syntax::tree::{Expression, Selects, Target};
use v_value::scope::Scope;

/// The bits of spans that a table has, as a table.
fn part_of<'s>(
    alloc: Global,
    table: &BTreeMap<&'s str, u128>,
    spans: &[Span<'s>],
) -> Result<BTreeMap<&'s str, u128>, AllocError>
    ensures { IfOk result (λ t. masked t ≡ spread (and_in (bits_in spans.now) (masked table.now))) }
{
    let kept = kept_in(alloc, table, spans)?;
    let part = masks_of(alloc, &kept)?;
    Ok(part)
}

/// Leaves in the table the bits that rest on its bits after a net got the value of its declaration.
fn run_net<'s>(
    alloc: Global,
    value: &Expression<'_>,
    name: &'s str,
    scope: &Scope<'_>,
    marked: &mut BTreeMap<&'s str, u128>,
) -> Result<(), AllocError>
    requires objects { HasNarrowObjects (scope_at scope.now) }
    requires fit { IsFit (scope_at scope.now) (blocking (place name.now whole) (tree_of value.now)) }
    requires variables { HasNoMemory (scope_at scope.now) (existing (scope_at scope.now) (masked marked.old)) }
    ensures { OnOk result ((u : Bit) → IsThere (scope_at scope.now) u
        → IsTrue (is_in (masked marked.new) u) ↔ RestsAfter (masked marked.old) (scope_at scope.now) (blocking (place name.now whole) (tree_of value.now)) u) }
{
    let target = Target::Place(name, Selects::Whole);
    take(alloc, &target, value, scope, marked)?;
    Ok(())
}

/// Leaves in the table the bits that rest on its bits after a driver.
fn run<'s>(
    alloc: Global,
    driver: Driver<'_, 's>,
    scope: &Scope<'_>,
    marked: &mut BTreeMap<&'s str, u128>,
) -> Result<(), AllocError>
    requires objects { HasNarrowObjects (scope_at scope.now) }
    requires fit { IsFit (scope_at scope.now) (statement_in driver) }
    requires variables { HasNoMemory (scope_at scope.now) (existing (scope_at scope.now) (masked marked.old)) }
    ensures { OnOk result ((u : Bit) → IsThere (scope_at scope.now) u
        → IsTrue (is_in (masked marked.new) u) ↔ RestsAfter (masked marked.old) (scope_at scope.now) (statement_in driver.entry) u) }
{
    match driver {
        Driver::Link(target, value) => {
            take(alloc, target, value, scope, marked)?;
            Ok(())
        }
        Driver::Net(name, value) => {
            run_net(alloc, value, name, scope, marked)?;
            Ok(())
        }
        Driver::Block(block) => {
            after(alloc, block, scope, marked)?;
            Ok(())
        }
    }
}

/// A table that has of the bits which a driver may assign those that rest on a marked one after it.
pub(crate) fn resting<'s>(
    alloc: Global,
    driver: Driver<'_, 's>,
    scope: &Scope<'_>,
    marked: &BTreeMap<&'s str, u128>,
) -> Result<BTreeMap<&'s str, u128>, AllocError>
    requires objects { HasNarrowObjects (scope_at scope.now) }
    requires fit { IsFit (scope_at scope.now) (statement_in driver) }
    requires variables { HasNoMemory (scope_at scope.now) (masked marked.now) }
    ensures { IfOk result (λ t. TellsWhereAssigned (masked marked.now) (scope_at scope.now) (statement_in driver.entry) (masked t)) }
{
    rests_where_it_depends();
    let mut needed = Vec::new(alloc);
    add_read(driver, scope, &mut needed)?;
    add_driven(driver, scope, &mut needed)?;
    let mut table = part_of(alloc, marked, &needed)?;
    run(alloc, driver, scope, &mut table)?;
    Ok(table)
}

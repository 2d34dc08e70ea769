//! Visits to drivers: the bits are marked that depend on a marked one.

ghost use Rattle.std.specs.Prelude.{IfOk, OnOk};
ghost use Rattle.v_value.specs.Scope.{scope_at};
ghost use Rattle.v_value.specs.Narrow.{HasNarrowObjects};
ghost use Rattle.v_masks.specs.Masks.{masked};
ghost use Rattle.v_paths.specs.Premises.{HasNoMemory};
ghost use Rattle.v_depend.specs.Running.{IsFit};
ghost use Rattle.v_order.specs.Lists.{statement_in, statements_in};
ghost use Rattle.v_loops.specs.Turns.{AreFitToRun};
ghost use Rattle.v_reach.specs.Marking.{IsVisited, IsSpread};

use crate::driver::resting;
use std::alloc::{AllocError, Global};
use std::collections::BTreeMap;
use v_depend::laws::rests_where_it_depends;
use v_depend::meets;
use v_order::driver::Driver;
use v_order::{add_driven, add_read};
use v_paths::mask::{add_left, add_spans, kept_in, masks_of};
use v_value::scope::Scope;

/// The same of a driver that reads a marked bit: with a table of what rests on one after it.
fn visit_reached<'s>(
    alloc: Global,
    driver: Driver<'_, 's>,
    scope: &Scope<'_>,
    marked: &mut BTreeMap<&'s str, u128>,
) -> Result<bool, AllocError>
    requires objects { HasNarrowObjects (scope_at scope.now) }
    requires fit { IsFit (scope_at scope.now) (statement_in driver) }
    requires variables { HasNoMemory (scope_at scope.now) (masked marked.old) }
    ensures { IfOk result (λ r. IsVisited r (scope_at scope.now) (statement_in driver.entry) (masked marked.old) (masked marked.new)) }
{
    let mut driven = Vec::new(alloc);
    add_driven(driver, scope, &mut driven)?;
    let table = resting(alloc, driver, scope, marked)?;
    let found = kept_in(alloc, &table, &driven)?;
    let mut added = Vec::new(alloc);
    add_left(marked, &found, &mut added)?;
    let own = masks_of(alloc, &added)?;
    let some = meets(&added, &own);
    if !some {
        return Ok(false);
    }
    add_spans(marked, &added)?;
    Ok(true)
}

/// Marks the bits that a driver may assign and that rest on a marked one after it. Answers whether one of them was not marked before.
/// Where the driver reads no marked bit, none is.
pub(crate) fn visit<'s>(
    alloc: Global,
    driver: Driver<'_, 's>,
    scope: &Scope<'_>,
    marked: &mut BTreeMap<&'s str, u128>,
) -> Result<bool, AllocError>
    requires objects { HasNarrowObjects (scope_at scope.now) }
    requires fit { IsFit (scope_at scope.now) (statement_in driver) }
    requires variables { HasNoMemory (scope_at scope.now) (masked marked.old) }
    ensures { IfOk result (λ r. IsVisited r (scope_at scope.now) (statement_in driver.entry) (masked marked.old) (masked marked.new)) }
{
    rests_where_it_depends();
    let mut read = Vec::new(alloc);
    add_read(driver, scope, &mut read)?;
    let reached = meets(&read, marked);
    if !reached {
        return Ok(false);
    }
    let some = visit_reached(alloc, driver, scope, marked)?;
    Ok(some)
}

/// Visits the driver with an index, if there is one.
fn visit_at<'t, 's>(
    alloc: Global,
    drivers: &'t [Driver<'t, 's>],
    scope: &Scope<'_>,
    index: usize,
    marked: &mut BTreeMap<&'s str, u128>,
) -> Result<(), AllocError>
    requires objects { HasNarrowObjects (scope_at scope.now) }
    requires fit { AreFitToRun (scope_at scope.now) (statements_in drivers.now) }
    requires variables { HasNoMemory (scope_at scope.now) (masked marked.old) }
    ensures { OnOk result (IsSpread (scope_at scope.now) (statements_in drivers.now) (masked marked.old) (masked marked.new)) }
{
    rests_where_it_depends();
    match drivers.get(index) {
        Some(driver) => {
            visit(alloc, *driver, scope, marked)?;
            Ok(())
        }
        None => Ok(()),
    }
}

/// Visits drivers in an order.
pub(crate) fn pass<'t, 's>(
    alloc: Global,
    drivers: &'t [Driver<'t, 's>],
    scope: &Scope<'_>,
    order: &[usize],
    marked: &mut BTreeMap<&'s str, u128>,
) -> Result<(), AllocError>
    requires objects { HasNarrowObjects (scope_at scope.now) }
    requires fit { AreFitToRun (scope_at scope.now) (statements_in drivers.now) }
    requires variables { HasNoMemory (scope_at scope.now) (masked marked.old) }
    ensures { OnOk result (IsSpread (scope_at scope.now) (statements_in drivers.now) (masked marked.old) (masked marked.new)) }
{
    for index in order {
        visit_at(alloc, drivers, scope, *index, marked)?;
    }
    Ok(())
}

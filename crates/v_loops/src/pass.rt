//! Passes over all drivers, each after those that it reads from: bits that no longer rest on an unsettled one are settled at once.

ghost use Rattle.std.specs.Prelude.{IfOk, OnOk};
ghost use Rattle.v_value.specs.Scope.{scope_at};
ghost use Rattle.v_value.specs.Narrow.{HasNarrowObjects};
ghost use Rattle.v_masks.specs.Masks.{masked};
ghost use Rattle.v_paths.specs.Premises.{HasNoMemory};
ghost use Rattle.v_depend.specs.Running.{IsFit};
ghost use Rattle.v_order.specs.Lists.{statement_in, statements_in};
ghost use Rattle.v_loops.specs.Turns.{AreFitToRun, AreApartBut, IsVisited, IsPassed};

use crate::driver::settled_by;
use crate::span::remove;
use std::alloc::{AllocError, Global};
use std::collections::BTreeMap;
use v_depend::laws::rests_where_it_depends;
use v_depend::meets;
use v_flow::span::Span;
use v_order::driver::Driver;
use v_order::order_of;
use v_paths::mask::add_left;
use v_value::scope::Scope;

/// Settles what a driver settles, but for bits that another one may assign too. Answers whether that was something.
fn visit<'s>(
    alloc: Global,
    driver: Driver<'_, 's>,
    scope: &Scope<'_>,
    shared: &BTreeMap<&'s str, u128>,
    unsettled: &mut BTreeMap<&'s str, u128>,
) -> Result<bool, AllocError>
    requires objects { HasNarrowObjects (scope_at scope.now) }
    requires fit { IsFit (scope_at scope.now) (statement_in driver) }
    requires variables { HasNoMemory (scope_at scope.now) (masked unsettled.old) }
    ensures { IfOk result (λ r. IsVisited (masked shared.now) (scope_at scope.now) (statement_in driver.entry) (masked unsettled.old) (masked unsettled.new)) }
{
    let settled = settled_by(alloc, driver, scope, unsettled)?;
    let mut own = Vec::new(alloc);
    add_left(shared, &settled, &mut own)?;
    let some = meets(&own, unsettled);
    remove(&own, unsettled)?;
    Ok(some)
}

/// Visits the driver with an index, if there is one. Answers whether a bit was settled.
fn visit_at<'t, 's>(
    alloc: Global,
    drivers: &'t [Driver<'t, 's>],
    scope: &Scope<'_>,
    index: usize,
    shared: &BTreeMap<&'s str, u128>,
    unsettled: &mut BTreeMap<&'s str, u128>,
) -> Result<bool, AllocError>
    requires objects { HasNarrowObjects (scope_at scope.now) }
    requires fit { AreFitToRun (scope_at scope.now) (statements_in drivers.now) }
    requires apart { AreApartBut (scope_at scope.now) (statements_in drivers.now) (masked shared.now) }
    requires variables { HasNoMemory (scope_at scope.now) (masked unsettled.old) }
    ensures { IfOk result (λ r. IsPassed (scope_at scope.now) (statements_in drivers.now) (masked unsettled.old) (masked unsettled.new)) }
{
    rests_where_it_depends();
    match drivers.get(index) {
        Some(driver) => {
            let some = visit(alloc, *driver, scope, shared, unsettled)?;
            Ok(some)
        }
        None => Ok(false),
    }
}

/// Visits drivers in an order. Answers whether a bit was settled.
fn pass<'t, 's>(
    alloc: Global,
    drivers: &'t [Driver<'t, 's>],
    scope: &Scope<'_>,
    order: &[usize],
    shared: &BTreeMap<&'s str, u128>,
    unsettled: &mut BTreeMap<&'s str, u128>,
) -> Result<bool, AllocError>
    requires objects { HasNarrowObjects (scope_at scope.now) }
    requires fit { AreFitToRun (scope_at scope.now) (statements_in drivers.now) }
    requires apart { AreApartBut (scope_at scope.now) (statements_in drivers.now) (masked shared.now) }
    requires variables { HasNoMemory (scope_at scope.now) (masked unsettled.old) }
    ensures { IfOk result (λ r. IsPassed (scope_at scope.now) (statements_in drivers.now) (masked unsettled.old) (masked unsettled.new)) }
{
    let mut some = false;
    for index in order {
        let settled = visit_at(alloc, drivers, scope, *index, shared, unsettled)?;
        some = some | settled;
    }
    Ok(some)
}

/// Makes passes until one settles nothing. Bits that depend on themselves are left.
pub(crate) fn passes<'t, 's>(
    alloc: Global,
    drivers: &'t [Driver<'t, 's>],
    scope: &Scope<'_>,
    driven: &[Span<'s>],
    shared: &BTreeMap<&'s str, u128>,
    unsettled: &mut BTreeMap<&'s str, u128>,
) -> Result<(), AllocError>
    requires objects { HasNarrowObjects (scope_at scope.now) }
    requires fit { AreFitToRun (scope_at scope.now) (statements_in drivers.now) }
    requires apart { AreApartBut (scope_at scope.now) (statements_in drivers.now) (masked shared.now) }
    requires variables { HasNoMemory (scope_at scope.now) (masked unsettled.old) }
    ensures { OnOk result (IsPassed (scope_at scope.now) (statements_in drivers.now) (masked unsettled.old) (masked unsettled.new)) }
{
    let order = order_of(alloc, drivers, scope)?;
    for _ in 0..u64::MAX {
        let some = meets(driven, unsettled);
        if !some {
            return Ok(());
        }
        let settled = pass(alloc, drivers, scope, &order, shared, unsettled)?;
        if !settled {
            return Ok(());
        }
    }
    Ok(())
}

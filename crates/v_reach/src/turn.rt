//! Turns over all drivers, and rounds of a pass and a turn, until nothing is left to be marked.

ghost use Rattle.std.specs.Prelude.{◌||◌, ◌≡◌, IfOk, OnOk};
ghost use Rattle.v_value.specs.Scope.{scope_at};
ghost use Rattle.v_value.specs.Narrow.{HasNarrowObjects};
ghost use Rattle.v_masks.specs.Masks.{masked};
ghost use Rattle.v_paths.specs.Premises.{HasNoMemory};
ghost use Rattle.v_order.specs.Lists.{statements_in};
ghost use Rattle.v_loops.specs.Turns.{AreFitToRun};
ghost use Rattle.v_reach.specs.Marking.{IsTurned, AreRounds};

use crate::visit::{pass, visit};
use std::alloc::{AllocError, Global};
use std::collections::BTreeMap;
use v_depend::laws::rests_where_it_depends;
use v_order::driver::Driver;
use v_value::scope::Scope;

/// Whether one of two is so.
fn either(first: bool, second: bool) -> bool
    ensures { result ≡ (first || second) }
{
    first || second
}

/// Visits all drivers. Answers whether a bit was marked.
fn turn<'t, 's>(
    alloc: Global,
    drivers: &'t [Driver<'t, 's>],
    scope: &Scope<'_>,
    marked: &mut BTreeMap<&'s str, u128>,
) -> Result<bool, AllocError>
    requires objects { HasNarrowObjects (scope_at scope.now) }
    requires fit { AreFitToRun (scope_at scope.now) (statements_in drivers.now) }
    requires variables { HasNoMemory (scope_at scope.now) (masked marked.old) }
    ensures { IfOk result (λ r. IsTurned r (scope_at scope.now) (statements_in drivers.now) (masked marked.old) (masked marked.new)) }
{
    rests_where_it_depends();
    let mut some = false;
    for driver in drivers {
        let more = visit(alloc, *driver, scope, marked)?;
        let any = either(some, more);
        some = any;
    }
    Ok(some)
}

/// Makes up to 128 rounds: a pass in an order in which few rounds are needed, and a turn that tells whether something was left. Answers
/// whether nothing is.
pub(crate) fn rounds<'t, 's>(
    alloc: Global,
    drivers: &'t [Driver<'t, 's>],
    scope: &Scope<'_>,
    order: &[usize],
    marked: &mut BTreeMap<&'s str, u128>,
) -> Result<bool, AllocError>
    requires objects { HasNarrowObjects (scope_at scope.now) }
    requires fit { AreFitToRun (scope_at scope.now) (statements_in drivers.now) }
    requires variables { HasNoMemory (scope_at scope.now) (masked marked.old) }
    ensures { IfOk result (λ lasts. AreRounds lasts (scope_at scope.now) (statements_in drivers.now) (masked marked.old) (masked marked.new)) }
{
    for _ in 0..128_usize {
        pass(alloc, drivers, scope, order, marked)?;
        let some = turn(alloc, drivers, scope, marked)?;
        if !some {
            return Ok(true);
        }
    }
    Ok(false)
}

//! Turns over all drivers of a module.

ghost use Rattle.std.specs.Prelude.{◌≡◌, ℕ, map, IfOk, OnOk};
ghost use Rattle.verilog_meaning.specs.Register.{one_may_assign};
ghost use Rattle.verilog_settled.specs.Locality.{HasNoConstantMemory};
ghost use Rattle.v_syntax.specs.Source.{item_of};
ghost use Rattle.v_value.specs.Scope.{scope_at};
ghost use Rattle.v_value.specs.Narrow.{HasNarrowObjects};
ghost use Rattle.v_operators.specs.Meaning.{Grows};
ghost use Rattle.v_lower.specs.Table.{images_at};
ghost use Rattle.v_flow.specs.Spans.{bits_in, existing};
ghost use Rattle.v_masks.specs.Masks.{masked};
ghost use Rattle.v_order.specs.Drivers.{drivings as all_drivings, drivers as all_drivers};
ghost use Rattle.v_order.specs.Lists.{drivings_in, statements_in};
ghost use Rattle.v_loops.specs.Turns.{AreFitToRun};
ghost use Rattle.v_settle.specs.Drivers.{AreSoundDrivings};
ghost use Rattle.v_settle.specs.OneModule.{IsEvaluable};
ghost use Rattle.v_settle.specs.Turns.{State, state_of, IsOpen, AreVisited, HasVisits, IsUnderWay, IsFurther};

use crate::NoMemory;
use crate::driver::visit;
use crate::span::has_more;
use std::alloc::Global;
use std::collections::BTreeMap;
use v_depend::laws::rests_where_it_depends;
use v_depend::meets;
use v_flow::span::Span;
use v_lower::NamedTerms;
use v_order::driver::Driver;
use v_paths::mask::kept_in;
use v_syntax::module::Item;
use v_value::scope::Scope;
use wb_terms::Terms;

/// Comes to all drivers, in the order of the text.
fn turn<'t, 's>(
    alloc: Global,
    drivers: &'t [Driver<'t, 's>],
    scope: &Scope<'_>,
    unsettled: &mut BTreeMap<&'s str, u128>,
    table: &mut NamedTerms<'s>,
    spare: &mut NamedTerms<'s>,
    terms: &mut Terms,
) -> Result<(), NoMemory>
    requires objects { HasNarrowObjects (scope_at scope.now) }
    requires parameters { HasNoConstantMemory (scope_at scope.now) }
    requires opens { IsOpen (scope_at scope.now) (state_of (images_at table.old) (images_at spare.old) terms.old (masked unsettled.old)) }
    requires sound { AreSoundDrivings (scope_at scope.now) (drivings_in drivers.now) }
    requires fit { AreFitToRun (scope_at scope.now) (statements_in drivers.now) }
    ensures grows { Grows terms.old terms.new }
    ensures visited { OnOk result (AreVisited (scope_at scope.now) (statements_in drivers.now)
        (state_of (images_at table.old) (images_at spare.old) terms.old (masked unsettled.old))
        (state_of (images_at table.new) (images_at spare.new) terms.new (masked unsettled.new))) }
{
    for driver in drivers {
        visit(alloc, *driver, scope, unsettled, table, spare, terms)?;
    }
    Ok(())
}

/// Comes to the driver with an index, if there is one.
fn visit_at<'t, 's>(
    alloc: Global,
    drivers: &'t [Driver<'t, 's>],
    scope: &Scope<'_>,
    index: usize,
    unsettled: &mut BTreeMap<&'s str, u128>,
    table: &mut NamedTerms<'s>,
    spare: &mut NamedTerms<'s>,
    terms: &mut Terms,
) -> Result<(), NoMemory>
    requires objects { HasNarrowObjects (scope_at scope.now) }
    requires parameters { HasNoConstantMemory (scope_at scope.now) }
    requires opens { IsOpen (scope_at scope.now) (state_of (images_at table.old) (images_at spare.old) terms.old (masked unsettled.old)) }
    requires sound { AreSoundDrivings (scope_at scope.now) (drivings_in drivers.now) }
    requires fit { AreFitToRun (scope_at scope.now) (statements_in drivers.now) }
    ensures grows { Grows terms.old terms.new }
    ensures visits { OnOk result (HasVisits (scope_at scope.now) (statements_in drivers.now)
        (state_of (images_at table.old) (images_at spare.old) terms.old (masked unsettled.old))
        (state_of (images_at table.new) (images_at spare.new) terms.new (masked unsettled.new))) }
{
    match drivers.get(index) {
        Some(driver) => {
            visit(alloc, *driver, scope, unsettled, table, spare, terms)?;
            Ok(())
        }
        None => Ok(()),
    }
}

/// Comes to drivers in an order.
fn pass<'t, 's>(
    alloc: Global,
    drivers: &'t [Driver<'t, 's>],
    scope: &Scope<'_>,
    order: &[usize],
    unsettled: &mut BTreeMap<&'s str, u128>,
    table: &mut NamedTerms<'s>,
    spare: &mut NamedTerms<'s>,
    terms: &mut Terms,
) -> Result<(), NoMemory>
    requires objects { HasNarrowObjects (scope_at scope.now) }
    requires parameters { HasNoConstantMemory (scope_at scope.now) }
    requires opens { IsOpen (scope_at scope.now) (state_of (images_at table.old) (images_at spare.old) terms.old (masked unsettled.old)) }
    requires sound { AreSoundDrivings (scope_at scope.now) (drivings_in drivers.now) }
    requires fit { AreFitToRun (scope_at scope.now) (statements_in drivers.now) }
    ensures grows { Grows terms.old terms.new }
    ensures visits { OnOk result (HasVisits (scope_at scope.now) (statements_in drivers.now)
        (state_of (images_at table.old) (images_at spare.old) terms.old (masked unsettled.old))
        (state_of (images_at table.new) (images_at spare.new) terms.new (masked unsettled.new))) }
{
    for index in order {
        visit_at(
            alloc, drivers, scope, *index, unsettled, table, spare, terms,
        )?;
    }
    Ok(())
}

/// Makes up to 128 turns, each in an order that settles most, and then in the order of the text. Answers whether no further one would settle
/// a bit: none is left, or the last turn settled none in the order of the text.
pub(crate) fn turns<'t, 's>(
    alloc: Global,
    _items: &[Item<'s>],
    drivers: &'t [Driver<'t, 's>],
    scope: &Scope<'_>,
    order: &[usize],
    driven: &[Span<'s>],
    unsettled: &mut BTreeMap<&'s str, u128>,
    table: &mut NamedTerms<'s>,
    spare: &mut NamedTerms<'s>,
    terms: &mut Terms,
) -> Result<bool, NoMemory>
    requires objects { HasNarrowObjects (scope_at scope.now) }
    requires opens { IsOpen (scope_at scope.now) (state_of (images_at table.old) (images_at spare.old) terms.old (masked unsettled.old)) }
    requires ready { IsEvaluable (scope_at scope.now) (map item_of _items.now) }
    requires drivings { drivings_in drivers.now ≡ all_drivings (map item_of _items.now) }
    requires statements { statements_in drivers.now ≡ all_drivers (map item_of _items.now) }
    requires driven { bits_in driven.now ≡ existing (scope_at scope.now) (one_may_assign (scope_at scope.now) (all_drivers (map item_of _items.now))) }
    ensures grows { Grows terms.old terms.new }
    ensures opens { OnOk result (IsOpen (scope_at scope.now) (state_of (images_at table.new) (images_at spare.new) terms.new (masked unsettled.new))) }
    ensures made { IfOk result (λ ended. (start : State) (k : ℕ)
        → IsUnderWay (scope_at scope.now) (map item_of _items.now) start (state_of (images_at table.old) (images_at spare.old) terms.old (masked unsettled.old)) k
        → IsFurther ended (scope_at scope.now) (map item_of _items.now) 128 start (state_of (images_at table.new) (images_at spare.new) terms.new (masked unsettled.new)) k) }
{
    rests_where_it_depends();
    for _ in 0..128_usize {
        let some = meets(driven, unsettled);
        if !some {
            return Ok(true);
        }
        pass(alloc, drivers, scope, order, unsettled, table, spare, terms)?;
        let before = kept_in(alloc, unsettled, driven)?;
        turn(alloc, drivers, scope, unsettled, table, spare, terms)?;
        let more = has_more(&before, unsettled);
        if !more {
            return Ok(true);
        }
    }
    Ok(false)
}

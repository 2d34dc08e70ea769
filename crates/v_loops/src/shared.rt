//! The bits that drivers may assign, and those that more than one may assign, in one turn over all.

ghost use Rattle.std.specs.Prelude.{◌≡◌, OnOk};
ghost use Rattle.verilog_meaning.specs.Register.{may_assign, one_may_assign};
ghost use Rattle.verilog_designs.specs.Reads.{or_in, and_in};
ghost use Rattle.v_value.specs.Scope.{scope_at};
ghost use Rattle.v_value.specs.Narrow.{HasNarrowObjects};
ghost use Rattle.v_flow.specs.Narrow.{IsNarrowFlow};
ghost use Rattle.v_flow.specs.Spans.{bits_in, existing};
ghost use Rattle.v_masks.specs.Masks.{masked, spread};
ghost use Rattle.v_order.specs.Lists.{statement_in, statements_in};
ghost use Rattle.v_loops.specs.Turns.{AreFitToRun, AreApartBut};

use crate::span::{append, held_in};
use std::alloc::{AllocError, Global};
use std::collections::BTreeMap;
use v_flow::span::Span;
use v_order::add_driven;
use v_order::driver::Driver;
use v_paths::mask::add_spans;
use v_value::scope::Scope;

/// Adds the bits of a driver to a list, to those of one, and to those of two where they are of one already.
fn add<'s>(
    alloc: Global,
    driver: Driver<'_, 's>,
    scope: &Scope<'_>,
    driven: &mut Vec<Span<'s>>,
    once: &mut BTreeMap<&'s str, u128>,
    twice: &mut BTreeMap<&'s str, u128>,
) -> Result<(), AllocError>
    requires objects { HasNarrowObjects (scope_at scope.now) }
    requires narrow { IsNarrowFlow (scope_at scope.now) (statement_in driver) }
    ensures driven { OnOk result (bits_in driven.new.items ≡ or_in (bits_in driven.old.items) (existing (scope_at scope.now) (may_assign (scope_at scope.now) (statement_in driver.entry)))) }
    ensures once { OnOk result (masked once.new ≡ or_in (masked once.old) (spread (existing (scope_at scope.now) (may_assign (scope_at scope.now) (statement_in driver.entry))))) }
    ensures twice { OnOk result (masked twice.new ≡ or_in (masked twice.old)
        (spread (and_in (existing (scope_at scope.now) (may_assign (scope_at scope.now) (statement_in driver.entry))) (masked once.old)))) }
{
    let mut spans = Vec::new(alloc);
    add_driven(driver, scope, &mut spans)?;
    let both = held_in(alloc, once, &spans)?;
    add_spans(twice, &both)?;
    add_spans(once, &spans)?;
    append(&spans, driven)?;
    Ok(())
}

/// Adds the bits that drivers may assign to a list and to a table, and those that more than one may assign to another table.
pub(crate) fn add_all<'t, 's>(
    alloc: Global,
    drivers: &'t [Driver<'t, 's>],
    scope: &Scope<'_>,
    driven: &mut Vec<Span<'s>>,
    once: &mut BTreeMap<&'s str, u128>,
    twice: &mut BTreeMap<&'s str, u128>,
) -> Result<(), AllocError>
    requires objects { HasNarrowObjects (scope_at scope.now) }
    requires fit { AreFitToRun (scope_at scope.now) (statements_in drivers.now) }
    ensures driven { OnOk result (bits_in driven.new.items ≡ or_in (bits_in driven.old.items) (existing (scope_at scope.now) (one_may_assign (scope_at scope.now) (statements_in drivers.now)))) }
    ensures once { OnOk result (masked once.new ≡ or_in (masked once.old) (spread (existing (scope_at scope.now) (one_may_assign (scope_at scope.now) (statements_in drivers.now))))) }
    ensures apart { OnOk result (AreApartBut (scope_at scope.now) (statements_in drivers.now) (masked twice.new)) }
{
    for driver in drivers {
        add(alloc, *driver, scope, driven, once, twice)?;
    }
    Ok(())
}

//! Turns over all drivers of a module: what is left of the bits that are not settled yet.

ghost use Rattle.std.specs.Prelude.{◌≡◌, ◌↔◌, ◌∷◌, ℕ, suc, false, [], List, IsTrue, IfOk, OnOk};
ghost use Rattle.verilog_trees.specs.Syntax.{Item};
ghost use Rattle.verilog_designs.specs.Dependence.{Bit, is_in};
ghost use Rattle.v_value.specs.Scope.{scope_at};
ghost use Rattle.v_value.specs.Narrow.{HasNarrowObjects};
ghost use Rattle.v_flow.specs.Spans.{bits_in};
ghost use Rattle.v_masks.specs.Masks.{masked};
ghost use Rattle.v_paths.specs.Premises.{HasNoMemory};
ghost use Rattle.v_depend.specs.Running.{IsFit};
ghost use Rattle.v_order.specs.Lists.{statement_in, statements_in};
ghost use Rattle.v_loops.specs.Turns.{AreFitToRun, AreOf, OneRests, Adds, IsLeft, IsLater};

use crate::driver::resting;
use crate::span::{append, has_all, held_in};
use std::alloc::{AllocError, Global};
use std::collections::BTreeMap;
use v_depend::laws::rests_where_it_depends;
use v_flow::span::Span;
use v_order::driver::Driver;
use v_order::{add_driven, add_read};
use v_paths::mask::masks_of;
use v_value::scope::Scope;

/// Adds the bits that a driver may assign and that rest on an unsettled one after it.
fn add_resting<'s>(
    alloc: Global,
    driver: Driver<'_, 's>,
    scope: &Scope<'_>,
    unsettled: &BTreeMap<&'s str, u128>,
    found: &mut Vec<Span<'s>>,
) -> Result<(), AllocError>
    requires objects { HasNarrowObjects (scope_at scope.now) }
    requires fit { IsFit (scope_at scope.now) (statement_in driver) }
    requires variables { HasNoMemory (scope_at scope.now) (masked unsettled.now) }
    ensures { OnOk result (Adds false (masked unsettled.now) (scope_at scope.now) (statement_in driver.entry ∷ []) (bits_in found.old.items) (bits_in found.new.items)) }
{
    let mut spans = Vec::new(alloc);
    add_driven(driver, scope, &mut spans)?;
    let mut needed = Vec::new(alloc);
    add_read(driver, scope, &mut needed)?;
    append(&spans, &mut needed)?;
    let table = resting(alloc, driver, scope, unsettled, &needed)?;
    let kept = held_in(alloc, &table, &spans)?;
    append(&kept, found)?;
    Ok(())
}

/// The bits that rest on an unsettled one by some driver.
fn turn<'t, 's>(
    alloc: Global,
    drivers: &'t [Driver<'t, 's>],
    scope: &Scope<'_>,
    unsettled: &[Span<'s>],
) -> Result<Vec<Span<'s>>, AllocError>
    requires objects { HasNarrowObjects (scope_at scope.now) }
    requires fit { AreFitToRun (scope_at scope.now) (statements_in drivers.now) }
    requires variables { HasNoMemory (scope_at scope.now) (bits_in unsettled.now) }
    ensures { IfOk result (λ v. (u : Bit) → IsTrue (is_in (bits_in v.items) u) ↔ OneRests false (bits_in unsettled.now) (scope_at scope.now) (statements_in drivers.now) u) }
{
    let table = masks_of(alloc, unsettled)?;
    let mut found = Vec::new(alloc);
    for driver in drivers {
        add_resting(alloc, *driver, scope, &table, &mut found)?;
    }
    Ok(found)
}

/// Makes up to 128 turns. Answers whether nothing was settled by the last one.
pub(crate) fn turns<'t, 's>(
    alloc: Global,
    drivers: &'t [Driver<'t, 's>],
    scope: &Scope<'_>,
    unsettled: &mut Vec<Span<'s>>,
) -> Result<bool, AllocError>
    requires objects { HasNarrowObjects (scope_at scope.now) }
    requires fit { AreFitToRun (scope_at scope.now) (statements_in drivers.now) }
    requires variables { HasNoMemory (scope_at scope.now) (bits_in unsettled.old.items) }
    ensures left { IfOk result (λ lasts. (items : List Item) (k : ℕ) → AreOf (scope_at scope.now) items (statements_in drivers.now)
        → IsLeft (scope_at scope.now) items k (bits_in unsettled.old.items)
        → IsLater lasts (scope_at scope.now) items 128 k (bits_in unsettled.new.items)) }
    ensures variables { OnOk result (HasNoMemory (scope_at scope.now) (bits_in unsettled.new.items)) }
{
    rests_where_it_depends();
    for _ in 0..128_usize {
        let rests = turn(alloc, drivers, scope, unsettled)?;
        let lasts = has_all(alloc, &rests, unsettled)?;
        *unsettled = rests;
        if lasts {
            return Ok(true);
        }
    }
    Ok(false)
}

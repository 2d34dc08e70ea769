//! The bits of a module that depend on marked ones.

ghost use Rattle.std.specs.Prelude.{◌↔◌, map, IsTrue, OnOk};
ghost use Rattle.verilog_designs.specs.Dependence.{Bit, is_in};
ghost use Rattle.v_syntax.specs.Source.{item_of};
ghost use Rattle.v_value.specs.Scope.{scope_at};
ghost use Rattle.v_value.specs.Narrow.{HasNarrowObjects};
ghost use Rattle.v_masks.specs.Masks.{masked};
ghost use Rattle.v_paths.specs.Premises.{HasNoMemory};
ghost use Rattle.v_depend.specs.Resting.{IsThere};
ghost use Rattle.v_loops.specs.Turns.{IsRunnable};
ghost use Rattle.v_reach.specs.Coming.{ComesFrom};

use crate::turn::rounds;
use std::alloc::{AllocError, Global};
use std::collections::BTreeMap;
use v_depend::laws::rests_where_it_depends;
use v_order::{all_driven, drivers_of, order_of};
use v_syntax::module::Item;
use v_value::scope::Scope;

/// Marks, besides the bits that a table has, all that depend on one of them, by one or more steps, each by a continuous assignment or a
/// combinational block. Where memory runs out some may be missing.
pub fn mark_dependents<'s>(
    alloc: Global,
    items: &[Item<'s>],
    scope: &Scope<'_>,
    marked: &mut BTreeMap<&'s str, u128>,
) -> Result<(), AllocError>
    requires objects { HasNarrowObjects (scope_at scope.now) }
    requires fit { IsRunnable (scope_at scope.now) (map item_of items.now) }
    requires variables { HasNoMemory (scope_at scope.now) (masked marked.old) }
    ensures { OnOk result ((u : Bit) → IsThere (scope_at scope.now) u
        → IsTrue (is_in (masked marked.new) u) ↔ ComesFrom (scope_at scope.now) (map item_of items.now) (masked marked.old) u) }
{
    rests_where_it_depends();
    let drivers = drivers_of(alloc, items)?;
    let order = order_of(alloc, &drivers, scope)?;
    let driven = all_driven(alloc, &drivers, scope)?;
    let count = driven.len();
    for _ in 0..count {
        let lasts = rounds(alloc, &drivers, scope, &order, marked)?;
        if lasts {
            return Ok(());
        }
    }
    Ok(())
}

//! Whether a module has a combinational loop.

ghost use Rattle.std.specs.Prelude.{◌↔◌, map, IsTrue, IfOk};
ghost use Rattle.v_syntax.specs.Source.{item_of};
ghost use Rattle.v_value.specs.Scope.{scope_at};
ghost use Rattle.v_value.specs.Narrow.{HasNarrowObjects};
ghost use Rattle.v_loops.specs.OneModule.{HasLoopIn};
ghost use Rattle.v_loops.specs.Turns.{IsRunnable};

use crate::pass::passes;
use crate::shared::add_all;
use crate::span::{has_bits, held_in};
use crate::turn::turns;
use std::alloc::{AllocError, Global};
use std::collections::BTreeMap;
use v_order::drivers_of;
use v_syntax::module::Item;
use v_value::scope::Scope;

/// Whether a bit of a module depends on itself through its continuous assignments and combinational blocks. The module has no parameters and
/// no instances. Answers `AllocError` where memory runs out.
pub fn has_loop(alloc: Global, items: &[Item<'_>], scope: &Scope<'_>) -> Result<bool, AllocError>
    requires objects { HasNarrowObjects (scope_at scope.now) }
    requires fit { IsRunnable (scope_at scope.now) (map item_of items.now) }
    ensures { IfOk result (λ r. IsTrue r ↔ HasLoopIn (scope_at scope.now) (map item_of items.now)) }
{
    let drivers = drivers_of(alloc, items)?;
    let mut driven = Vec::new(alloc);
    let mut unsettled = BTreeMap::new(alloc);
    let mut shared = BTreeMap::new(alloc);
    add_all(
        alloc,
        &drivers,
        scope,
        &mut driven,
        &mut unsettled,
        &mut shared,
    )?;
    passes(alloc, &drivers, scope, &driven, &shared, &mut unsettled)?;
    let mut left = held_in(alloc, &unsettled, &driven)?;
    if left.is_empty() {
        return Ok(false);
    }
    let count = driven.len();
    for _ in 0..count {
        let lasts = turns(alloc, &drivers, scope, &mut left)?;
        if lasts {
            let stay = has_bits(alloc, &left)?;
            return Ok(stay);
        }
    }
    let stay = has_bits(alloc, &left)?;
    Ok(stay)
}

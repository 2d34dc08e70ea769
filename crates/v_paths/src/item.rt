//! Latches and lists of events in the blocks of a module (1364-2005, 9.2, 9.7).

ghost use Rattle.std.specs.Prelude.{◌≡◌, ◌↔◌, map, IsTrue, IfOk};
ghost use Rattle.v_syntax.specs.Source.{item_of};
ghost use Rattle.v_value.specs.Scope.{scope_at};
ghost use Rattle.v_value.specs.Narrow.{HasNarrowObjects};
ghost use Rattle.v_hier.specs.Tables.{has_name};
ghost use Rattle.v_paths.specs.Modules.{IsFitItem, AreFitItems, HasLatchIn, HasBadEventListIn, IsLatchedItem, IsBadItem, OneIs};

use crate::event::has_event_list;
use crate::latch::is_latched;
use std::alloc::{AllocError, Global};
use std::collections::BTreeSet;
use v_statement::register::is_clocked;
use v_syntax::module::Item;
use v_value::scope::Scope;

/// Whether an item is a combinational block with a latch.
fn is_latched_item(alloc: Global, item: &Item<'_>, scope: &Scope<'_>) -> Result<bool, AllocError>
    requires objects { HasNarrowObjects (scope_at scope.now) }
    requires fit { IsFitItem (scope_at scope.now) (item_of item.now) }
    ensures { IfOk result (λ r. IsTrue r ↔ IsLatchedItem (scope_at scope.now) (item_of item.now)) }
{
    match item {
        Item::Always(events, block) => {
            if is_clocked(events) {
                return Ok(false);
            }
            let latched = is_latched(alloc, block, scope)?;
            Ok(latched)
        }
        Item::Port(_)
        | Item::Parameter(_)
        | Item::Wires(_, _, _)
        | Item::Variables(_, _, _)
        | Item::Assign(_)
        | Item::Instances(_, _, _) => Ok(false),
    }
}

fn one_is_latched(alloc: Global, items: &[Item<'_>], scope: &Scope<'_>) -> Result<bool, AllocError>
    requires objects { HasNarrowObjects (scope_at scope.now) }
    requires fit { AreFitItems (scope_at scope.now) (map item_of items.now) }
    ensures { IfOk result (λ r. IsTrue r ↔ OneIs (IsLatchedItem (scope_at scope.now)) (map item_of items.now)) }
{
    for item in items {
        if is_latched_item(alloc, item, scope)? {
            return Ok(true);
        }
    }
    Ok(false)
}

/// Whether some combinational block among the items of a module has a latch. No such block assigns a memory.
pub fn has_latch(alloc: Global, items: &[Item<'_>], scope: &Scope<'_>) -> Result<bool, AllocError>
    requires objects { HasNarrowObjects (scope_at scope.now) }
    requires fit { AreFitItems (scope_at scope.now) (map item_of items.now) }
    ensures { IfOk result (λ r. IsTrue r ↔ HasLatchIn (scope_at scope.now) (map item_of items.now)) }
{
    let found = one_is_latched(alloc, items, scope)?;
    Ok(found)
}

/// Whether an item is a block with a list of events that it may not have.
fn is_bad_item(
    alloc: Global,
    item: &Item<'_>,
    scope: &Scope<'_>,
    clocks: &BTreeSet<&str>,
) -> Result<bool, AllocError>
    requires objects { HasNarrowObjects (scope_at scope.now) }
    requires fit { IsFitItem (scope_at scope.now) (item_of item.now) }
    ensures { IfOk result (λ r. IsTrue r ↔ IsBadItem (scope_at scope.now) (has_name clocks.now) (item_of item.now)) }
{
    match item {
        Item::Always(events, block) => {
            let may = has_event_list(alloc, block, scope, clocks, events)?;
            Ok(!may)
        }
        Item::Port(_)
        | Item::Parameter(_)
        | Item::Wires(_, _, _)
        | Item::Variables(_, _, _)
        | Item::Assign(_)
        | Item::Instances(_, _, _) => Ok(false),
    }
}

fn one_is_bad(
    alloc: Global,
    items: &[Item<'_>],
    scope: &Scope<'_>,
    clocks: &BTreeSet<&str>,
) -> Result<bool, AllocError>
    requires objects { HasNarrowObjects (scope_at scope.now) }
    requires fit { AreFitItems (scope_at scope.now) (map item_of items.now) }
    ensures { IfOk result (λ r. IsTrue r ↔ OneIs (IsBadItem (scope_at scope.now) (has_name clocks.now)) (map item_of items.now)) }
{
    for item in items {
        if is_bad_item(alloc, item, scope, clocks)? {
            return Ok(true);
        }
    }
    Ok(false)
}

/// Whether some block among the items of a module, where these names are those of clocks, has a list of events that it may not have. No
/// combinational block assigns a memory.
pub fn has_bad_event_list(
    alloc: Global,
    items: &[Item<'_>],
    scope: &Scope<'_>,
    clocks: &BTreeSet<&str>,
) -> Result<bool, AllocError>
    requires objects { HasNarrowObjects (scope_at scope.now) }
    requires fit { AreFitItems (scope_at scope.now) (map item_of items.now) }
    ensures { IfOk result (λ r. IsTrue r ↔ HasBadEventListIn (scope_at scope.now) (has_name clocks.now) (map item_of items.now)) }
{
    let found = one_is_bad(alloc, items, scope, clocks)?;
    Ok(found)
}

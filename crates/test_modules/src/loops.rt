//! Combinational loops, asked for where what the call wants can be tested.
ghost use Rattle.std.specs.Prelude.{◌≡◌, false, map};
ghost use Rattle.std.specs.List.{list_any};
ghost use Rattle.v_syntax.specs.Source.{item_of};
ghost use Rattle.v_hier.specs.Instances.{is_part};
ghost use Rattle.v_value.specs.Scope.{scope_at};
ghost use Rattle.v_fitting.specs.Wires.{HavePlainWires};

use crate::drivers::has_part;
use std::alloc::{AllocError, Global};
use v_hier::has_duplicate;
use v_loops::has_loop;
use v_narrow::are_objects_narrow;
use v_rules::items_rules;
use v_scopes::module_scope;
use v_size::{Names, is_unbroken};
use v_syntax::module::{Item, Module};

/// Whether such items have a combinational loop. No answer where they break a rule on expressions.
fn items_loop(
    alloc: Global,
    items: &[Item<'_>],
    names: Names<'_, '_>,
) -> Result<Option<bool>, AllocError>
    requires alone { list_any is_part (map item_of items.now) ≡ false }
    requires plain { HavePlainWires (scope_at names.scope.now) (map item_of items.now) }
{
    let broken = items_rules(items, names);
    if !is_unbroken(broken) {
        return Ok(None);
    }
    let loops = has_loop(alloc, items, names.scope)?;
    Ok(Some(loops))
}

/// Whether the module has a combinational loop. No answer where it has parameters or instances, declares a name twice, has a name of more
/// than 128 bits, or breaks a rule on expressions.
pub fn looped(alloc: Global, within: &Module<'_>) -> Result<Option<bool>, AllocError> {
    let items = &within.items;
    if has_part(items) {
        return Ok(None);
    }
    let twice = has_duplicate(alloc, within)?;
    if twice {
        return Ok(None);
    }
    let names = module_scope(alloc, within)?;
    let scope = names.to_scope(alloc)?;
    if !are_objects_narrow(&scope) {
        return Ok(None);
    }
    let narrow = Names { scope: &scope };
    let loops = items_loop(alloc, items, narrow)?;
    Ok(loops)
}

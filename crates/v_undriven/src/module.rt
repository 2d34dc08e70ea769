//! Whether a module reads a bit that has no driver.

ghost use Rattle.std.specs.Prelude.{◌≡◌, ◌↔◌, map, IsTrue, IfOk};
ghost use Rattle.v_value.specs.Scope.{scope_at};
ghost use Rattle.v_value.specs.Narrow.{HasNarrowObjects};
ghost use Rattle.v_syntax.specs.Source.{item_of};
ghost use Rattle.v_flow.specs.Spans.{bits_in};
ghost use Rattle.v_drivers.specs.Premises.{AreNarrowItems};
ghost use Rattle.v_undriven.specs.Reads.{module_reads};
ghost use Rattle.v_undriven.specs.Premises.{AreNarrowReads};
ghost use Rattle.v_undriven.specs.Undriven.{HasUndrivenBit};

use crate::output::add_outputs;
use crate::read::add_items;
use crate::table::{one_has_more, table_of};
use std::alloc::{AllocError, Global};
use v_drivers::drivers_of;
use v_flow::span::Span;
use v_scopes::ModuleScope;
use v_syntax::module::Item;
use v_value::scope::Scope;

/// All that is read in a module, and its outputs.
fn reads_of<'s, 'm: 's>(
    alloc: Global,
    items: &[Item<'s>],
    scope: &Scope<'_>,
    names: &ModuleScope<'m>,
) -> Result<Vec<Span<'s>>, AllocError>
    requires objects { HasNarrowObjects (scope_at scope.now) }
    requires narrow { AreNarrowReads (scope_at scope.now) (map item_of items.now) }
    ensures { IfOk result (λ v. bits_in v.items ≡ module_reads (scope_at scope.now) names.now (map item_of items.now)) }
{
    let mut found = Vec::new(alloc);
    add_items(items, scope, &mut found)?;
    add_outputs(scope, names, names.declarations(), &mut found)?;
    Ok(found)
}

/// Whether a bit that is read in a module, or a bit of its output, has no driver (1364-2005, 4.2): a continuous assignment or a block that
/// may assign it, or the world outside for an input port. Of a memory one bit with a driver is enough. The module has no parameters and
/// no instances, and these are its names and its clock. Answers `AllocError` where memory runs out.
pub fn has_undriven<'s, 'm: 's>(
    alloc: Global,
    items: &[Item<'s>],
    scope: &Scope<'_>,
    names: &ModuleScope<'m>,
    clock: &str,
) -> Result<bool, AllocError>
    requires objects { HasNarrowObjects (scope_at scope.now) }
    requires targets { AreNarrowItems (scope_at scope.now) (map item_of items.now) }
    requires values { AreNarrowReads (scope_at scope.now) (map item_of items.now) }
    ensures { IfOk result (λ r. IsTrue r ↔ HasUndrivenBit (scope_at scope.now) names.now clock.now (map item_of items.now)) }
{
    let drivers = drivers_of(alloc, items, scope)?;
    let table = table_of(alloc, scope, &drivers)?;
    let reads = reads_of(alloc, items, scope, names)?;
    let found = one_has_more(scope, names, clock, &table, &reads);
    Ok(found)
}

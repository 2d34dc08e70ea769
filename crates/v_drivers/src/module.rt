//! The drivers of a module, and whether two of them drive one bit.

ghost use Rattle.std.specs.Prelude.{◌≡◌, ◌↔◌, map, IsTrue, IfOk};
ghost use Rattle.v_value.specs.Scope.{scope_at};
ghost use Rattle.v_value.specs.Narrow.{HasNarrowObjects};
ghost use Rattle.v_syntax.specs.Source.{item_of};
ghost use Rattle.v_drivers.specs.Sets.{drivers, TwoMeet};
ghost use Rattle.v_drivers.specs.Premises.{AreNarrowItems};
ghost use Rattle.v_drivers.specs.Lists.{sets_in};

use crate::block::{add_clocked, add_combinational};
use crate::link::add_links;
use crate::table::two_meet;
use std::alloc::{AllocError, Global};
use v_flow::span::Span;
use v_syntax::module::Item;
use v_value::scope::Scope;

/// The drivers of a module without instances: what each may drive, as spans (1364-2005, 6.1, 9.2). First each part of each continuous
/// assignment's target, then the clocked blocks, then the others, each kind in the order of the text.
pub fn drivers_of<'s>(
    alloc: Global,
    items: &[Item<'s>],
    scope: &Scope<'_>,
) -> Result<Vec<Vec<Span<'s>>>, AllocError>
    requires objects { HasNarrowObjects (scope_at scope.now) }
    requires narrow { AreNarrowItems (scope_at scope.now) (map item_of items.now) }
    ensures { IfOk result (λ v. sets_in v.items ≡ drivers (scope_at scope.now) (map item_of items.now)) }
{
    let mut found = Vec::new(alloc);
    add_links(alloc, items, scope, &mut found)?;
    add_clocked(alloc, items, scope, &mut found)?;
    add_combinational(alloc, items, scope, &mut found)?;
    Ok(found)
}

/// Whether two drivers of a module's items drive one bit of a net or variable, or both some of one memory (1364-2005, 4.2, 6.1, 9.2). A
/// driver is a part of a continuous assignment's target, or a block. The module has no instances.
pub fn has_two_drivers(
    alloc: Global,
    items: &[Item<'_>],
    scope: &Scope<'_>,
) -> Result<bool, AllocError>
    requires objects { HasNarrowObjects (scope_at scope.now) }
    requires narrow { AreNarrowItems (scope_at scope.now) (map item_of items.now) }
    ensures { IfOk result (λ r. IsTrue r ↔ TwoMeet (scope_at scope.now) (drivers (scope_at scope.now) (map item_of items.now))) }
{
    let found = drivers_of(alloc, items, scope)?;
    let meet = two_meet(alloc, scope, &found)?;
    Ok(meet)
}

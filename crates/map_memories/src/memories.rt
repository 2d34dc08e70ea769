//! The memories of the modules at places, looked up by a module's number and its own name for one.

ghost use Rattle.std.specs.Prelude.{◌≡◌, ◌&&◌, ◌||◌, ◌↔◌, ◌-◌, ◌^◌, ◌==◌, ◌≤◌, map, slice_get, option_map, IfOk, IsTrue};
ghost use Rattle.verilog_meaning.specs.Expression.{object_width};
ghost use Rattle.v_syntax.specs.Source.{item_of};
ghost use Rattle.v_value.specs.Scope.{object_of, scope_at};
ghost use Rattle.v_places.specs.Below.{Spot};
ghost use Rattle.v_places.specs.Views.{spot_of, spots_of};
ghost use Rattle.map_paths.specs.Located.{scope_there};
ghost use Rattle.map_memories.specs.Memories.{AreNarrowSpots, HasMemories, HasMemoriesIf, HaveMemories, IsMemoryIn, IsMemoryThere, IsNarrowSpot, has_indexes, has_shape};

use crate::NoMemory;
use crate::assigned::assigned_names;
use crate::kept::{Memories, Shape};
use std::alloc::Global;
use v_places::Place;
use v_scopes::{Constants, declared_scope, placed_scope};
use v_syntax::module::{Item, Module};
use v_value::scope::{Object, Scope};
use v_value::width::object_width;
use wb_bits::mask;

/// Whether a number is the last index of so many words.
fn is_last(address_width: u32, number: u32) -> bool
    ensures { result ≡ (number == 2 ^ address_width - 1) }
{
    address_width <= 32 && u128::from(number) == mask(address_width)
}

/// Whether these are the indexes of so many words, in either order.
fn has_indexes(address_width: u32, addresses: Option<(u32, u32)>) -> bool
    ensures { result ≡ has_indexes address_width addresses }
{
    match addresses {
        None => false,
        Some((first, last)) => {
            (first == 0 && is_last(address_width, last))
                || (is_last(address_width, first) && last == 0)
        }
    }
}

/// Whether an object is a memory of this shape.
fn has_shape(shape: Shape, object: Object) -> bool
    requires { object_width (object_of object) ≤ 128 }
    ensures { result ≡ has_shape shape.address_width shape.width (object_of object) }
{
    has_indexes(shape.address_width, object.addresses) && object_width(object) == shape.width
}

/// The scope of the module at a place.
fn scope_of<'t, 's>(alloc: Global, place: &'t Place<'t, 's>) -> Result<Scope<'s>, NoMemory>
    ensures { IfOk result (λ s. scope_at s ≡ scope_there (spot_of place.now)) }
{
    let constants = Constants {
        scope: &place.constants,
    };
    let names = declared_scope(alloc, place.within, constants)?;
    let scope = placed_scope(alloc, &names, &place.constants)?;
    Ok(scope)
}

/// The items of a module.
fn items_of<'x, 's>(within: &'x Module<'s>) -> &'x [Item<'s>]
    ensures { result.now ≡ within.now.items.items }
{
    &within.items
}

/// What is kept of the module at a place.
fn memories_of<'t, 's>(alloc: Global, place: &'t Place<'t, 's>) -> Result<Memories<'s>, NoMemory>
    requires { IsNarrowSpot (spot_of place.now) }
    ensures { IfOk result (λ m. HasMemories (spot_of place.now) m) }
{
    let scope = scope_of(alloc, place)?;
    let assigned = assigned_names(alloc, items_of(place.within), &scope)?;
    Ok(Memories { scope, assigned })
}

/// The same, if it is asked for.
fn memories_if<'t, 's>(
    alloc: Global,
    is_asked: bool,
    place: &'t Place<'t, 's>,
) -> Result<Option<Memories<'s>>, NoMemory>
    requires { IsNarrowSpot (spot_of place.now) }
    ensures { IfOk result (λ o. HasMemoriesIf (spot_of place.now) o) }
{
    if !is_asked {
        return Ok(None);
    }
    let memories = memories_of(alloc, place)?;
    Ok(Some(memories))
}

/// What is kept of the modules at these places that are asked for.
pub(crate) fn asked_memories<'t, 's>(
    alloc: Global,
    asked: &[bool],
    places: &'t [Place<'t, 's>],
) -> Result<Vec<Option<Memories<'s>>>, NoMemory>
    requires { AreNarrowSpots (spots_of places.now) }
    ensures { IfOk result (λ v. HaveMemories (spots_of places.now) v.items) }
{
    let mut list = Vec::new(alloc);
    for (number, place) in places.iter().enumerate() {
        let is_asked = number < asked.len() && asked[number];
        let memories = memories_if(alloc, is_asked, place)?;
        list.push(memories)?;
    }
    Ok(list)
}

/// Whether a module has a memory of this name and shape, of which a clocked block may assign a bit.
fn has_memory(memories: &Memories<'_>, name: &str, shape: Shape) -> bool
    ensures { (x : Spot) → HasMemories x memories.now → IsTrue result ↔ IsMemoryIn x name.now shape.address_width shape.width }
{
    has_shape(shape, memories.scope.object(name)) && memories.assigned.contains(name)
}

/// Whether the module with a number has such a memory. What is not kept of it is made.
pub(crate) fn has_memory_there<'t>(
    alloc: Global,
    places: &'t [Place<'t, '_>],
    kept: &[Option<Memories<'_>>],
    number: usize,
    name: &str,
    shape: Shape,
) -> Result<bool, NoMemory>
    requires narrow { AreNarrowSpots (spots_of places.now) }
    requires kept { HaveMemories (spots_of places.now) kept.now }
    ensures { IfOk result (λ b. IsTrue b ↔ IsMemoryThere (slice_get (spots_of places.now) number) name.now shape.address_width shape.width) }
{
    if let Some(Some(memories)) = kept.get(number) {
        return Ok(has_memory(memories, name, shape));
    }
    match places.get(number) {
        Some(place) => {
            let memories = memories_of(alloc, place)?;
            Ok(has_memory(&memories, name, shape))
        }
        None => Ok(false),
    }
}

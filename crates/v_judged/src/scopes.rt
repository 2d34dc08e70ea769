//! The scopes of the places of a design, made once for all places that have the same module and the same values of its parameters.
ghost use Rattle.std.specs.Prelude.{◌≡◌, ℕ, List, [], Some, slice_get, IsTrue, IfOk, IfSome, OnOk};
ghost use Rattle.verilog_meaning.specs.Hierarchy.{declarations};
ghost use Rattle.v_syntax.specs.Source.{module_of};
ghost use Rattle.v_value.specs.Scope.{objects_of, scope_at};
ghost use Rattle.v_scopes.specs.Rows.{rows, rows_of};
ghost use Rattle.v_places.specs.Below.{Spot};
ghost use Rattle.v_places.specs.Views.{spot_of, spots_of};
ghost use Rattle.place_kinds.specs.Places.{spot_scope};
ghost use Rattle.v_judged.specs.Sharing.{IsLike, HasLike, HasOne, IsGrown, IsSharing};
ghost use Rattle.v_judged.specs.Spots.{spot_in, spots_in};

use crate::place::PlaceScope;
use std::alloc::{AllocError, Global};
use std::collections::BTreeMap;
use v_places::Place;
use v_scopes::{Constants, ModuleScope, declared_scope, placed_scope};
use v_value::scope::Scope;

/// The scopes of places that differ from each other, and for each place the number of the scope that is its own.
#[derive(Drop)]
pub(crate) struct Sharing<'p, 't, 's> {
    pub(crate) scopes: Vec<PlaceScope<'p, 't, 's>>,
    pub(crate) numbers: Vec<usize>,
}

/// Whether a scope has no names.
fn has_none(scope: &Scope<'_>) -> bool
    ensures { IsTrue result → objects_of scope.now.declarations.items ≡ [] }
{
    scope.declarations().len() == 0
}

/// Whether the module of a scope and the one at a place have the same name, and no constants.
fn is_like(one: &PlaceScope<'_, '_, '_>, place: &Place<'_, '_>) -> bool
    ensures { IsTrue result → IsLike (spot_in one.now) (spot_of place.now) }
{
    if one.place.within.name == place.within.name {
        if has_none(&one.place.constants) {
            return has_none(&place.constants);
        }
    }
    false
}

/// The number of a scope, if that is like the place's.
fn like_at(scopes: &[PlaceScope<'_, '_, '_>], number: usize, place: &Place<'_, '_>) -> Option<usize>
    ensures { IfSome result (λ w. HasLike (spots_in scopes.now) w (spot_of place.now)) }
{
    if number < scopes.len() && is_like(&scopes[number], place) {
        return Some(number);
    }
    None
}

/// The number of a scope like the place's, if the last one that was made of its module is.
fn number_of(
    scopes: &[PlaceScope<'_, '_, '_>],
    place: &Place<'_, '_>,
    last: &BTreeMap<&str, usize>,
) -> Option<usize>
    ensures { IfSome result (λ w. HasLike (spots_in scopes.now) w (spot_of place.now)) }
{
    match last.get(place.within.name) {
        Some(number) => like_at(scopes, *number, place),
        None => None,
    }
}

/// A place with its names and its scope.
fn laid<'p, 't, 's>(
    place: &'p Place<'t, 's>,
    names: ModuleScope<'s>,
    scope: Scope<'s>,
) -> PlaceScope<'p, 't, 's>
    requires rows { rows_of names.declared.items ≡ rows (scope_at place.now.constants) (declarations (module_of place.now.within.now)) }
    requires whole { (n : List ℕ) → scope_at scope n ≡ spot_scope (spot_of place.now) n }
    ensures { spot_of result.place.now ≡ spot_of place.now }
{
    PlaceScope {
        place,
        names,
        scope,
    }
}

/// The scope of a place.
fn scope_of<'p, 't, 's>(
    alloc: Global,
    place: &'p Place<'t, 's>,
) -> Result<PlaceScope<'p, 't, 's>, AllocError>
    ensures { IfOk result (λ x. spot_of x.place.now ≡ spot_of place.now) }
{
    let constants = Constants {
        scope: &place.constants,
    };
    let names = declared_scope(alloc, place.within, constants)?;
    let scope = placed_scope(alloc, &names, &place.constants)?;
    Ok(laid(place, names, scope))
}

/// The number of the place's scope, which is made if it is not there.
fn add<'p, 't, 's>(
    alloc: Global,
    place: &'p Place<'t, 's>,
    last: &mut BTreeMap<&'s str, usize>,
    scopes: &mut Vec<PlaceScope<'p, 't, 's>>,
) -> Result<usize, AllocError>
    ensures like { IfOk result (λ w. HasLike (spots_in scopes.new.items) w (spot_of place.now)) }
    ensures grown { OnOk result (IsGrown (spots_in scopes.old.items) (spot_of place.now) (spots_in scopes.new.items)) }
{
    if let Some(number) = number_of(scopes, place, last) {
        return Ok(number);
    }
    let number = scopes.len();
    let one = scope_of(alloc, place)?;
    scopes.push(one)?;
    last.insert(place.within.name, number)?;
    Ok(number)
}

/// The scopes of places.
pub(crate) fn shared_scopes<'p, 't, 's>(
    alloc: Global,
    places: &'p [Place<'t, 's>],
) -> Result<Sharing<'p, 't, 's>, AllocError>
    ensures { IfOk result (λ x. IsSharing IsLike (spots_in x.scopes.items) x.numbers.items (spots_of places.now)) }
{
    let mut last = BTreeMap::new(alloc);
    let mut scopes = Vec::new(alloc);
    let mut numbers = Vec::new(alloc);
    for place in places {
        let number = add(alloc, place, &mut last, &mut scopes)?;
        numbers.push(number)?;
    }
    Ok(Sharing { scopes, numbers })
}

/// The scope of the place with a number.
pub(crate) fn scope_with<'x, 'p, 't, 's>(
    scopes: &'x [PlaceScope<'p, 't, 's>],
    numbers: &[usize],
    number: usize,
) -> &'x PlaceScope<'p, 't, 's>
    requires { HasOne (spots_in scopes.now) numbers.now number }
    ensures { (w : ℕ) (y : Spot) → slice_get numbers.now number ≡ Some w → slice_get (spots_in scopes.now) w ≡ Some y → spot_of result.now.place.now ≡ y }
{
    &scopes[numbers[number]]
}

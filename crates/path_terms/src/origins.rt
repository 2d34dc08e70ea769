//! Where the terms of dotted names come from.

ghost use Rattle.std.specs.Prelude.{ℕ, List, IfOk};
ghost use Rattle.v_value.specs.Scope.{scope_at};
ghost use Rattle.v_design.specs.Seen.{parts_of};
ghost use Rattle.path_terms.specs.Places.{IsPlaceOf, places_at};
ghost use Rattle.path_terms.specs.Origins.{AreOrigins, IsOrigin};

use crate::NoMemory;
use crate::places::{RegisterPlaces, register_places};
use std::alloc::Global;
use v_design::Design;
use v_value::scope::Scope;
use wb_terms::{NameId, TermId};

/// Where the term of a dotted name comes from.
#[derive(Clone, Copy)]
pub enum Origin {
    /// A net or variable: what it settles to.
    Settled(TermId),
    /// A memory: the name of its register.
    Register(NameId),
}

/// Where the term of a name comes from, if it has one.
fn origin_of(
    scope: &Scope<'_>,
    design: &Design,
    places: &RegisterPlaces<'_>,
    name: &str,
) -> Option<Origin>
    requires { (n : List ℕ) → IsPlaceOf (parts_of design.now) n (places_at places.now n) }
    ensures { IsOrigin (scope_at scope.now) (parts_of design.now) name.now result }
{
    let object = scope.object(name);
    if !object.is_declared {
        return None;
    }
    if object.addresses.is_some() {
        match places.place(name) {
            Some(place) => Some(Origin::Register(NameId(place))),
            None => None,
        }
    } else {
        match design.settled(name) {
            Some(id) => Some(Origin::Settled(id)),
            None => None,
        }
    }
}

/// Where the terms of a scope's names come from, one for each declaration.
pub fn origins_of(
    alloc: Global,
    scope: &Scope<'_>,
    design: &Design,
) -> Result<Vec<Option<Origin>>, NoMemory>
    ensures { IfOk result (λ v. AreOrigins (scope_at scope.now) (parts_of design.now) scope.now.declarations.items v.items) }
{
    let places = register_places(alloc, design)?;
    let mut list = Vec::new(alloc);
    for declaration in scope.declarations() {
        list.push(origin_of(scope, design, &places, declaration.name))?;
    }
    Ok(list)
}

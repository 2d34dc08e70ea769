//! The objects of dotted names, each looked up in the module to which it leads.

ghost use Rattle.std.specs.Prelude.{◌≡◌, map, slice_get, IfOk};
ghost use Rattle.verilog_meaning.specs.Expression.{undeclared};
ghost use Rattle.v_value.specs.Scope.{object_of, objects_of, scope_at};
ghost use Rattle.v_places.specs.Views.{spot_of, spots_of};
ghost use Rattle.map_paths.specs.Located.{object_there, scope_there};
ghost use Rattle.map_paths.specs.Tables.{numbers_in};
ghost use Rattle.map_scope.specs.Named.{AreScopes, IsScope, object_named, objects_named};

use map_paths::Instances;
use std::alloc::{AllocError, Global};
use v_places::Place;
use v_scopes::{Constants, declared_scope, placed_scope};
use v_value::scope::{Declaration, Object, Scope};

/// What a name stands for that nothing declares.
fn nothing() -> Object
    ensures { object_of result ≡ undeclared }
{
    Object {
        is_declared: false,
        signed: false,
        has_range: false,
        left: 0,
        right: 0,
        addresses: None,
        constant: None,
    }
}

/// The scope of the module at a place.
pub fn scope_of<'t, 's>(alloc: Global, place: &'t Place<'t, 's>) -> Result<Scope<'s>, AllocError>
    ensures { IfOk result (λ s. scope_at s ≡ scope_there (spot_of place.now)) }
{
    let constants = Constants {
        scope: &place.constants,
    };
    let names = declared_scope(alloc, place.within, constants)?;
    let scope = placed_scope(alloc, &names, &place.constants)?;
    Ok(scope)
}

/// The places to which some of these names lead, as a flag for each.
fn asked_places(
    alloc: Global,
    count: usize,
    instances: &Instances<'_>,
    names: &[&str],
) -> Result<Vec<bool>, AllocError> {
    let mut asked = Vec::new(alloc);
    for _place in 0..count {
        asked.push(false)?;
    }
    for name in names {
        if let Some(found) = instances.locate(name)
            && found.0 < asked.len()
        {
            asked[found.0] = true;
        }
    }
    Ok(asked)
}

/// The scope of the module at a place, if it is asked for.
fn scope_if<'t, 's>(
    alloc: Global,
    is_asked: bool,
    place: &'t Place<'t, 's>,
) -> Result<Option<Scope<'s>>, AllocError>
    ensures { IfOk result (λ o. IsScope o (spot_of place.now)) }
{
    if !is_asked {
        return Ok(None);
    }
    let scope = scope_of(alloc, place)?;
    Ok(Some(scope))
}

/// The scopes of the modules at these places that are asked for.
fn asked_scopes<'t, 's>(
    alloc: Global,
    asked: &[bool],
    places: &'t [Place<'t, 's>],
) -> Result<Vec<Option<Scope<'s>>>, AllocError>
    ensures { IfOk result (λ v. AreScopes v.items (spots_of places.now)) }
{
    let mut scopes = Vec::new(alloc);
    for (number, place) in places.iter().enumerate() {
        let is_asked = number < asked.len() && asked[number];
        let scope = scope_if(alloc, is_asked, place)?;
        scopes.push(scope)?;
    }
    Ok(scopes)
}

/// What a name means in the module with a number. A scope that is not kept is made.
fn object_there<'t>(
    alloc: Global,
    places: &'t [Place<'t, '_>],
    scopes: &[Option<Scope<'_>>],
    number: usize,
    name: &str,
) -> Result<Object, AllocError>
    requires { AreScopes scopes.now (spots_of places.now) }
    ensures { IfOk result (λ o. object_of o ≡ object_there (slice_get (spots_of places.now) number) name.now) }
{
    if let Some(Some(scope)) = scopes.get(number) {
        return Ok(scope.object(name));
    }
    match places.get(number) {
        Some(place) => {
            let scope = scope_of(alloc, place)?;
            Ok(scope.object(name))
        }
        None => Ok(nothing()),
    }
}

/// What a dotted name means.
fn object_of_name<'t>(
    alloc: Global,
    places: &'t [Place<'t, '_>],
    scopes: &[Option<Scope<'_>>],
    instances: &Instances<'_>,
    name: &str,
) -> Result<Object, AllocError>
    requires { AreScopes scopes.now (spots_of places.now) }
    ensures { IfOk result (λ o. object_of o ≡ object_named (spots_of places.now) (numbers_in instances.now) name.now) }
{
    match instances.locate(name) {
        Some(found) => object_there(alloc, places, scopes, found.0, found.1),
        None => Ok(nothing()),
    }
}

/// The scope of these dotted names, where these places are those of a design: what each of them means there.
pub fn map_scope<'t, 'n>(
    alloc: Global,
    places: &'t [Place<'t, '_>],
    instances: &Instances<'_>,
    names: &[&'n str],
) -> Result<Scope<'n>, AllocError>
    ensures { IfOk result (λ s. objects_of s.declarations.items ≡ objects_named (spots_of places.now) (numbers_in instances.now) (map (λ n. n.now) names.now)) }
{
    let asked = asked_places(alloc, places.len(), instances, names)?;
    let scopes = asked_scopes(alloc, &asked, places)?;
    let list = declarations_of(alloc, places, &scopes, instances, names)?;
    let scope = Scope::of(alloc, list)?;
    Ok(scope)
}

/// The declarations of these names.
fn declarations_of<'t, 'n>(
    alloc: Global,
    places: &'t [Place<'t, '_>],
    scopes: &[Option<Scope<'_>>],
    instances: &Instances<'_>,
    names: &[&'n str],
) -> Result<Vec<Declaration<'n>>, AllocError>
    requires { AreScopes scopes.now (spots_of places.now) }
    ensures { IfOk result (λ v. objects_of v.items ≡ objects_named (spots_of places.now) (numbers_in instances.now) (map (λ n. n.now) names.now)) }
{
    let mut list = Vec::new(alloc);
    for name in names {
        let object = object_of_name(alloc, places, scopes, instances, name)?;
        list.push(Declaration {
            name: *name,
            object,
        })?;
    }
    Ok(list)
}

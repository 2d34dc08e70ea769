//! The table of the terms of names.

ghost use Rattle.std.specs.Prelude.{◌≡◌, ◌<◌, ◌≤◌, length, IfOk, IfSome, OnOk};
ghost use Rattle.v_operators.specs.Meaning.{Grows};
ghost use Rattle.v_value.specs.Scope.{scope_at};
ghost use Rattle.v_lower.specs.Table.{images_at};
ghost use Rattle.v_design.specs.Parts.{Parts};
ghost use Rattle.path_terms.specs.Origins.{AreOrigins, AreTermsOfNames, IsFrom, IsGivenFrom, IsPlacedOrigin};

use crate::NoMemory;
use crate::origins::Origin;
use std::alloc::Global;
use v_lower::NamedTerms;
use v_operators::put;
use v_value::scope::Scope;
use wb_terms::{NameId, Node, TermId, Terms};

/// The term of a name of the store.
fn name_term(terms: &mut Terms, place: NameId) -> Result<TermId, NoMemory>
    requires { place.0 < length terms.old.names }
    ensures grows { Grows terms.old terms.new }
    ensures from { IfOk result (λ r. IsFrom terms.new (Origin.Register place) r.0) }
{
    // A declared sort is in range, so the node has one.
    let _sort = terms.name_sort(place);
    let id = put(terms, Node::Name(place))?;
    Ok(id)
}

/// The term that comes from there.
fn term_from(terms: &mut Terms, origin: Origin) -> Result<TermId, NoMemory>
    requires { IsPlacedOrigin (length terms.old.names) origin }
    ensures grows { Grows terms.old terms.new }
    ensures from { IfOk result (λ r. IsFrom terms.new origin r.0) }
{
    match origin {
        Origin::Settled(id) => Ok(id),
        Origin::Register(place) => {
            let id = name_term(terms, place)?;
            Ok(id)
        }
    }
}

/// Gives a name its term, if it has one.
fn enter<'s>(
    terms: &mut Terms,
    table: &mut NamedTerms<'s>,
    name: &'s str,
    origin: Option<Origin>,
) -> Result<(), NoMemory>
    requires { IfSome origin (IsPlacedOrigin (length terms.old.names)) }
    ensures grows { Grows terms.old terms.new }
    ensures given { OnOk result (IsGivenFrom (images_at table.old) terms.new name.now (images_at table.new) origin) }
{
    match origin {
        None => Ok(()),
        Some(origin) => {
            let id = term_from(terms, origin)?;
            table.insert(name, id)?;
            Ok(())
        }
    }
}

/// The terms of a scope's names, of which it is known where they come from. The store keeps its names and terms.
pub fn named_terms<'s>(
    alloc: Global,
    scope: &Scope<'s>,
    origins: &[Option<Origin>],
    terms: &mut Terms,
) -> Result<NamedTerms<'s>, NoMemory>
    requires { (e : Parts) × (e.graph ≡ terms.old) × (e.register_count ≤ length terms.old.names) × AreOrigins (scope_at scope.now) e scope.now.declarations.items origins.now }
    ensures grows { Grows terms.old terms.new }
    ensures terms { IfOk result (λ r. (e : Parts) → e.graph ≡ terms.old → AreOrigins (scope_at scope.now) e scope.now.declarations.items origins.now
        → AreTermsOfNames (scope_at scope.now) e terms.new (images_at r)) }
{
    let declarations = scope.declarations();
    let mut table = NamedTerms::new(alloc);
    for place in 0..declarations.len() {
        enter(terms, &mut table, declarations[place].name, origins[place])?;
    }
    Ok(table)
}

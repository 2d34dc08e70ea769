//! The terms that nets and variables settle to, for each place where a module stands.

ghost use Rattle.std.specs.Prelude.{◌≡◌, ◌≤◌, ℕ, List, Some, None, cond, drop, length, map, option_map, slice_get, IfOk, OnOk};
ghost use Rattle.wb_values.specs.Value.{same_name};
ghost use Rattle.wb_values.specs.Choice.{first_of};
ghost use Rattle.verilog_meaning.specs.Settled.{Design as PureDesign};
ghost use Rattle.flat_designs.specs.Flat.{Naming};
ghost use Rattle.v_value.specs.Scope.{scope_at};
ghost use Rattle.v_places.specs.Views.{spot_of, spots_of};
ghost use Rattle.v_flat.specs.Views.{entry_in, names_in};
ghost use Rattle.v_lower.specs.Table.{images_at};
ghost use Rattle.v_design.specs.Table.{term_under, number_under, term_in, place_in};
ghost use Rattle.v_elab.specs.Settled.{IsCalledSo, AreSettledBy, net_term, after_entries, declared_entries, HaveOwnTerms, IsPutBelow};

use crate::NoMemory;
use std::alloc::Global;
use std::collections::BTreeMap;
use v_design::PlaceTerms;
use v_flat::{Dotted, DottedNames, PlaceNames};
use v_lower::NamedTerms;
use v_places::Place;
use v_value::scope::Scope;
use wb_terms::TermId;

/// The term of a name in the one scope; a memory has none here.
fn net_term(scope: &Scope<'_>, table: &NamedTerms<'_>, name: &str) -> Option<TermId>
    ensures { option_map (λ k. k.0) result ≡ net_term (scope_at scope.now) (images_at table.now) name.now }
{
    if scope.object(name).addresses.is_some() {
        None
    } else {
        table.term(name)
    }
}

/// Enters the term that the table has under a text, if it has one, under a name.
fn enter_term(
    alloc: Global,
    scope: &Scope<'_>,
    table: &NamedTerms<'_>,
    text: &str,
    name: &str,
    found: &mut BTreeMap<String, TermId>,
) -> Result<(), NoMemory>
    ensures { OnOk result ((n : List ℕ) → term_under found.new n
        ≡ cond (same_name name.now n) (first_of (net_term (scope_at scope.now) (images_at table.now) text.now) (term_under found.old n)) (term_under found.old n)) }
{
    match net_term(scope, table, text) {
        Some(id) => {
            let own = String::from_str(alloc, name)?;
            found.insert(own, id)?;
        }
        None => {}
    }
    Ok(())
}

/// Enters the term of a name of a place.
fn enter_entry(
    alloc: Global,
    scope: &Scope<'_>,
    table: &NamedTerms<'_>,
    entry: &Dotted<'_>,
    found: &mut BTreeMap<String, TermId>,
) -> Result<(), NoMemory>
    ensures { OnOk result ((n : List ℕ) → term_under found.new n
        ≡ cond (same_name (entry_in entry.now).of_name n) (first_of (net_term (scope_at scope.now) (images_at table.now) (entry_in entry.now).text) (term_under found.old n)) (term_under found.old n)) }
{
    enter_term(alloc, scope, table, entry.text.as_str(), entry.name, found)?;
    Ok(())
}

/// The terms of names from a number on.
fn terms_from(
    alloc: Global,
    scope: &Scope<'_>,
    table: &NamedTerms<'_>,
    names: &[Dotted<'_>],
    first: usize,
) -> Result<BTreeMap<String, TermId>, NoMemory>
    ensures { IfOk result (λ t. (n : List ℕ) → term_under t n ≡ after_entries (scope_at scope.now) (images_at table.now) (drop first (map entry_in names.now)) n None) }
{
    let mut found = BTreeMap::new(alloc);
    for number in first..names.len() {
        enter_entry(alloc, scope, table, &names[number], &mut found)?;
    }
    Ok(found)
}

/// How many constants a place has.
fn constant_count<'t>(place: &'t Place<'t, '_>) -> usize
    ensures { result ≡ length (spot_of place.now).constants }
{
    place.constants.declarations().len()
}

/// The terms of the nets and variables of a place, which has this number. Nothing stands in it yet.
fn place_terms<'t>(
    place: &'t Place<'t, '_>,
    number: usize,
    names: &[PlaceNames<'_>],
    alloc: Global,
    scope: &Scope<'_>,
    table: &NamedTerms<'_>,
) -> Result<PlaceTerms, NoMemory>
    ensures terms { IfOk result (λ p. (n : List ℕ) → term_under p.terms n
        ≡ after_entries (scope_at scope.now) (images_at table.now) (declared_entries (spot_of place.now) (slice_get (map names_in names.now) number)) n None) }
    ensures below { IfOk result (λ p. (u : List ℕ) → number_under p.below u ≡ None) }
{
    let below = BTreeMap::new(alloc);
    match names.get(number) {
        Some(own) => {
            let first = constant_count(place);
            let terms = terms_from(alloc, scope, table, &own.names, first)?;
            Ok(PlaceTerms { terms, below })
        }
        None => Ok(PlaceTerms {
            terms: BTreeMap::new(alloc),
            below,
        }),
    }
}

/// The terms of the nets and variables of each place. Nothing stands in any of them yet.
fn all_terms<'t>(
    places: &'t [Place<'t, '_>],
    names: &[PlaceNames<'_>],
    alloc: Global,
    scope: &Scope<'_>,
    table: &NamedTerms<'_>,
) -> Result<Vec<PlaceTerms>, NoMemory>
    ensures count { IfOk result (λ v. length v.items ≡ length places.now) }
    ensures terms { IfOk result (λ v. HaveOwnTerms (scope_at scope.now) (images_at table.now) (spots_of places.now) (map names_in names.now) (length places.now) v.items) }
    ensures below { IfOk result (λ v. (k : ℕ) (u : List ℕ) → place_in v.items k u ≡ None) }
{
    let mut list = Vec::new(alloc);
    for (number, place) in places.iter().enumerate() {
        let own = place_terms(place, number, names, alloc, scope, table)?;
        list.push(own)?;
    }
    Ok(list)
}

/// The name of a place's instance. That of the top is empty.
fn instance_name<'t, 's>(place: &'t Place<'t, 's>) -> &'s str
    ensures { result.now ≡ (spot_of place.now).instance }
{
    match place.instance {
        Some(instance) => instance.name,
        None => "",
    }
}

/// Enters the number of an instance into the place around it.
fn enter_number(
    alloc: Global,
    instance: &str,
    number: usize,
    around: &mut PlaceTerms,
) -> Result<(), NoMemory>
    ensures terms { OnOk result (around.new.terms ≡ around.old.terms) }
    ensures below { OnOk result ((u : List ℕ) → number_under around.new.below u ≡ cond (same_name instance.now u) (Some number) (number_under around.old.below u)) }
{
    let name = String::from_str(alloc, instance)?;
    around.below.insert(name, number)?;
    Ok(())
}

/// Enters a place, which has this number, into the place that it stands in.
fn enter_place<'t>(
    place: &'t Place<'t, '_>,
    number: usize,
    alloc: Global,
    list: &mut Vec<PlaceTerms>,
) -> Result<(), NoMemory>
    requires { number ≤ length list.now.items }
    ensures count { OnOk result (length list.new.items ≡ length list.old.items) }
    ensures terms { OnOk result ((k : ℕ) (n : List ℕ) → term_in list.new.items k n ≡ term_in list.old.items k n) }
    ensures below { OnOk result (IsPutBelow number (spot_of place.now) (place_in list.old.items) (place_in list.new.items)) }
{
    if place.parent >= number {
        return Ok(());
    }
    enter_number(alloc, instance_name(place), number, &mut list[place.parent])?;
    Ok(())
}

/// The terms of nets and variables, for each of these places, out of a table that has them under what these names are called in the one
/// scope.
pub(crate) fn settled_of<'t>(
    places: &'t [Place<'t, '_>],
    names: &DottedNames<'_>,
    alloc: Global,
    scope: &Scope<'_>,
    table: &NamedTerms<'_>,
) -> Result<Vec<PlaceTerms>, NoMemory>
    ensures { IfOk result (λ v. (d : PureDesign) (called : Naming) → IsCalledSo d called (spots_of places.now) (map names_in names.now.places.items) (scope_at scope.now)
        → AreSettledBy d called (images_at table.now) v.items) }
{
    let mut list = all_terms(places, &names.places, alloc, scope, table)?;
    for (number, place) in places.iter().enumerate() {
        enter_place(place, number, alloc, &mut list)?;
    }
    Ok(list)
}

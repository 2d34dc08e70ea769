//! The places that stand in each place, by the names of their instances.
ghost use Rattle.std.specs.Prelude.{◌≡◌, ◌≤◌, ℕ, List, None, length, IfOk, OnOk};
ghost use Rattle.v_places.specs.Views.{spot_of, spots_of};
ghost use Rattle.v_ordered.specs.Lines.{AreBelow};
ghost use Rattle.v_ordered.specs.Tables.{number_at, IsEntered};

use std::alloc::{AllocError, Global};
use std::collections::BTreeMap;
use v_places::Place;

/// The name of a place's instance. That of the top is empty.
fn instance_name<'t, 's>(place: &'t Place<'t, 's>) -> &'s str
    ensures { result.now ≡ (spot_of place.now).instance }
{
    match place.instance {
        Some(instance) => instance.name,
        None => "",
    }
}

/// Enters a place, which has this number, into the table of the place that it stands in.
fn enter<'t, 's>(
    number: usize,
    place: &'t Place<'t, 's>,
    tables: &mut Vec<BTreeMap<&'s str, usize>>,
) -> Result<(), AllocError>
    requires { number ≤ length tables.now.items }
    ensures count { OnOk result (length tables.new.items ≡ length tables.old.items) }
    ensures entered { OnOk result (IsEntered number (spot_of place.now) (number_at tables.old.items) (number_at tables.new.items)) }
{
    if place.parent >= number {
        return Ok(());
    }
    let table = &mut tables[place.parent];
    table.insert(instance_name(place), number)?;
    Ok(())
}

/// As many empty tables.
fn empty_tables<'s>(
    alloc: Global,
    count: usize,
) -> Result<Vec<BTreeMap<&'s str, usize>>, AllocError>
    ensures count { IfOk result (λ v. length v.items ≡ count) }
    ensures empty { IfOk result (λ v. (k : ℕ) (n : List ℕ) → number_at v.items k n ≡ None) }
{
    let mut tables = Vec::new(alloc);
    for _ in 0..count {
        tables.push(BTreeMap::new(alloc))?;
    }
    Ok(tables)
}

/// For each place the numbers of the places that stand in it.
pub(crate) fn tables_below<'t, 's>(
    alloc: Global,
    places: &'t [Place<'t, 's>],
) -> Result<Vec<BTreeMap<&'s str, usize>>, AllocError>
    ensures count { IfOk result (λ v. length v.items ≡ length places.now) }
    ensures below { IfOk result (λ v. (k : ℕ) → AreBelow (spots_of places.now) k (number_at v.items k)) }
{
    let mut tables = empty_tables(alloc, places.len())?;
    for (number, place) in places.iter().enumerate() {
        enter(number, place, &mut tables)?;
    }
    Ok(tables)
}

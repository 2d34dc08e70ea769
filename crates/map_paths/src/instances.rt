//! The instances in each module that stands in a design, by their names.

ghost use Rattle.std.specs.Prelude.{◌≡◌, ◌+◌, ℕ, length, option_map, IfOk, OnOk};
ghost use Rattle.wb_values.specs.Value.{Name};
ghost use Rattle.refinement.specs.Map.{dotted_parts};
ghost use Rattle.v_places.specs.Views.{spot_of, spots_of};
ghost use Rattle.map_paths.specs.Located.{AreBelow, located};
ghost use Rattle.map_paths.specs.Tables.{below_in, numbers_in, with_child};

use std::alloc::{AllocError, Global};
use std::collections::BTreeMap;
use v_places::Place;

/// For each place of a design the instances in it: the numbers of their places, by their names.
#[derive(Drop)]
pub struct Instances<'s> {
    tables: Vec<BTreeMap<&'s str, usize>>,
}

/// The name of the instance that stands at a place.
fn instance_name<'t, 's>(place: &'t Place<'t, 's>) -> &'s str
    ensures { result.now ≡ (spot_of place.now).instance }
{
    match place.instance {
        Some(instance) => instance.name,
        None => "",
    }
}

/// Adds a place to the table of the one around it, where that stands before it.
fn add_child<'t, 's>(
    place: &'t Place<'t, 's>,
    tables: &mut Vec<BTreeMap<&'s str, usize>>,
) -> Result<(), AllocError>
    ensures below { OnOk result ((k : ℕ) (u : Name) → below_in tables.new.items k u
        ≡ with_child (spot_of place.now) (length tables.old.items) (below_in tables.old.items) k u) }
    ensures length { OnOk result (length tables.new.items ≡ length tables.old.items) }
{
    let number = tables.len();
    if place.parent >= number {
        return Ok(());
    }
    let name = instance_name(place);
    let table = &mut tables[place.parent];
    table.insert(name, number)?;
    Ok(())
}

/// Adds an empty table.
fn add_table<'s>(
    alloc: Global,
    tables: &mut Vec<BTreeMap<&'s str, usize>>,
) -> Result<(), AllocError>
    ensures below { OnOk result ((k : ℕ) (u : Name) → below_in tables.new.items k u ≡ below_in tables.old.items k u) }
    ensures length { OnOk result (length tables.new.items ≡ length tables.old.items + 1) }
{
    tables.push(BTreeMap::new(alloc))?;
    Ok(())
}

/// The instances of these places, each in the table of the place around it.
fn tables_of<'t, 's>(
    alloc: Global,
    places: &'t [Place<'t, 's>],
) -> Result<Vec<BTreeMap<&'s str, usize>>, AllocError>
    ensures { IfOk result (λ v. AreBelow (spots_of places.now) (below_in v.items)) }
{
    let mut tables = Vec::new(alloc);
    for place in places {
        add_child(place, &mut tables)?;
        add_table(alloc, &mut tables)?;
    }
    Ok(tables)
}

/// The number of an instance by its name in the module with a number.
fn child(tables: &[BTreeMap<&str, usize>], place: usize, name: &str) -> Option<usize>
    ensures { result ≡ below_in tables.now place name.now }
{
    let table = tables.get(place)?;
    table.get(name).copied()
}

/// Where a dotted name leads: the number of a module, and a name in it.
fn locate<'n>(tables: &[BTreeMap<&str, usize>], name: &'n str) -> Option<(usize, &'n str)>
    ensures { option_map (λ x. (x.0, x.1.now)) result ≡ located (below_in tables.now) 0 (dotted_parts name.now) }
{
    let mut rest = name;
    let mut place = 0;
    'parts: while let Some((part, more)) = rest.split_once('.') {
        place = child(tables, place, part)?;
        rest = more;
    }
    Some((place, rest))
}

impl<'s> Instances<'s> {
    /// The instances of these places.
    pub fn of<'t>(alloc: Global, places: &'t [Place<'t, 's>]) -> Result<Instances<'s>, AllocError>
        ensures { IfOk result (λ x. AreBelow (spots_of places.now) (numbers_in x)) }
    {
        let tables = tables_of(alloc, places)?;
        Ok(Instances { tables })
    }

    /// Where a dotted name leads from the top: the number of the place of a module, and a name within it, which that may lack.
    pub fn locate<'n>(&self, name: &'n str) -> Option<(usize, &'n str)>
        ensures { option_map (λ x. (x.0, x.1.now)) result ≡ located (numbers_in self.now) 0 (dotted_parts name.now) }
    {
        locate(&self.tables, name)
    }
}

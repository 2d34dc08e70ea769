//! The new names in each module that stands in a design.
ghost use Rattle.std.specs.Prelude.{◌≡◌, ◌++◌, map, IfOk, OnOk};
ghost use Rattle.v_value.specs.Scope.{objects_of};
ghost use Rattle.v_renamed.specs.NewNames.{new_name};
ghost use Rattle.v_flat.specs.Entries.{flat_entries, flat_entry, named_in, naming_of};
ghost use Rattle.v_flat.specs.Views.{entry_in, names_in, namings};

use crate::names::{Dotted, DottedNames, PlaceNames};
use std::alloc::{AllocError, Global};
use std::collections::BTreeMap;
use v_renamed::Names;
use v_value::scope::{Declaration, Scope};

/// The new names in one module.
fn table_of<'a>(alloc: Global, names: &'a [Dotted<'a>]) -> Result<Names<'a>, AllocError>
    ensures { IfOk result (λ t. new_name t ≡ named_in (map entry_in names.now)) }
{
    let mut table = BTreeMap::new(alloc);
    for each in names {
        table.insert(each.name, each.text.as_str())?;
    }
    Ok(Names { table })
}

/// The new names in each module.
pub fn tables_of<'a>(
    alloc: Global,
    places: &'a [PlaceNames<'a>],
) -> Result<Vec<Names<'a>>, AllocError>
    ensures { IfOk result (λ v. namings v.items ≡ map naming_of (map names_in places.now)) }
{
    let mut tables = Vec::new(alloc);
    for place in places {
        let table = table_of(alloc, &place.names)?;
        tables.push(table)?;
    }
    Ok(tables)
}

/// Adds names with what they stand for.
fn add_names<'a>(names: &'a [Dotted<'a>], list: &mut Vec<Declaration<'a>>) -> Result<(), AllocError>
    ensures { OnOk result (objects_of list.new.items ≡ objects_of list.old.items ++ map flat_entry (map entry_in names.now)) }
{
    for each in names {
        list.push(Declaration {
            name: each.text.as_str(),
            object: each.object,
        })?;
    }
    Ok(())
}

/// All dotted names with what they stand for.
pub(crate) fn scope_of<'a>(
    alloc: Global,
    places: &'a [PlaceNames<'a>],
) -> Result<Scope<'a>, AllocError>
    ensures { IfOk result (λ s. objects_of s.declarations.items ≡ flat_entries (map names_in places.now)) }
{
    let mut list = Vec::new(alloc);
    for place in places {
        add_names(&place.names, &mut list)?;
    }
    let scope = Scope::of(alloc, list)?;
    Ok(scope)
}

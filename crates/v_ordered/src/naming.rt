//! What the names of each module are called, by the names in its text.
ghost use Rattle.std.specs.Prelude.{◌≡◌, ℕ, List, None, map, IfOk};
ghost use Rattle.v_flat.specs.Entries.{named_after};
ghost use Rattle.v_flat.specs.Views.{entry_in, names_in};
ghost use Rattle.v_ordered.specs.Lines.{called_under};
ghost use Rattle.v_ordered.specs.Tables.{text_under};

use std::alloc::{AllocError, Global};
use std::collections::BTreeMap;
use v_flat::{Dotted, PlaceNames};

/// What the names of one module are called.
fn table_of<'n>(
    alloc: Global,
    names: &'n [Dotted<'n>],
) -> Result<BTreeMap<&'n str, &'n str>, AllocError>
    ensures { IfOk result (λ t. (q : List ℕ) → text_under t q ≡ named_after None (map entry_in names.now) q) }
{
    let mut table = BTreeMap::new(alloc);
    for each in names {
        table.insert(each.name, each.text.as_str())?;
    }
    Ok(table)
}

/// What the names of each module are called.
pub(crate) fn tables_of<'n>(
    alloc: Global,
    places: &'n [PlaceNames<'n>],
) -> Result<Vec<BTreeMap<&'n str, &'n str>>, AllocError>
    ensures { IfOk result (λ v. map text_under v.items ≡ map called_under (map names_in places.now)) }
{
    let mut tables = Vec::new(alloc);
    for place in places {
        let table = table_of(alloc, &place.names)?;
        tables.push(table)?;
    }
    Ok(tables)
}

//! A table of objects by names. Most names are found by their hashes; a name whose hash another one has stands in a table of its own. So a
//! look-up compares numbers, and one name at its end.
ghost use Rattle.std.specs.Prelude.{◌≡◌, ℕ, List, option_map, cond, Some, None, OnOk};
ghost use Rattle.wb_values.specs.Value.{same_name};
ghost use Rattle.wb_values.specs.Choice.{first_of};
ghost use Rattle.v_value.specs.Objects.{object_of};
ghost use Rattle.v_value.specs.Tables.{hashed_at, object_at};

use crate::hash::hash_of;
use crate::scope::{Declaration, Object};
use std::alloc::{AllocError, Global};
use std::collections::BTreeMap;

/// Objects by names.
#[derive(Drop)]
pub(crate) struct Table<'s> {
    /// The first declaration of each hash.
    pub(crate) hashed: BTreeMap<u64, Declaration<'s>>,
    /// The names whose hash another name has.
    pub(crate) others: BTreeMap<&'s str, Object>,
}

/// A table without names.
pub(crate) fn no_names<'s>(alloc: Global) -> Table<'s>
    ensures { (q : List ℕ) → object_at result q ≡ None }
{
    Table {
        hashed: BTreeMap::new(alloc),
        others: BTreeMap::new(alloc),
    }
}

/// Puts a declaration into the table, if it is the first of its name.
pub(crate) fn declare<'s>(
    table: &mut Table<'s>,
    declaration: Declaration<'s>,
) -> Result<(), AllocError>
    ensures { OnOk result ((q : List ℕ) → object_at table.new q
        ≡ first_of (object_at table.old q) (cond (same_name declaration.entry.name.now q) (Some (object_of declaration.entry.object)) None)) }
{
    match table.others.get(declaration.name) {
        Some(_) => return Ok(()),
        None => (),
    }
    let hash = hash_of(declaration.name);
    match table.hashed.insert(hash, declaration)? {
        None => Ok(()),
        Some(first) => {
            table.hashed.insert(hash, first)?;
            if first.name == declaration.name {
                return Ok(());
            }
            table.others.insert(declaration.name, declaration.object)?;
            Ok(())
        }
    }
}

/// The object of the declaration that has the name's hash, where it is one of that name.
fn hashed(table: &Table<'_>, name: &str) -> Option<Object>
    ensures { option_map object_of result ≡ hashed_at table.now.hashed name.now }
{
    match table.hashed.get(&hash_of(name)) {
        Some(first) => {
            if first.name == name {
                Some(first.object)
            } else {
                None
            }
        }
        None => None,
    }
}

/// What the table has under a name.
pub(crate) fn find(table: &Table<'_>, name: &str) -> Option<Object>
    ensures { option_map object_of result ≡ object_at table.now name.now }
{
    match hashed(table, name) {
        Some(object) => Some(object),
        None => table.others.get(name).copied(),
    }
}

//! Names found by a table.

ghost use Rattle.std.specs.Prelude.{◌≡◌, ◌<◌, ℕ, List, length, IfOk, IfSome, cond, Some, None, map, true, IsTrue};
ghost use Rattle.wb_values.specs.Value.{same_name};
ghost use Rattle.wb_values.specs.Choice.{first_of};
ghost use Rattle.ila_sim.specs.Names.{settable_of, are_apart};
ghost use Rattle.ila_sim.specs.Places.{under_name, place_from};

use crate::names::Settable;
use std::alloc::{AllocError, Global};
use std::collections::BTreeMap;

/// Names that may be set, with a table of their places.
#[derive(Drop)]
pub(crate) struct Index<'a> {
    pub(crate) settables: &'a [Settable],
    table: BTreeMap<&'a [u8], usize>,
    pub(crate) ghost apart: { IsTrue (are_apart (map settable_of settables.now)) },
    ghost finds: { (q : List ℕ) → under_name table q ≡ place_from 0 (map settable_of settables.now) q },
}

/// Puts a place under a name unless one stands there.
fn add_first<'a>(
    table: &mut BTreeMap<&'a [u8], usize>,
    name: &'a [u8],
    place: usize,
) -> Result<(), AllocError>
    ensures { IfOk result (λ _. (q : List ℕ) → under_name table.new q ≡ first_of (under_name table.old q) (cond (same_name name.now q) (Some place) None)) }
{
    if !table.contains_key(&name) {
        table.insert(name, place)?;
    }
    Ok(())
}

/// The places of the names.
fn places<'a>(
    alloc: Global,
    settables: &'a [Settable],
) -> Result<BTreeMap<&'a [u8], usize>, AllocError>
    ensures { IfOk result (λ t. (q : List ℕ) → under_name t q ≡ place_from 0 (map settable_of settables.now) q) }
{
    let mut table = BTreeMap::new(alloc);
    for (place, settable) in settables.iter().enumerate() {
        add_first(&mut table, settable.name.as_slice(), place)?;
    }
    Ok(table)
}

impl<'a> Index<'a> {
    ghost use Rattle.std.specs.Prelude.{◌≡◌, IfOk, map, IsTrue};
    ghost use Rattle.ila_sim.specs.Names.{settable_of, are_apart};

    /// The table of these names, none of which stands twice.
    pub(crate) fn new(alloc: Global, settables: &'a [Settable]) -> Result<Index<'a>, AllocError>
        requires { IsTrue (are_apart (map settable_of settables.now)) }
        ensures { IfOk result (λ i. i.settables.now ≡ settables.now) }
    {
        let table = places(alloc, settables)?;
        Ok(Index { settables, table })
    }
}

/// The place of a name.
pub(crate) fn place_of<'a>(index: &Index<'a>, name: &'a [u8]) -> Option<usize>
    ensures place { result ≡ place_from 0 (map settable_of index.now.settables.now) name.now }
    ensures within { IfSome result (λ k. k < length index.now.settables.now) }
{
    index.table.get(&name).copied()
}

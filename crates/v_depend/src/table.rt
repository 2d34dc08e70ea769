//! Tables of masks that are copied and united.

ghost use Rattle.std.specs.Prelude.{◌≡◌, IfOk, OnOk};
ghost use Rattle.verilog_designs.specs.Reads.{or_in};
ghost use Rattle.v_masks.specs.Masks.{masked};
ghost use Rattle.v_depend.specs.Running.{of_name, of_names};

use std::alloc::{AllocError, Global};
use std::collections::BTreeMap;
use v_masks::mask_under;

/// The entries of a table.
fn entries_of<'s>(
    alloc: Global,
    table: &BTreeMap<&'s str, u128>,
) -> Result<Vec<(&'s str, u128)>, AllocError>
    ensures { IfOk result (λ v. v.items ≡ table.now.entries) }
{
    let mut entries = Vec::new(alloc);
    for (name, mask) in table {
        entries.push((*name, *mask))?;
    }
    Ok(entries)
}

/// Adds the bits of one name.
fn add_name<'s>(
    name: &'s str,
    from: &BTreeMap<&'s str, u128>,
    to: &mut BTreeMap<&'s str, u128>,
) -> Result<(), AllocError>
    ensures { OnOk result (masked to.new ≡ or_in (masked to.old) (of_name name.now (masked from.now))) }
{
    let mask = mask_under(to, name) | mask_under(from, name);
    to.insert(name, mask)?;
    Ok(())
}

/// Adds the bits of names.
fn add_names<'s>(
    entries: &[(&'s str, u128)],
    from: &BTreeMap<&'s str, u128>,
    to: &mut BTreeMap<&'s str, u128>,
) -> Result<(), AllocError>
    ensures { OnOk result (masked to.new ≡ or_in (masked to.old) (of_names entries.now (masked from.now))) }
{
    for entry in entries {
        add_name(entry.0, from, to)?;
    }
    Ok(())
}

/// Adds all bits of a table.
pub(crate) fn unite<'s>(
    alloc: Global,
    from: &BTreeMap<&'s str, u128>,
    to: &mut BTreeMap<&'s str, u128>,
) -> Result<(), AllocError>
    ensures { OnOk result (masked to.new ≡ or_in (masked to.old) (masked from.now)) }
{
    let entries = entries_of(alloc, from)?;
    add_names(&entries, from, to)?;
    Ok(())
}

/// A table with the same bits.
pub(crate) fn copy_of<'s>(
    alloc: Global,
    table: &BTreeMap<&'s str, u128>,
) -> Result<BTreeMap<&'s str, u128>, AllocError>
    ensures { IfOk result (λ t. masked t ≡ masked table.now) }
{
    let mut copy = BTreeMap::new(alloc);
    unite(alloc, table, &mut copy)?;
    Ok(copy)
}

//! What assignments do to a table of bits, name by name.

ghost use Rattle.std.specs.Prelude.{◌≡◌, OnOk};
ghost use Rattle.v_masks.specs.Masks.{masked};
ghost use Rattle.v_depend.specs.Tables.{changed, all_changed};

use std::alloc::AllocError;
use std::collections::BTreeMap;
use v_masks::mask_under;

/// What an assignment does to the bits of a name: it keeps some as they are, takes the others away, and sets some.
#[derive(Clone, Copy)]
pub struct Change<'s> {
    pub name: &'s str,
    pub kept: u128,
    pub set: u128,
}

/// Makes a change.
fn make_change<'s>(
    change: Change<'s>,
    table: &mut BTreeMap<&'s str, u128>,
) -> Result<(), AllocError>
    ensures { OnOk result (masked table.new ≡ changed change.entry (masked table.old)) }
{
    let mask = mask_under(table, change.name) & change.kept | change.set;
    table.insert(change.name, mask)?;
    Ok(())
}

/// One change after the other.
pub(crate) fn change_all<'s>(
    changes: &[Change<'s>],
    table: &mut BTreeMap<&'s str, u128>,
) -> Result<(), AllocError>
    ensures { OnOk result (masked table.new ≡ all_changed changes.now (masked table.old)) }
{
    for one in changes {
        make_change(*one, table)?;
    }
    Ok(())
}

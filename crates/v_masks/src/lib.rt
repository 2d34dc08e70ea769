//! Tables of masks: which bits of a name are in a set, found by the name.
#![tactic(auto)]

ghost use Rattle.std.specs.Prelude.{◌≡◌};
ghost use Rattle.v_masks.specs.Masks.{mask_under};

use std::collections::BTreeMap;

/// The bits of a name in the table, each by its place; no bit of a name that the table has not.
pub fn mask_under<'s>(table: &BTreeMap<&'s str, u128>, name: &str) -> u128
    ensures { result ≡ mask_under table.now name.now }
{
    match table.get(name) {
        Some(mask) => *mask,
        None => 0,
    }
}

//! A table of overrides by their names.
ghost use Rattle.std.specs.Prelude.{◌≡◌, ℕ, List, cond, Some, None, IfOk, OnOk, option_map};
ghost use Rattle.wb_values.specs.Value.{same_name};
ghost use Rattle.wb_values.specs.Choice.{first_of};
ghost use Rattle.v_constants.specs.Given.{value_of, given_of, given_at};

use crate::given::Override;
use std::alloc::{AllocError, Global};
use std::collections::BTreeMap;

/// Puts an override into the table, if it is the first of its name.
fn enter<'s>(
    table: &mut BTreeMap<&'s str, Override<'s>>,
    given: Override<'s>,
) -> Result<(), AllocError>
    ensures { OnOk result ((q : List ℕ) → given_at table.new q
        ≡ first_of (given_at table.old q) (cond (same_name given.entry.name.now q) (Some (value_of given.entry)) None)) }
{
    match table.get(given.name) {
        Some(_) => Ok(()),
        None => {
            table.insert(given.name, given)?;
            Ok(())
        }
    }
}

/// The table of overrides by their names.
pub(crate) fn table_of<'s>(
    alloc: Global,
    given: &[Override<'s>],
) -> Result<BTreeMap<&'s str, Override<'s>>, AllocError>
    ensures { IfOk result (λ t. (q : List ℕ) → given_at t q ≡ given_of given.now q) }
{
    let mut table = BTreeMap::new(alloc);
    for each in given {
        enter(&mut table, *each)?;
    }
    Ok(table)
}

/// What overrides the parameter of this name, if anything does; a `localparam` is not overridden.
pub(crate) fn override_of<'s>(
    table: &BTreeMap<&'s str, Override<'s>>,
    is_local: bool,
    name: &str,
) -> Option<Override<'s>>
    ensures { option_map value_of result ≡ cond is_local None (given_at table.now name.now) }
{
    if is_local {
        None
    } else {
        table.get(name).copied()
    }
}

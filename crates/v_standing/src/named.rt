//! The modules of a source by their names: a table of the numbers that they have in it.

ghost use Rattle.std.specs.Prelude.{◌≡◌, ℕ, List, cond, Some, None, map, IfOk, OnOk};
ghost use Rattle.wb_values.specs.Value.{same_name};
ghost use Rattle.wb_values.specs.Choice.{first_of};
ghost use Rattle.v_syntax.specs.Source.{module_of};
ghost use Rattle.v_hier.specs.Tables.{under_name};
ghost use Rattle.v_standing.specs.Standing.{number_named};

use std::alloc::{AllocError, Global};
use std::collections::BTreeMap;
use v_syntax::module::Module;

/// Puts the number of a module into the table, if the module is the first of its name.
fn put<'s>(
    name: &'s str,
    number: usize,
    table: &mut BTreeMap<&'s str, usize>,
) -> Result<(), AllocError>
    ensures { OnOk result ((q : List ℕ) → under_name table.new q ≡ first_of (under_name table.old q) (cond (same_name name.now q) (Some number) None)) }
{
    match table.get(name) {
        Some(_) => Ok(()),
        None => {
            table.insert(name, number)?;
            Ok(())
        }
    }
}

/// The numbers of the modules of a source by their names, that of the first where several have one name.
pub(crate) fn numbers_by_name<'s>(
    modules: &[Module<'s>],
    alloc: Global,
) -> Result<BTreeMap<&'s str, usize>, AllocError>
    ensures { IfOk result (λ t. (q : List ℕ) → under_name t q ≡ number_named 0 (map module_of modules.now) q) }
{
    let mut table = BTreeMap::new(alloc);
    let mut number = 0;
    for each in modules {
        put(each.name, number, &mut table)?;
        number += 1;
    }
    Ok(table)
}

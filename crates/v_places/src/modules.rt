//! The modules of a source by their names: a table of the numbers that they have in it.
ghost use Rattle.std.specs.Prelude.{◌≡◌, ℕ, List, map, cond, Some, None, option_map, IfOk, OnOk};
ghost use Rattle.wb_values.specs.Value.{same_name};
ghost use Rattle.wb_values.specs.Choice.{first_of};
ghost use Rattle.v_syntax.specs.Source.{module_of};
ghost use Rattle.v_places.specs.Views.{number_in, module_in, module_at};
ghost use Rattle.v_places.specs.Whole.{Knows};

use std::alloc::{AllocError, Global};
use std::collections::BTreeMap;
use v_syntax::module::Module;

/// Puts the number of a module into the table, if the module is the first of its name.
fn enter<'s>(
    name: &'s str,
    number: usize,
    table: &mut BTreeMap<&'s str, usize>,
) -> Result<(), AllocError>
    ensures { OnOk result ((q : List ℕ) → number_in table.new q ≡ first_of (number_in table.old q) (cond (same_name name.now q) (Some number) None)) }
{
    match table.get(name) {
        Some(_) => Ok(()),
        None => {
            table.insert(name, number)?;
            Ok(())
        }
    }
}

/// The numbers of these modules by their names: that of the first where several have one.
pub(crate) fn numbers_of<'s>(
    modules: &[Module<'s>],
    alloc: Global,
) -> Result<BTreeMap<&'s str, usize>, AllocError>
    ensures { IfOk result (λ t. Knows modules.now t (map module_of modules.now)) }
{
    let mut table = BTreeMap::new(alloc);
    let mut number = 0;
    for each in modules {
        enter(each.name, number, &mut table)?;
        number += 1;
    }
    Ok(table)
}

/// The module with this number, if one has it.
fn numbered<'t, 's>(modules: &'t [Module<'s>], number: Option<&usize>) -> Option<&'t Module<'s>>
    ensures { option_map (λ m. module_of m.now) result ≡ module_at modules.now (option_map (λ k. k.now) number.entry) }
{
    match number {
        Some(number) => modules.get(*number),
        None => None,
    }
}

/// The first of the modules with this name, where the table has their numbers.
pub(crate) fn named<'t, 's>(
    modules: &'t [Module<'s>],
    numbers: &BTreeMap<&str, usize>,
    name: &str,
) -> Option<&'t Module<'s>>
    ensures { option_map (λ m. module_of m.now) result ≡ module_in modules.now numbers.now name.now }
{
    numbered(modules, numbers.get(name))
}

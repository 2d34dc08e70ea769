//! The names that a module declares as variables, other than by declarations of ports.
ghost use Rattle.std.specs.Prelude.{◌≡◌, ◌||◌, ◌∷◌, [], ℕ, Bool, Option, List, map, false, IfOk, OnOk};
ghost use Rattle.verilog_trees.specs.Syntax.{Range};
ghost use Rattle.verilog_meaning.specs.Hierarchy.{item_declarations, variable_declarations};
ghost use Rattle.verilog_registers.specs.Order.{is_variable_among};
ghost use Rattle.v_hier.specs.Tables.{has_name};
ghost use Rattle.v_syntax.specs.Source.{optional_range_of, item_of};

use std::alloc::{AllocError, Global};
use std::collections::BTreeSet;
use v_syntax::module::{Item, Variable};

/// No names.
pub(crate) fn no_names<'s>(alloc: Global) -> BTreeSet<&'s str>
    ensures { (q : List ℕ) → has_name result q ≡ false }
{
    BTreeSet::new(alloc)
}

/// Adds the names of variables.
fn add_names<'s>(
    variables: &[Variable<'s>],
    names: &mut BTreeSet<&'s str>,
) -> Result<(), AllocError>
    ensures { OnOk result ((signed : Bool) (r : Option Range) (q : List ℕ) → has_name names.new q
        ≡ (has_name names.old q || is_variable_among (variable_declarations signed r (map (λ v. (v.name.now, optional_range_of v.addresses)) variables.now)) q)) }
{
    for variable in variables {
        names.insert(variable.name)?;
    }
    Ok(())
}

/// Adds the names of variables that an item declares.
fn add_item<'s>(item: &Item<'s>, names: &mut BTreeSet<&'s str>) -> Result<(), AllocError>
    ensures { OnOk result ((q : List ℕ) → has_name names.new q ≡ (has_name names.old q || is_variable_among (item_declarations (item_of item.now ∷ [])) q)) }
{
    match item {
        Item::Variables(_, _, variables) => add_names(variables, names),
        Item::Port(_) => Ok(()),
        Item::Parameter(_) => Ok(()),
        Item::Wires(_, _, _) => Ok(()),
        Item::Assign(_) => Ok(()),
        Item::Always(_, _) => Ok(()),
        Item::Instances(_, _, _) => Ok(()),
    }
}

/// The names that items declare as variables.
pub(crate) fn variables_of<'s>(
    alloc: Global,
    items: &[Item<'s>],
) -> Result<BTreeSet<&'s str>, AllocError>
    ensures { IfOk result (λ s. (q : List ℕ) → has_name s q ≡ is_variable_among (item_declarations (map item_of items.now)) q) }
{
    let mut names = no_names(alloc);
    for item in items {
        add_item(item, &mut names)?;
    }
    Ok(names)
}

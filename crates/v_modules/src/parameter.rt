//! The names of a module's parameters.
ghost use Rattle.std.specs.Prelude.{◌≡◌, ◌||◌, ℕ, List, map, IfOk, OnOk};
ghost use Rattle.verilog_meaning.specs.Hierarchy.{all_parameters, body_parameters, value_names};
ghost use Rattle.verilog_designs.specs.Names.{is_among, parameter_names};
ghost use Rattle.v_syntax.specs.Tree.{tree_of};
ghost use Rattle.v_syntax.specs.Source.{item_of, module_of, parameter_of};
ghost use Rattle.v_hier.specs.Tables.{has_name};
ghost use Rattle.v_modules.specs.Parameters.{own_names};

use std::alloc::{AllocError, Global};
use std::collections::BTreeSet;
use v_syntax::module::{Item, Module, ParameterDeclaration, ParameterValue};

/// Adds the names of parameters.
fn add_values<'s>(
    values: &[ParameterValue<'s>],
    names: &mut BTreeSet<&'s str>,
) -> Result<(), AllocError>
    ensures { OnOk result ((q : List ℕ) → has_name names.new q ≡ (has_name names.old q || is_among (value_names (map (λ v. (v.name.now, tree_of v.value)) values.now)) q)) }
{
    for value in values {
        names.insert(value.name)?;
    }
    Ok(())
}

/// Adds the parameters of declarations.
fn add_declarations<'s>(
    declarations: &[ParameterDeclaration<'s>],
    names: &mut BTreeSet<&'s str>,
) -> Result<(), AllocError>
    ensures { OnOk result ((q : List ℕ) → has_name names.new q ≡ (has_name names.old q || is_among (parameter_names (map parameter_of declarations.now)) q)) }
{
    for declaration in declarations {
        add_values(&declaration.values, names)?;
    }
    Ok(())
}

/// Adds the parameters that an item declares.
fn add_item<'s>(item: &Item<'s>, names: &mut BTreeSet<&'s str>) -> Result<(), AllocError>
    ensures { OnOk result ((q : List ℕ) → has_name names.new q ≡ (has_name names.old q || is_among (own_names (item_of item.now)) q)) }
{
    match item {
        Item::Parameter(declaration) => {
            add_values(&declaration.values, names)?;
            Ok(())
        }
        Item::Port(_) => Ok(()),
        Item::Wires(_, _, _) => Ok(()),
        Item::Variables(_, _, _) => Ok(()),
        Item::Assign(_) => Ok(()),
        Item::Always(_, _) => Ok(()),
        Item::Instances(_, _, _) => Ok(()),
    }
}

/// Adds the parameters that items declare.
fn add_items<'s>(items: &[Item<'s>], names: &mut BTreeSet<&'s str>) -> Result<(), AllocError>
    ensures { OnOk result ((q : List ℕ) → has_name names.new q ≡ (has_name names.old q || is_among (parameter_names (body_parameters (map item_of items.now))) q)) }
{
    for item in items {
        add_item(item, names)?;
    }
    Ok(())
}

/// The names of a module's parameters.
pub(crate) fn parameter_set<'s>(
    alloc: Global,
    within: &Module<'s>,
) -> Result<BTreeSet<&'s str>, AllocError>
    ensures { IfOk result (λ s. (q : List ℕ) → has_name s q ≡ is_among (parameter_names (all_parameters (module_of within.now))) q) }
{
    let mut names = BTreeSet::new(alloc);
    add_declarations(&within.parameters, &mut names)?;
    add_items(&within.items, &mut names)?;
    Ok(names)
}

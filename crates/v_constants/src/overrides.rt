//! What overrides the parameters of an instance, by the expressions that its text gives them.
ghost use Rattle.std.specs.Prelude.{◌≡◌, ◌++◌, ◌∷◌, ℕ, List, [], map, false, None, cond, option_map, IfOk, OnOk};
ghost use Rattle.wb_values.specs.Value.{Name};
ghost use Rattle.verilog_trees.specs.Syntax as pure;
ghost use Rattle.verilog_meaning.specs.Hierarchy.{value_names, overridable, body_parameters, all_parameters};
ghost use Rattle.verilog_designs.specs.Known.{KnownOverrides, known_parameter, known_module_scope, known_overrides};
ghost use Rattle.v_syntax.specs.Tree.{tree_of};
ghost use Rattle.v_syntax.specs.Source.{optional_tree_of, connections_of, parameter_of, item_of, module_of};
ghost use Rattle.v_value.specs.Scope.{objects_of, scope_at};
ghost use Rattle.v_constants.specs.Given.{value_of, given_of, has_name, IsGathered, before, gives, named_given, ordered_given};

use crate::given::Override;
use crate::value::parameter;
use std::alloc::{AllocError, Global};
use std::collections::BTreeSet;
use v_scopes::{Bounds, Constants};
use v_size::Names;
use v_syntax::module::{
    Connections, Item, Module, NamedConnection, ParameterDeclaration, ParameterValue,
};
use v_syntax::tree::Expression;

/// What an expression overrides a parameter with.
fn override_by<'s>(value: &Expression<'_>, around: Constants<'_, '_>, name: &'s str) -> Override<'s>
    ensures name { result.name ≡ name.entry }
    ensures value { value_of result ≡ known_parameter (scope_at around.entry.scope.now) false None (tree_of value.now) }
{
    let names = Names {
        scope: around.scope,
    };
    Override {
        name,
        value: parameter(value, names, false, Bounds::Absent),
    }
}

/// Adds what an expression gives, unless the name has been met.
fn add<'s>(
    value: &Option<Expression<'_>>,
    around: Constants<'_, '_>,
    name: &'s str,
    met: &mut BTreeSet<&'s str>,
    list: &mut Vec<Override<'s>>,
) -> Result<(), AllocError>
    ensures { OnOk result ((rest all : KnownOverrides) → IsGathered (has_name met.old) list.old.items (before name.now (gives (scope_at around.entry.scope.now) (optional_tree_of value.now)) rest) all
        → IsGathered (has_name met.new) list.new.items rest all) }
{
    if met.contains(name) {
        return Ok(());
    }
    met.insert(name)?;
    match value {
        Some(value) => {
            list.push(override_by(value, around, name))?;
            Ok(())
        }
        None => Ok(()),
    }
}

/// What connections by name give.
fn by_name<'s>(
    connections: &[NamedConnection<'s>],
    alloc: Global,
    around: Constants<'_, '_>,
) -> Result<Vec<Override<'s>>, AllocError>
    ensures { IfOk result (λ v. (n : Name) → given_of v.items n ≡ named_given (scope_at around.entry.scope.now) (map (λ c. (c.name.now, optional_tree_of c.value)) connections.now) n) }
{
    let mut met = BTreeSet::new(alloc);
    let mut list = Vec::new(alloc);
    for each in connections {
        add(&each.value, around, each.name, &mut met, &mut list)?;
    }
    Ok(list)
}

/// What connections by order give these names.
fn by_order<'s>(
    values: &[Option<Expression<'_>>],
    names: &[&'s str],
    alloc: Global,
    around: Constants<'_, '_>,
) -> Result<Vec<Override<'s>>, AllocError>
    ensures { IfOk result (λ v. (n : Name) → given_of v.items n ≡ ordered_given (scope_at around.entry.scope.now) (map optional_tree_of values.now) (map (λ m. m.now) names.now) n) }
{
    let mut met = BTreeSet::new(alloc);
    let mut list = Vec::new(alloc);
    for i in 0..values.len().min(names.len()) {
        add(&values[i], around, names[i], &mut met, &mut list)?;
    }
    Ok(list)
}

/// Adds the names of parameters.
fn add_names<'s>(values: &[ParameterValue<'s>], list: &mut Vec<&'s str>) -> Result<(), AllocError>
    ensures { OnOk result (map (λ n. n.now) list.new.items ≡ map (λ n. n.now) list.old.items ++ value_names (map (λ v. (v.name.now, tree_of v.value)) values.now)) }
{
    for value in values {
        list.push(value.name)?;
    }
    Ok(())
}

/// Adds the names of a declaration's parameters, unless it is a `localparam`.
fn add_declaration<'s>(
    declaration: &ParameterDeclaration<'s>,
    list: &mut Vec<&'s str>,
) -> Result<(), AllocError>
    ensures { OnOk result (map (λ n. n.now) list.new.items ≡ map (λ n. n.now) list.old.items ++ cond (parameter_of declaration.now).is_local [] (value_names (parameter_of declaration.now).values)) }
{
    if declaration.is_local {
        return Ok(());
    }
    add_names(&declaration.values, list)?;
    Ok(())
}

/// Adds the names of declarations of parameters.
fn add_header<'s>(
    declarations: &[ParameterDeclaration<'s>],
    list: &mut Vec<&'s str>,
) -> Result<(), AllocError>
    ensures { OnOk result (map (λ n. n.now) list.new.items ≡ map (λ n. n.now) list.old.items ++ overridable (map parameter_of declarations.now)) }
{
    for declaration in declarations {
        add_declaration(declaration, list)?;
    }
    Ok(())
}

/// Adds the names of the parameters that an item declares.
fn add_item<'s>(item: &Item<'s>, list: &mut Vec<&'s str>) -> Result<(), AllocError>
    ensures { OnOk result ((rest : List pure.Item) → map (λ n. n.now) list.old.items ++ overridable (body_parameters (item_of item.now ∷ rest))
        ≡ map (λ n. n.now) list.new.items ++ overridable (body_parameters rest)) }
{
    match item {
        Item::Parameter(declaration) => {
            add_declaration(declaration, list)?;
            Ok(())
        }
        Item::Port(_) => Ok(()),
        Item::Wires(_, _, _) => Ok(()),
        Item::Variables(_, _, _) => Ok(()),
        Item::Assign(_) => Ok(()),
        Item::Always(_, _) => Ok(()),
        Item::Instances(_, _, _) => Ok(()),
    }
}

/// Adds the names of the parameters that items declare.
fn add_items<'s>(items: &[Item<'s>], list: &mut Vec<&'s str>) -> Result<(), AllocError>
    ensures { OnOk result (map (λ n. n.now) list.new.items ≡ map (λ n. n.now) list.old.items ++ overridable (body_parameters (map item_of items.now))) }
{
    for item in items {
        add_item(item, list)?;
    }
    Ok(())
}

/// The parameters of a module that can be overridden, in their order.
fn overridable_names<'s>(below: &Module<'s>, alloc: Global) -> Result<Vec<&'s str>, AllocError>
    ensures { IfOk result (λ v. map (λ n. n.now) v.items ≡ overridable (all_parameters (module_of below.now))) }
{
    let mut list = Vec::new(alloc);
    add_header(&below.parameters, &mut list)?;
    add_items(&below.items, &mut list)?;
    Ok(list)
}

/// What connections by order give the parameters of a module.
fn ordered<'s>(
    values: &[Option<Expression<'s>>],
    below: &Module<'s>,
    alloc: Global,
    around: Constants<'_, '_>,
) -> Result<Vec<Override<'s>>, AllocError>
    ensures { IfOk result (λ v. (n : Name) → given_of v.items n ≡ ordered_given (scope_at around.entry.scope.now) (map optional_tree_of values.now) (overridable (all_parameters (module_of below.now))) n) }
{
    let names = overridable_names(below, alloc)?;
    let list = by_order(values, &names, alloc, around)?;
    Ok(list)
}

/// What overrides the parameters of an instance of the module `below`, where those of the module around have these values. The expressions
/// are constants, so it is the same whatever the module around declares besides.
pub fn overrides_of<'s>(
    alloc: Global,
    given: &Connections<'s>,
    below: &Module<'s>,
    around: Constants<'_, '_>,
) -> Result<Vec<Override<'s>>, AllocError>
    ensures { IfOk result (λ v. (m : pure.Module) (n : Name) → given_of v.items n ≡ known_overrides (known_module_scope m (objects_of around.entry.scope.now.declarations.items)) (connections_of given.now) (module_of below.now) n) }
{
    match given {
        Connections::ByName(connections) => {
            let list = by_name(connections, alloc, around)?;
            Ok(list)
        }
        Connections::ByOrder(values) => {
            let list = ordered(values, below, alloc, around)?;
            Ok(list)
        }
    }
}

//! Whether a clock stands in a module otherwise than as an event.
ghost use Rattle.std.specs.Prelude.{◌≡◌, ℕ, List, false, not, map};
ghost use Rattle.std.specs.List.{list_any};
ghost use Rattle.verilog_designs.specs.Clocks.{names_in_module};
ghost use Rattle.v_syntax.specs.Tree.{tree_of};
ghost use Rattle.v_syntax.specs.Source.{boxed_tree_of, item_of, module_of, parameter_of};
ghost use Rattle.v_hier.specs.Tables.{has_name};
ghost use Rattle.v_hier.specs.Reading.{knows};
ghost use Rattle.v_hier.specs.Clock.{values_known, parameter_known, parameters_known, wire_known, wires_known, item_names_known, items_names_known, module_names_known};

use crate::expression::is_expression_known;
use crate::item::{
    are_assignments_known, are_connections_known, are_ports_known, are_variables_known,
    is_range_known,
};
use crate::known::{Names, Nets, both, is_known};
use crate::statement::is_statement_known;
use std::alloc::Global;
use std::collections::BTreeSet;
use v_syntax::module::{Item, Module, ParameterDeclaration, ParameterValue, Wire};

/// No names.
fn no_names<'t>(alloc: Global) -> BTreeSet<&'t str>
    ensures { (q : List ℕ) → has_name result q ≡ false }
{
    BTreeSet::new(alloc)
}

/// All names but these.
fn but<'n, 't>(alloc: Global, names: &'n BTreeSet<&'t str>) -> Names<'n, 't>
    ensures { (q : List ℕ) → knows result q ≡ not (has_name names.now q) }
{
    let parameters = no_names(alloc);
    let before = no_names(alloc);
    Names {
        parameters,
        nets: Nets::Other(names),
        before,
    }
}

/// Whether each name in parameters' values may stand there.
fn are_values_known(values: &[ParameterValue<'_>], names: &Names<'_, '_>) -> bool
    ensures { result ≡ values_known (knows names.now) (map (λ v. (v.name.now, tree_of v.value)) values.now) }
{
    for value in values {
        if !is_expression_known(&value.value, names) {
            return false;
        }
    }
    true
}

/// Whether each name in a declaration of parameters may stand there.
fn is_parameter_known(parameter: &ParameterDeclaration<'_>, names: &Names<'_, '_>) -> bool
    ensures { result ≡ parameter_known (knows names.now) (parameter_of parameter.now) }
{
    both(
        is_range_known(&parameter.range, names),
        are_values_known(&parameter.values, names),
    )
}

/// Whether each name in declarations of parameters may stand there.
fn are_parameters_known(parameters: &[ParameterDeclaration<'_>], names: &Names<'_, '_>) -> bool
    ensures { result ≡ parameters_known (knows names.now) (map parameter_of parameters.now) }
{
    for parameter in parameters {
        if !is_parameter_known(parameter, names) {
            return false;
        }
    }
    true
}

/// Whether the name and the value of a net may stand there, where it has a value.
fn is_wire_known(wire: &Wire<'_>, names: &Names<'_, '_>) -> bool
    ensures { result ≡ wire_known (knows names.now) wire.now.name.now (boxed_tree_of wire.now.value) }
{
    match &wire.value {
        Some(expression) => both(
            is_known(names, wire.name),
            is_expression_known(expression, names),
        ),
        None => true,
    }
}

/// Whether the names and the values of nets that have values may stand there.
fn are_wires_known(wires: &[Wire<'_>], names: &Names<'_, '_>) -> bool
    ensures { result ≡ wires_known (knows names.now) (map (λ w. (w.name.now, boxed_tree_of w.value)) wires.now) }
{
    for wire in wires {
        if !is_wire_known(wire, names) {
            return false;
        }
    }
    true
}

/// Whether each name in an item, but for events and what is connected to ports, may stand there.
fn is_item_known(item: &Item<'_>, names: &Names<'_, '_>) -> bool
    ensures { result ≡ item_names_known (knows names.now) (item_of item.now) }
{
    match item {
        Item::Port(port) => is_range_known(&port.range, names),
        Item::Parameter(parameter) => is_parameter_known(parameter, names),
        Item::Wires(_, range, wires) => both(
            is_range_known(range, names),
            are_wires_known(wires, names),
        ),
        Item::Variables(_, range, variables) => both(
            is_range_known(range, names),
            are_variables_known(variables, names),
        ),
        Item::Assign(assignments) => are_assignments_known(assignments, names),
        Item::Always(_, statement) => is_statement_known(statement, names),
        Item::Instances(_, given, _) => are_connections_known(given, names),
    }
}

/// The same of items.
fn are_items_known(items: &[Item<'_>], names: &Names<'_, '_>) -> bool
    ensures { result ≡ items_names_known (knows names.now) (map item_of items.now) }
{
    for item in items {
        if !is_item_known(item, names) {
            return false;
        }
    }
    true
}

/// The same of a module.
fn is_module_known(within: &Module<'_>, names: &Names<'_, '_>) -> bool
    ensures { result ≡ module_names_known (knows names.now) (module_of within.now) }
{
    both(
        are_parameters_known(&within.parameters, names),
        both(
            are_ports_known(&within.ports, names),
            are_items_known(&within.items, names),
        ),
    )
}

/// Whether a clock net of the module stands in it otherwise than as an event, or in what is connected to a port (where it may stand as
/// a whole).
pub fn has_clock_as_data(alloc: Global, within: &Module<'_>, clocks: &BTreeSet<&str>) -> bool
    ensures { result ≡ list_any (has_name clocks.now) (names_in_module (module_of within.now)) }
{
    let names = but(alloc, clocks);
    !is_module_known(within, &names)
}

//! The rules that a module breaks where its parameters have such values.
ghost use Rattle.std.specs.Prelude.{◌≡◌, map, IfOk};
ghost use Rattle.verilog_trees.specs.Syntax.{Source};
ghost use Rattle.verilog_meaning.specs.Expression.{scope_of};
ghost use Rattle.verilog_meaning.specs.Hierarchy.{Placed, all_parameters};
ghost use Rattle.verilog_designs.specs.Names.{is_among, parameter_names};
ghost use Rattle.verilog_designs.specs.Expressions.{broken_module};
ghost use Rattle.v_syntax.specs.Source.{item_of, module_of};
ghost use Rattle.v_value.specs.Scope.{objects_of, scope_at};
ghost use Rattle.v_scopes.specs.Rows.{rows_of};
ghost use Rattle.v_size.specs.Rule.{coded};
ghost use Rattle.v_rules.specs.Judging.{none};
ghost use Rattle.v_rules.specs.Items.{module_items_from};
ghost use Rattle.v_instances.specs.Interface.{AreInterfacesOf};
ghost use Rattle.v_instances.specs.Rules.{broken_instance_items};
ghost use Rattle.v_modules.specs.Combined.{text, combined, narrow_objects, net_objects};
ghost use Rattle.v_modules.specs.Kinds.{kinds};

use crate::name::{broken_names, has_other};
use crate::parameter::parameter_set;
use crate::scope::{narrow_scope, net_scope};
use std::alloc::{AllocError, Global};
use v_instances::interface::Interfaces;
use v_instances::laws::rules_of_module;
use v_instances::{instances_rules, parameters_rules};
use v_rules::{items_rules, ports_rules};
use v_scopes::{Constants, Declared, declared_scope, placed_scope};
use v_size::{Broken, Names, also, constant_if};
use v_syntax::module::{Item, Module};
use v_value::scope::Scope;

/// The rules that items break which are no parameters and no instances. (What borrows from trees stands first among the parameters, and
/// is turned round here alone: that costs the proof a quarter of a minute each time.)
fn broken_items(items: &[Item<'_>], names: Names<'_, '_>) -> Broken
    ensures { result ≡ module_items_from (scope_at names.entry.scope.now) none (map item_of items.now) }
{
    items_rules(items, names)
}

/// The rules that instances among items break.
fn broken_instances(items: &[Item<'_>], names: Names<'_, '_>, interfaces: &Interfaces<'_>) -> Broken
    ensures { (source : Source) → AreInterfacesOf interfaces.now source
        → result ≡ coded (broken_instance_items source (scope_at names.entry.scope.now) (map item_of items.now)) }
{
    instances_rules(items, names, interfaces)
}

/// The rules that the ports, the parameters and the items of a module break.
fn broken_text(within: &Module<'_>, names: Names<'_, '_>, interfaces: &Interfaces<'_>) -> Broken
    ensures { (source : Source) → AreInterfacesOf interfaces.now source → result ≡ coded (text source (scope_at names.entry.scope.now) (module_of within.now)) }
{
    let items = broken_items(&within.items, names);
    let parts = broken_instances(&within.items, names, interfaces);
    let parameters = parameters_rules(within, names);
    rules_of_module();
    also(
        ports_rules(&within.ports, names),
        also(items, also(parameters, parts)),
    )
}

/// The same, where each name has at most 128 bits.
fn broken_narrow<'s>(
    alloc: Global,
    within: &Module<'_>,
    constants: Constants<'_, 's>,
    interfaces: &Interfaces<'_>,
    names: &Scope<'s>,
    declared: &[Declared<'s>],
) -> Result<Broken, AllocError>
    ensures { IfOk result (λ b. (source : Source) → AreInterfacesOf interfaces.now source
        → b ≡ coded (text source (scope_of (narrow_objects (objects_of constants.entry.scope.now.declarations.items) (scope_at names.now) (rows_of declared.now))) (module_of within.now))) }
{
    let scope = narrow_scope(alloc, constants.scope, names, declared)?;
    let narrow = Names { scope: &scope };
    let text = broken_text(within, narrow, interfaces);
    Ok(text)
}

/// The same, where besides each net is declared, also one whose range has no value.
fn broken_nets<'s>(
    alloc: Global,
    within: &Module<'_>,
    constants: Constants<'_, 's>,
    interfaces: &Interfaces<'_>,
    names: &Scope<'s>,
    declared: &[Declared<'s>],
) -> Result<Broken, AllocError>
    ensures { IfOk result (λ b. (source : Source) → AreInterfacesOf interfaces.now source
        → b ≡ coded (text source (scope_of (net_objects (is_among (parameter_names (all_parameters (module_of within.now))))
        (objects_of constants.entry.scope.now.declarations.items) (scope_at names.now) (rows_of declared.now))) (module_of within.now))) }
{
    let parameters = parameter_set(alloc, within)?;
    let scope = net_scope(alloc, constants.scope, names, declared, &parameters)?;
    let narrow = Names { scope: &scope };
    let text = broken_text(within, narrow, interfaces);
    Ok(text)
}

/// The kinds that declared names and the text break together, where `net` says whether a net stands where a constant must.
fn combined(declared: Broken, text: Broken, net: bool) -> Broken
    ensures { result ≡ combined declared text net }
{
    let all = also(constant_if(net), also(text, declared));
    Broken {
        misshapen: false,
        ..all
    }
}

/// All rules on expressions, targets, statements, declarations and connections that a module breaks whose parameters have the values of
/// the constants, each judged by itself. A parameter that is not among them has no value. `misshapen`, which is no kind, is false. Which
/// of the rules is answered first is told by `first_rule`.
pub fn module_rule<'s>(
    alloc: Global,
    within: &Module<'s>,
    constants: Constants<'_, 's>,
    interfaces: &Interfaces<'_>,
) -> Result<Broken, AllocError>
    ensures { IfOk result (λ b. (source : Source) (p : Placed) → AreInterfacesOf interfaces.now source → p.of_module ≡ module_of within.now
        → p.constants ≡ objects_of constants.entry.scope.now.declarations.items → b ≡ coded (kinds (broken_module source p))) }
{
    let rows = declared_scope(alloc, within, constants)?;
    let names = placed_scope(alloc, &rows, constants.scope)?;
    let declared = broken_names(&names, rows.declarations());
    let text = broken_narrow(
        alloc,
        within,
        constants,
        interfaces,
        &names,
        rows.declarations(),
    )?;
    if !has_other(&names, rows.declarations()) {
        return Ok(combined(declared, text, false));
    }
    let other = broken_nets(
        alloc,
        within,
        constants,
        interfaces,
        &names,
        rows.declarations(),
    )?;
    Ok(combined(declared, text, other.bad_constant))
}

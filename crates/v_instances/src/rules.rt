//! The rules that the instances and the parameters of a module break, in the scope of the module.
ghost use Rattle.std.specs.Prelude.{◌≡◌, map};
ghost use Rattle.verilog_trees.specs.Syntax.{Source};
ghost use Rattle.verilog_meaning.specs.Hierarchy.{all_parameters};
ghost use Rattle.verilog_designs.specs.Expressions.{broken_header};
ghost use Rattle.v_value.specs.Scope.{scope_at};
ghost use Rattle.v_syntax.specs.Source.{item_of, module_of};
ghost use Rattle.v_size.specs.Rule.{coded};
ghost use Rattle.v_instances.specs.Interface.{AreInterfacesOf};
ghost use Rattle.v_instances.specs.Rules.{broken_instance_items};

use crate::connection::broken_by_instances;
use crate::interface::Interfaces;
use crate::parameter::{broken_by_parameters, broken_declarations};
use v_size::{Broken, Names, also};
use v_syntax::module::{Item, Module};

/// All rules that the instances among items break: the values that override parameters, and what is connected to ports. Other items
/// say nothing.
pub fn instances_rules(
    items: &[Item<'_>],
    names: Names<'_, '_>,
    interfaces: &Interfaces<'_>,
) -> Broken
    ensures { (source : Source) → AreInterfacesOf interfaces.now source
        → result ≡ coded (broken_instance_items source (scope_at names.entry.scope.now) (map item_of items.now)) }
{
    broken_by_instances(items, names, interfaces)
}

/// All rules that the declarations of parameters in the header and among the items of a module break.
pub fn parameters_rules(within: &Module<'_>, names: Names<'_, '_>) -> Broken
    ensures { result ≡ coded (broken_header (scope_at names.entry.scope.now) (all_parameters (module_of within.now))) }
{
    also(
        broken_declarations(&within.parameters, names),
        broken_by_parameters(&within.items, names),
    )
}

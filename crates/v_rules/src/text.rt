//! The rules that the ports and the items of a module break, in the scope of the module.
ghost use Rattle.std.specs.Prelude.{◌≡◌, false, map};
ghost use Rattle.std.specs.List.{list_any};
ghost use Rattle.verilog_trees.specs.Syntax.{Source};
ghost use Rattle.verilog_meaning.specs.Hierarchy.{header_ports};
ghost use Rattle.verilog_designs.specs.Expressions.{broken_ports, broken_module_items};
ghost use Rattle.v_hier.specs.Instances.{is_part};
ghost use Rattle.v_value.specs.Scope.{scope_at};
ghost use Rattle.v_syntax.specs.Source.{ports_of, item_of};
ghost use Rattle.v_size.specs.Rule.{coded};
ghost use Rattle.v_rules.specs.Judging.{none};
ghost use Rattle.v_rules.specs.Items.{module_items_from};

use crate::item::{broken_header, broken_items};
use v_size::{Broken, Names};
use v_syntax::module::{Item, Ports};

/// All rules that the declarations in a list of ports break.
pub fn ports_rules(ports: &Ports<'_>, names: Names<'_, '_>) -> Broken
    ensures { result ≡ coded (broken_ports (scope_at names.entry.scope.now) (header_ports (ports_of ports.now))) }
{
    broken_header(ports, names)
}

/// All rules that items break which are no parameters and no instances. Of parameters and instances nothing is said.
pub fn items_rules(items: &[Item<'_>], names: Names<'_, '_>) -> Broken
    ensures plain { result ≡ module_items_from (scope_at names.entry.scope.now) none (map item_of items.now) }
    ensures alone { (source : Source) → list_any is_part (map item_of items.now) ≡ false
        → result ≡ coded (broken_module_items source (scope_at names.entry.scope.now) (map item_of items.now)) }
{
    broken_items(items, names)
}

//! Whether one of some dotted names is that of a clock net.

ghost use Rattle.std.specs.Prelude.{◌≡◌, ◌↔◌, List, map, IsTrue};
ghost use Rattle.std.specs.List.{list_any};
ghost use Rattle.verilog_trees.specs.Syntax.{Expression};
ghost use Rattle.verilog_meaning.specs.Settled.{Design};
ghost use Rattle.verilog_designs.specs.Names.{names_in};
ghost use Rattle.map_rules.specs.Expressions.{NamesClock};
ghost use Rattle.v_places.specs.Below.{Spot};
ghost use Rattle.v_clocks.specs.Views.{sets_of};
ghost use Rattle.map_paths.specs.Tables.{numbers_in};
ghost use Rattle.map_clocks.specs.Clocked.{HasClockNets, is_clock_named, is_net_in};

use map_paths::Instances;
use std::collections::BTreeSet;

/// Whether the name is one of the clock nets of the module with a number.
fn is_net(nets: &[BTreeSet<&str>], number: usize, name: &str) -> bool
    ensures { result ≡ is_net_in (sets_of nets.now) number name.now }
{
    match nets.get(number) {
        Some(own) => own.contains(name),
        None => false,
    }
}

/// Whether a dotted name leads to a clock net.
fn is_clock(instances: &Instances<'_>, nets: &[BTreeSet<&str>], name: &str) -> bool
    ensures { result ≡ is_clock_named (numbers_in instances.now) (sets_of nets.now) name.now }
{
    match instances.locate(name) {
        Some(found) => is_net(nets, found.0, found.1),
        None => false,
    }
}

/// Whether one of the names leads to a clock net.
fn any_clock(instances: &Instances<'_>, nets: &[BTreeSet<&str>], names: &[&str]) -> bool
    ensures { result ≡ list_any (is_clock_named (numbers_in instances.now) (sets_of nets.now)) (map (λ n. n.now) names.now) }
{
    for name in names {
        if is_clock(instances, nets, name) {
            return true;
        }
    }
    false
}

/// Whether an expression with these names names a clock of the design, of the top or below it, where these are the instances and the clock
/// nets of its modules.
pub fn names_clock(instances: &Instances<'_>, nets: &[BTreeSet<&str>], names: &[&str]) -> bool
    ensures told { result ≡ list_any (is_clock_named (numbers_in instances.now) (sets_of nets.now)) (map (λ n. n.now) names.now) }
    ensures clock { (d : Design) (spots : List Spot) (e : Expression) → HasClockNets d spots (numbers_in instances.now) (sets_of nets.now)
        → map (λ n. n.now) names.now ≡ names_in e → IsTrue result ↔ NamesClock d e }
{
    any_clock(instances, nets, names)
}

//! Whether a name is that of a reset.

ghost use Rattle.std.specs.Prelude.{◌≡◌, ◌==◌, ◌&&◌, not, option_map, IfOk};
ghost use Rattle.wb_values.specs.Value.{same_name};
ghost use Rattle.verilog_trees.specs.Syntax as pure;
ghost use Rattle.verilog_meaning.specs.Expression.{object_width};
ghost use Rattle.verilog_meaning.specs.Settled.{Design};
ghost use Rattle.verilog_designs.specs.Accepted.{is_input_port};
ghost use Rattle.verilog_designs.specs.Ports.{is_input};
ghost use Rattle.map_rules.specs.Expressions.{is_reset};
ghost use Rattle.v_syntax.specs.Source.{direction_of, module_of};
ghost use Rattle.v_value.specs.Scope.{object_of};
ghost use Rattle.v_instances.specs.Interface.{direction_in};
ghost use Rattle.v_places.specs.Views.{spot_of, spots_of};
ghost use Rattle.map_judged.specs.Known.{StandsAt};
ghost use Rattle.map_judged.specs.Resets.{is_one_bit_input_there};

use flat_rules::laws::sound_modules_are_known;
use map_scope::scope_of;
use std::alloc::{AllocError, Global};
use v_instances::interface::{Interface, interface_of};
use v_places::Place;
use v_syntax::module::{Direction, Module};
use v_value::scope::Object;

/// Whether both hold.
fn both(one: bool, other: bool) -> bool
    ensures { result ≡ (one && other) }
{
    one && other
}

/// Whether two names differ.
fn differ(one: &str, other: &str) -> bool
    ensures { result ≡ not (same_name one.now other.now) }
{
    one != other
}

/// Whether this is the direction of an input.
fn is_input(direction: Option<Direction>) -> bool
    ensures { result ≡ is_input (option_map direction_of direction) }
{
    matches!(direction, Some(Direction::Input))
}

/// The direction of a port.
fn direction_under(interface: &Interface<'_>, port: &str) -> Option<Direction>
    ensures { option_map direction_of result ≡ direction_in interface.now.directions port.now }
{
    interface.directions.get(port).copied()
}

/// Whether the module has an input port of this name.
fn is_input_port(alloc: Global, within: &Module<'_>, name: &str) -> Result<bool, AllocError>
    ensures { IfOk result (λ b. b ≡ is_input_port (module_of within.now) name.now) }
{
    let interface = interface_of(alloc, within)?;
    let listed = interface.ports.set.contains(name);
    let input = is_input(direction_under(&interface, name));
    Ok(both(listed, input))
}

/// Whether an object has one bit.
fn is_one_bit(object: Object) -> bool
    ensures { result ≡ (object_width (object_of object) == 1) }
{
    object.left == object.right
}

/// Whether the module at a place has an input port of this name and of one bit.
fn is_one_bit_input<'t>(
    alloc: Global,
    place: &'t Place<'t, '_>,
    name: &str,
) -> Result<bool, AllocError>
    ensures { IfOk result (λ b. b ≡ is_one_bit_input_there (spot_of place.now) name.now) }
{
    let input = is_input_port(alloc, place.within, name)?;
    if !input {
        return Ok(false);
    }
    let scope = scope_of(alloc, place)?;
    Ok(is_one_bit(scope.object(name)))
}

/// Whether a name is that of an input port of the top of one bit, and not that of the clock, in an accepted design with this clock, whose
/// modules stand at these places.
pub fn is_reset<'t>(
    alloc: Global,
    places: &'t [Place<'t, '_>],
    clock: &str,
    name: &str,
) -> Result<bool, AllocError>
    ensures { IfOk result (λ b. (d : Design) → StandsAt d (spots_of places.now) → d.clock ≡ clock.now → b ≡ is_reset d name.now) }
{
    sound_modules_are_known();
    match places.get(0) {
        Some(top) => {
            let input = is_one_bit_input(alloc, top, name)?;
            Ok(both(input, differ(name, clock)))
        }
        None => Ok(false),
    }
}

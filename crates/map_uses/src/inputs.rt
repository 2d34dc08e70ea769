//! The inputs of a design's top.

ghost use Rattle.std.specs.Prelude.{◌≡◌, Some, map, option_map, slice_get, IfOk};
ghost use Rattle.wb_values.specs.Value.{entry_of};
ghost use Rattle.verilog_trees.specs.Syntax as pure;
ghost use Rattle.verilog_meaning.specs.Settled.{port_directions};
ghost use Rattle.verilog_designs.specs.Ports.{is_input};
ghost use Rattle.v_syntax.specs.Source.{direction_of};
ghost use Rattle.v_instances.specs.Texts.{texts};
ghost use Rattle.v_instances.specs.Interface.{direction_in, IsInterfaceOf};
ghost use Rattle.v_places.specs.Below.{Spot};
ghost use Rattle.v_places.specs.Views.{spot_of, spots_of};
ghost use Rattle.v_flat.specs.Entries.{SpotNames};
ghost use Rattle.v_flat.specs.Views.{entry_in, names_in};
ghost use Rattle.map_uses.specs.Table.{inputs_of};

use std::alloc::{AllocError, Global};
use v_flat::{Dotted, PlaceNames};
use v_instances::interface::{Interface, interface_of};
use v_places::Place;
use v_syntax::module::Direction;

/// Whether this is the direction of an input.
fn is_input(direction: Option<Direction>) -> bool
    ensures { result ≡ is_input (option_map direction_of direction) }
{
    matches!(direction, Some(Direction::Input))
}

/// The direction of a port.
fn direction_under(interface: &Interface<'_>, port: &str) -> Option<Direction>
    ensures { option_map direction_of result ≡ direction_in interface.now.directions port.now }
{
    interface.directions.get(port).copied()
}

/// Whether a name is that of an input port.
fn is_input_port(interface: &Interface<'_>, name: &str) -> bool
    ensures { (m : pure.Module) → IsInterfaceOf interface.now m → result ≡ is_input (entry_of (port_directions m) name.now) }
{
    is_input(direction_under(interface, name))
}

/// Those of these names that are input ports.
fn inputs_among<'a>(
    alloc: Global,
    names: &[Dotted<'a>],
    interface: &Interface<'_>,
) -> Result<Vec<&'a str>, AllocError>
    ensures { IfOk result (λ v. (m : pure.Module) → IsInterfaceOf interface.now m → texts v.items ≡ inputs_of m (map entry_in names.now)) }
{
    let mut found = Vec::new(alloc);
    for each in names {
        if is_input_port(interface, each.name) {
            found.push(each.name)?;
        }
    }
    Ok(found)
}

/// Those of the names of the module at a place that are its input ports.
fn inputs_at<'t, 'a>(
    top: &'t Place<'t, '_>,
    names: &PlaceNames<'a>,
    alloc: Global,
) -> Result<Vec<&'a str>, AllocError>
    ensures { IfOk result (λ v. texts v.items ≡ inputs_of (spot_of top.now).of_module (names_in names.now).entries) }
{
    let interface = interface_of(alloc, top.within)?;
    let found = inputs_among(alloc, &names.names, &interface)?;
    Ok(found)
}

/// The input ports of the first of the modules at these places, which have these names.
pub(crate) fn top_inputs<'t, 'a>(
    places: &'t [Place<'t, '_>],
    names: &[PlaceNames<'a>],
    alloc: Global,
) -> Result<Vec<&'a str>, AllocError>
    ensures { IfOk result (λ v. (x : Spot) (z : SpotNames) → slice_get (spots_of places.now) 0 ≡ Some x → slice_get (map names_in names.now) 0 ≡ Some z
        → texts v.items ≡ inputs_of x.of_module z.entries) }
{
    match places.get(0) {
        Some(top) => match names.get(0) {
            Some(own) => inputs_at(top, own, alloc),
            None => Ok(Vec::new(alloc)),
        },
        None => Ok(Vec::new(alloc)),
    }
}

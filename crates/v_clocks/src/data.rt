//! Whether a clock net stands in a design as data.
ghost use Rattle.std.specs.Prelude.{◌≡◌, ◌||◌, ◌↔◌, length, IsTrue, IfOk};
ghost use Rattle.std.specs.List.{list_any};
ghost use Rattle.verilog_trees.specs.Syntax as pure;
ghost use Rattle.verilog_meaning.specs.Settled.{Design};
ghost use Rattle.verilog_designs.specs.Clocks.{HasClockAsData, names_in_module};
ghost use Rattle.v_syntax.specs.Source.{module_of};
ghost use Rattle.v_instances.specs.Interface.{AreInterfacesOf};
ghost use Rattle.v_places.specs.Views.{spot_of, spots_of};
ghost use Rattle.v_clocks.specs.Uses.{spot_uses};
ghost use Rattle.v_clocks.specs.Nets.{nets_at};
ghost use Rattle.v_clocks.specs.Data.{is_data, has_data_at, has_data};
ghost use Rattle.v_clocks.specs.Whole.{AreKnownPlaces, AreFirst, AreClockNets, IsFirstOf};
ghost use Rattle.v_clocks.specs.Views.{uses_in, sets_of};

use crate::nets::uses_at;
use crate::uses::Use;
use std::alloc::{AllocError, Global};
use std::collections::BTreeSet;
use v_hier::has_clock_as_data as stands_in_module;
use v_instances::interface::Interfaces;
use v_places::Place;
use v_syntax::module::Module;

/// Whether some use is as data.
fn some_data(uses: &[Use<'_>]) -> bool
    ensures { result ≡ list_any is_data (uses_in uses.now) }
{
    for each in uses {
        if matches!(each, Use::AsData) {
            return true;
        }
    }
    false
}

/// Whether a clock net stands as data in the module with this number.
fn in_module(alloc: Global, within: &Module<'_>, nets: &[BTreeSet<&str>], number: usize) -> bool
    ensures { result ≡ list_any (nets_at (sets_of nets.now) number) (names_in_module (module_of within.now)) }
{
    match nets.get(number) {
        Some(clocks) => stands_in_module(alloc, within, clocks),
        None => false,
    }
}

/// Whether one stands as data in what is connected to the instance of a place.
fn in_connections<'t, 's>(
    alloc: Global,
    place: &'t Place<'t, 's>,
    nets: &[BTreeSet<&str>],
    interfaces: &Interfaces<'s>,
) -> Result<bool, AllocError>
    ensures { IfOk result (λ b. (source : pure.Source) → AreInterfacesOf interfaces.now source → IsFirstOf source (module_of place.now.within.now)
        → b ≡ list_any is_data (spot_uses (nets_at (sets_of nets.now) place.now.parent) (spot_of place.now))) }
{
    match nets.get(place.parent) {
        Some(around) => {
            let uses = uses_at(alloc, place, around, interfaces)?;
            let found = some_data(&uses);
            Ok(found)
        }
        None => Ok(false),
    }
}

/// Whether one stands as data in a place or in what is connected to its instance.
fn at_place<'t, 's>(
    alloc: Global,
    place: &'t Place<'t, 's>,
    nets: &[BTreeSet<&str>],
    interfaces: &Interfaces<'s>,
    number: usize,
) -> Result<bool, AllocError>
    ensures { IfOk result (λ b. (source : pure.Source) → AreInterfacesOf interfaces.now source → IsFirstOf source (module_of place.now.within.now)
        → b ≡ has_data_at (sets_of nets.now) number (spot_of place.now)) }
{
    if in_module(alloc, place.within, nets, number) {
        return Ok(true);
    }
    let found = in_connections(alloc, place, nets, interfaces)?;
    Ok(found)
}

/// Whether one stands as data in one of these places.
fn in_places<'t, 's>(
    alloc: Global,
    places: &'t [Place<'t, 's>],
    nets: &[BTreeSet<&str>],
    interfaces: &Interfaces<'s>,
) -> Result<bool, AllocError>
    ensures { IfOk result (λ b. (source : pure.Source) → AreInterfacesOf interfaces.now source → AreFirst source (spots_of places.now)
        → b ≡ has_data (sets_of nets.now) (spots_of places.now)) }
{
    for (number, place) in places.iter().enumerate() {
        let found = at_place(alloc, place, nets, interfaces, number)?;
        if found {
            return Ok(true);
        }
    }
    Ok(false)
}

/// Whether a clock net stands elsewhere in the design than as an event or as the whole of what is connected to an input (1364-2005, 9.7,
/// 12.3.9), where these are the clock nets of its places. Answers `AllocError` where memory runs out.
pub fn has_clock_as_data<'t, 's>(
    alloc: Global,
    places: &'t [Place<'t, 's>],
    nets: &[BTreeSet<&str>],
    interfaces: &Interfaces<'s>,
) -> Result<bool, AllocError>
    ensures { IfOk result (λ b. (d : Design) → AreKnownPlaces d (spots_of places.now) → AreInterfacesOf interfaces.now d.source
        → AreClockNets d (spots_of places.now) (sets_of nets.now) → IsTrue b ↔ HasClockAsData d) }
{
    let found = in_places(alloc, places, nets, interfaces)?;
    Ok(found)
}

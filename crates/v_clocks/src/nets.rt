//! The clock nets of each module that stands in a design.
ghost use Rattle.std.specs.Prelude.{◌≡◌, ◌++◌, ◌||◌, ℕ, List, false, IfOk, OnOk};
ghost use Rattle.std.specs.List.{list_any};
ghost use Rattle.wb_values.specs.Value.{same_name};
ghost use Rattle.verilog_trees.specs.Syntax as pure;
ghost use Rattle.verilog_meaning.specs.Settled.{Design, instance_connections};
ghost use Rattle.v_syntax.specs.Source.{connections_of, module_of};
ghost use Rattle.v_hier.specs.Tables.{has_name};
ghost use Rattle.v_instances.specs.Interface.{AreInterfacesOf};
ghost use Rattle.v_places.specs.Views.{spot_of, spots_of};
ghost use Rattle.v_clocks.specs.Uses.{uses_of, spot_uses};
ghost use Rattle.v_clocks.specs.Nets.{gives, nets_below, nets_next, nets_of};
ghost use Rattle.v_clocks.specs.Whole.{AreKnownPlaces, AreFirst, AreClockNets, IsFirstOf};
ghost use Rattle.v_clocks.specs.Views.{use_of, uses_in, sets_of};

use crate::connected::add_connections;
use crate::uses::Use;
use std::alloc::{AllocError, Global};
use std::collections::BTreeSet;
use v_instances::interface::Interfaces;
use v_places::Place;
use v_syntax::module::{Instance, Module};

/// Adds the connections of an instance of a module.
fn add_uses<'s>(
    instance: &Instance<'s>,
    within: &Module<'s>,
    clocks: &BTreeSet<&str>,
    interfaces: &Interfaces<'s>,
    list: &mut Vec<Use<'s>>,
) -> Result<(), AllocError>
    ensures { OnOk result ((source : pure.Source) → AreInterfacesOf interfaces.now source → IsFirstOf source (module_of within.now)
        → uses_in list.new.items ≡ uses_in list.old.items ++ uses_of (has_name clocks.now) (module_of within.now) (instance_connections instance.now.name.now (connections_of instance.now.connections))) }
{
    match interfaces.find(within.name) {
        Some(interface) => {
            add_connections(&instance.connections, clocks, interface, list)?;
            Ok(())
        }
        None => Ok(()),
    }
}

/// How clock nets stand in what is connected to the instance of a place, where these are those around it.
pub(crate) fn uses_at<'t, 's>(
    alloc: Global,
    place: &'t Place<'t, 's>,
    clocks: &BTreeSet<&str>,
    interfaces: &Interfaces<'s>,
) -> Result<Vec<Use<'s>>, AllocError>
    ensures { IfOk result (λ v. (source : pure.Source) → AreInterfacesOf interfaces.now source → IsFirstOf source (module_of place.now.within.now)
        → uses_in v.items ≡ spot_uses (has_name clocks.now) (spot_of place.now)) }
{
    let mut list = Vec::new(alloc);
    match place.instance {
        Some(instance) => {
            add_uses(instance, place.within, clocks, interfaces, &mut list)?;
            Ok(list)
        }
        None => Ok(list),
    }
}

/// No clock nets.
fn none<'s>(alloc: Global) -> BTreeSet<&'s str>
    ensures { (q : List ℕ) → has_name result q ≡ false }
{
    BTreeSet::new(alloc)
}

/// Adds the port that is given a clock net, if one is.
fn give<'n, 's: 'n>(each: Use<'s>, ports: &mut BTreeSet<&'n str>) -> Result<(), AllocError>
    ensures { OnOk result ((q : List ℕ) → has_name ports.new q ≡ (has_name ports.old q || gives q (use_of each.entry))) }
{
    match each {
        Use::NoClock => Ok(()),
        Use::AsData => Ok(()),
        Use::AsClock(port) => {
            ports.insert(port)?;
            Ok(())
        }
    }
}

/// The ports that are given a clock net.
fn ports_given<'n, 's: 'n>(alloc: Global, uses: &[Use<'s>]) -> Result<BTreeSet<&'n str>, AllocError>
    ensures { IfOk result (λ s. (q : List ℕ) → has_name s q ≡ list_any (gives q) (uses_in uses.now)) }
{
    let mut ports = none(alloc);
    for each in uses {
        give(*each, &mut ports)?;
    }
    Ok(ports)
}

/// The clock nets of a place below a module with these ones.
fn nets_below<'n, 't, 's: 'n>(
    alloc: Global,
    place: &'t Place<'t, 's>,
    around: &BTreeSet<&str>,
    interfaces: &Interfaces<'s>,
) -> Result<BTreeSet<&'n str>, AllocError>
    ensures { IfOk result (λ s. (source : pure.Source) → AreInterfacesOf interfaces.now source → IsFirstOf source (module_of place.now.within.now)
        → (q : List ℕ) → has_name s q ≡ nets_below (has_name around.now) (spot_of place.now) q) }
{
    let uses = uses_at(alloc, place, around, interfaces)?;
    let ports = ports_given(alloc, &uses)?;
    Ok(ports)
}

/// The clock of the top.
fn of_top<'s>(alloc: Global, clock: &'s str) -> Result<BTreeSet<&'s str>, AllocError>
    ensures { IfOk result (λ s. (q : List ℕ) → has_name s q ≡ same_name clock.now q) }
{
    let mut nets = none(alloc);
    nets.insert(clock)?;
    Ok(nets)
}

/// The clock nets of the next place, after those of the ones before it. The first is the top.
fn nets_next<'n, 't, 's: 'n>(
    alloc: Global,
    place: &'t Place<'t, 's>,
    before: &[BTreeSet<&'n str>],
    interfaces: &Interfaces<'s>,
    clock: &'n str,
) -> Result<BTreeSet<&'n str>, AllocError>
    ensures { IfOk result (λ s. (source : pure.Source) → AreInterfacesOf interfaces.now source → IsFirstOf source (module_of place.now.within.now)
        → (q : List ℕ) → has_name s q ≡ nets_next clock.now (sets_of before.now) (spot_of place.now) q) }
{
    if before.is_empty() {
        let top = of_top(alloc, clock)?;
        return Ok(top);
    }
    match before.get(place.parent) {
        Some(around) => {
            let below = nets_below(alloc, place, around, interfaces)?;
            Ok(below)
        }
        None => Ok(none(alloc)),
    }
}

/// The clock nets of each of these places, one after the other.
fn all_nets<'n, 't, 's: 'n>(
    alloc: Global,
    places: &'t [Place<'t, 's>],
    interfaces: &Interfaces<'s>,
    clock: &'n str,
) -> Result<Vec<BTreeSet<&'n str>>, AllocError>
    ensures { IfOk result (λ v. (source : pure.Source) → AreInterfacesOf interfaces.now source → AreFirst source (spots_of places.now)
        → sets_of v.items ≡ nets_of clock.now (spots_of places.now)) }
{
    let mut nets = Vec::new(alloc);
    for place in places {
        let next = nets_next(alloc, place, &nets, interfaces, clock)?;
        nets.push(next)?;
    }
    Ok(nets)
}

/// The clock nets of each module that stands in a design, in the order of the places: the clock of the top, and each input port whose
/// whole connection is a clock net of the module around it. Answers `AllocError` where memory runs out.
pub fn clock_nets<'n, 't, 's: 'n>(
    alloc: Global,
    places: &'t [Place<'t, 's>],
    interfaces: &Interfaces<'s>,
    clock: &'n str,
) -> Result<Vec<BTreeSet<&'n str>>, AllocError>
    ensures { IfOk result (λ v. (d : Design) → AreKnownPlaces d (spots_of places.now) → AreInterfacesOf interfaces.now d.source → d.clock ≡ clock.now
        → AreClockNets d (spots_of places.now) (sets_of v.items)) }
{
    let nets = all_nets(alloc, places, interfaces, clock)?;
    Ok(nets)
}

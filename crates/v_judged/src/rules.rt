//! The kinds on digits, ports, constants, widths, selects and memories, over all modules of a design.
ghost use Rattle.std.specs.Prelude.{◌≡◌, ℕ, List, IfOk};
ghost use Rattle.std.specs.List.{list_any};
ghost use Rattle.verilog_trees.specs.Syntax.{Source};
ghost use Rattle.verilog_meaning.specs.Settled.{Design};
ghost use Rattle.v_instances.specs.Interface.{AreInterfacesOf};
ghost use Rattle.v_places.specs.Below.{Spot};
ghost use Rattle.v_judged.specs.First.{IsFirst, rule_kinds, first_rule};
ghost use Rattle.v_judged.specs.Rules.{spot_rules, all_rules, has_bad_ports};
ghost use Rattle.v_judged.specs.Sharing.{IsSame, IsSharing};
ghost use Rattle.v_judged.specs.Spots.{spot_in, spots_in};
ghost use Rattle.v_judged.specs.Standing.{IsNamedDesign};

use crate::kind::DesignKind;
use crate::place::PlaceScope;
use place_kinds::laws::known_modules_are_spots;
use std::alloc::{AllocError, Global};
use v_instances::interface::Interfaces;
use v_modules::module_rule;
use v_ports::has_bad_port;
use v_scopes::Constants;
use v_size::{Broken, also, nothing};

/// The first of these kinds whose rule is broken.
fn first_rule(broken: Broken, ports: bool) -> Option<DesignKind>
    ensures { result ≡ first_rule broken ports }
{
    if broken.has_xz {
        return Some(DesignKind::HasXz);
    }
    if ports {
        return Some(DesignKind::BadPort);
    }
    if broken.bad_constant {
        return Some(DesignKind::BadConstant);
    }
    if broken.width_over_128 {
        return Some(DesignKind::WidthOver128);
    }
    if broken.bad_select {
        return Some(DesignKind::BadSelect);
    }
    if broken.memory_use {
        return Some(DesignKind::MemoryUse);
    }
    None
}

/// Which rules on expressions the module of a scope breaks.
fn place_rules<'p>(
    alloc: Global,
    one: &'p PlaceScope<'p, 'p, '_>,
    interfaces: &Interfaces<'_>,
) -> Result<Broken, AllocError>
    ensures { IfOk result (λ b. (source : Source) → AreInterfacesOf interfaces.now source → b ≡ spot_rules source (spot_in one.now)) }
{
    let constants = Constants {
        scope: &one.place.constants,
    };
    let broken = module_rule(alloc, one.place.within, constants, interfaces)?;
    Ok(broken)
}

/// Which rules on expressions the modules of these scopes break.
fn all_rules<'p>(
    alloc: Global,
    scopes: &'p [PlaceScope<'p, 'p, '_>],
    interfaces: &Interfaces<'_>,
) -> Result<Broken, AllocError>
    ensures { IfOk result (λ b. (source : Source) → AreInterfacesOf interfaces.now source → b ≡ all_rules source (spots_in scopes.now)) }
{
    let mut found = nothing();
    for one in scopes {
        let broken = place_rules(alloc, one, interfaces)?;
        found = also(found, broken);
    }
    Ok(found)
}

/// Whether the module of a scope breaks the rule on ports.
fn has_bad_ports<'p>(
    alloc: Global,
    one: &'p PlaceScope<'p, 'p, '_>,
    interfaces: &Interfaces<'_>,
) -> Result<bool, AllocError>
    ensures { IfOk result (λ b. (source : Source) → AreInterfacesOf interfaces.now source → b ≡ has_bad_ports source (spot_in one.now)) }
{
    let bad = has_bad_port(alloc, one.place.within, &one.names, interfaces)?;
    Ok(bad)
}

/// Whether the module of one of these scopes breaks the rule on ports.
fn any_bad_ports<'p>(
    alloc: Global,
    scopes: &'p [PlaceScope<'p, 'p, '_>],
    interfaces: &Interfaces<'_>,
) -> Result<bool, AllocError>
    ensures { IfOk result (λ b. (source : Source) → AreInterfacesOf interfaces.now source → b ≡ list_any (has_bad_ports source) (spots_in scopes.now)) }
{
    for one in scopes {
        if has_bad_ports(alloc, one, interfaces)? {
            return Ok(true);
        }
    }
    Ok(false)
}

/// The first of these kinds whose rule is broken by one of the modules that stand in a design, of whose places these are the scopes.
pub(crate) fn rules_refusal<'p>(
    alloc: Global,
    scopes: &'p [PlaceScope<'p, 'p, '_>],
    interfaces: &Interfaces<'_>,
) -> Result<Option<DesignKind>, AllocError>
    ensures { IfOk result (λ k. (d : Design) (numbers : List ℕ) (spots : List Spot) → IsSharing IsSame (spots_in scopes.now) numbers spots
        → IsNamedDesign interfaces.now spots d → IsFirst d rule_kinds k) }
{
    known_modules_are_spots();
    let broken = all_rules(alloc, scopes, interfaces)?;
    let ports = any_bad_ports(alloc, scopes, interfaces)?;
    Ok(first_rule(broken, ports))
}

//! All rules on designs, one after the other in the order of the kinds.
ghost use Rattle.std.specs.Prelude.{◌≡◌, IfOk};
ghost use Rattle.verilog_meaning.specs.Settled.{Design};
ghost use Rattle.verilog_exists.specs.Exists.{IsOfText};
ghost use Rattle.v_syntax.specs.Source.{source_of};
ghost use Rattle.v_places.specs.Views.{spots_of};
ghost use Rattle.v_judged.specs.First.{IsFirst, later_kinds, block_kinds, driver_kinds};
ghost use Rattle.v_judged.specs.Refusal.{of_names, IsDesignRefusal, IsJudged};
ghost use Rattle.v_judged.specs.Sharing.{IsSame, IsSharing};
ghost use Rattle.v_judged.specs.Spots.{spots_in};
ghost use Rattle.v_judged.specs.Standing.{IsNamedDesign, IsSoundDesign};

use crate::blocks::blocks_refusal;
use crate::drivers::driver_refusal;
use crate::flat::one_scope_refusal;
use crate::kind::{DesignKind, Judged};
use crate::place::PlaceScope;
use crate::rules::rules_refusal;
use crate::scopes::{Sharing, shared_scopes};
use std::alloc::{AllocError, Global};
use v_instances::interface::{Interfaces, interfaces_of};
use v_named::{Named, NamesKind, judged_names};
use v_places::Place;
use v_syntax::module::Tree;

/// A kind on names as a kind of a design.
fn of_names(kind: NamesKind) -> DesignKind
    ensures { result ≡ of_names kind }
{
    match kind {
        NamesKind::NoTop => DesignKind::NoTop,
        NamesKind::Undeclared => DesignKind::Undeclared,
        NamesKind::DuplicateName => DesignKind::DuplicateName,
        NamesKind::BadHierarchy => DesignKind::BadHierarchy,
    }
}

/// The first of the kinds on drivers whose rule is broken by the design that stands at these places.
fn drivers_refusal<'p, 't, 's>(
    alloc: Global,
    places: &'t [Place<'t, 's>],
    scopes: &'p [PlaceScope<'p, 'p, 's>],
    numbers: &[usize],
    interfaces: &Interfaces<'s>,
    clock: &str,
) -> Result<Option<DesignKind>, AllocError>
    requires sound { (d : Design) × IsSoundDesign interfaces.now (spots_of places.now) d }
    requires shared { IsSharing IsSame (spots_in scopes.now) numbers.now (spots_of places.now) }
    ensures { IfOk result (λ k. (d : Design) → IsSoundDesign interfaces.now (spots_of places.now) d → d.clock ≡ clock.now → IsFirst d driver_kinds k) }
{
    let driver = driver_refusal(alloc, places, scopes, numbers, interfaces)?;
    if driver.is_some() {
        return Ok(driver);
    }
    let kind = one_scope_refusal(alloc, places, scopes, numbers, interfaces, clock)?;
    Ok(kind)
}

/// The first of the kinds after those on names whose rule is broken by the design that stands at these places, where these are their scopes.
fn scopes_refusal<'p, 't, 's>(
    alloc: Global,
    places: &'t [Place<'t, 's>],
    scopes: &'p [PlaceScope<'p, 'p, 's>],
    numbers: &[usize],
    interfaces: &Interfaces<'s>,
    clock: &str,
) -> Result<Option<DesignKind>, AllocError>
    requires named { (d : Design) × IsNamedDesign interfaces.now (spots_of places.now) d × (d.clock ≡ clock.now) }
    requires shared { IsSharing IsSame (spots_in scopes.now) numbers.now (spots_of places.now) }
    ensures { IfOk result (λ k. (d : Design) → IsNamedDesign interfaces.now (spots_of places.now) d → d.clock ≡ clock.now → IsFirst d later_kinds k) }
{
    let rules = rules_refusal(alloc, scopes, interfaces)?;
    if rules.is_some() {
        return Ok(rules);
    }
    let blocks = blocks_refusal(alloc, places, scopes, numbers, interfaces, clock)?;
    if blocks.is_some() {
        return Ok(blocks);
    }
    let drivers = drivers_refusal(alloc, places, scopes, numbers, interfaces, clock)?;
    Ok(drivers)
}

/// The same, of places alone.
fn places_refusal<'t, 's>(
    alloc: Global,
    places: &'t [Place<'t, 's>],
    interfaces: &Interfaces<'s>,
    clock: &str,
) -> Result<Option<DesignKind>, AllocError>
    requires { (d : Design) × IsNamedDesign interfaces.now (spots_of places.now) d × (d.clock ≡ clock.now) }
    ensures { IfOk result (λ k. (d : Design) → IsNamedDesign interfaces.now (spots_of places.now) d → d.clock ≡ clock.now → IsFirst d later_kinds k) }
{
    let shared = shared_scopes(alloc, places)?;
    let Sharing { scopes, numbers } = shared;
    let mut list = scopes;
    let kind = scopes_refusal(
        alloc,
        places,
        list.as_mut_slice(),
        &numbers,
        interfaces,
        clock,
    )?;
    Ok(kind)
}

/// The design, judged by all rules: the first kind, in their order, whose rule it breaks, or all modules that stand in it. The design is the
/// module `top` of the tree, with the clock `clock`. The tree is one of a text: its numbers fit their widths, parts have bits, and names
/// have no dots.
pub fn judged<'t, 's>(
    alloc: Global,
    tree: &'t Tree<'s>,
    top: &str,
    clock: &str,
) -> Result<Judged<'t, 's>, AllocError>
    requires { IsOfText (record { source = source_of tree.now; top = top.now; clock = clock.now }) }
    ensures { IfOk result (IsJudged (record { source = source_of tree.now; top = top.now; clock = clock.now })) }
{
    let interfaces = interfaces_of(alloc, tree)?;
    let named = judged_names(alloc, tree, top, clock)?;
    match named {
        Named::Refused(kind) => Ok(Judged::Refused(of_names(kind))),
        Named::Places(places) => {
            let kind = places_refusal(alloc, places.as_slice(), &interfaces, clock)?;
            match kind {
                Some(kind) => Ok(Judged::Refused(kind)),
                None => Ok(Judged::Accepted(places)),
            }
        }
    }
}

/// By which kind a design is refused, if by any.
pub fn design_refusal(
    alloc: Global,
    tree: &Tree<'_>,
    top: &str,
    clock: &str,
) -> Result<Option<DesignKind>, AllocError>
    requires { IsOfText (record { source = source_of tree.now; top = top.now; clock = clock.now }) }
    ensures { IfOk result (λ k. IsDesignRefusal (record { source = source_of tree.now; top = top.now; clock = clock.now }) k) }
{
    let told = judged(alloc, tree, top, clock)?;
    match told {
        Judged::Refused(kind) => Ok(Some(kind)),
        Judged::Accepted(_) => Ok(None),
    }
}

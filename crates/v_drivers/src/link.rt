//! The drivers that continuous assignments stand for: each part of a target by itself.

ghost use Rattle.std.specs.Prelude.{◌≡◌, ◌++◌, ◌∷◌, [], map, OnOk};
ghost use Rattle.verilog_meaning.specs.Settled.{assignments};
ghost use Rattle.v_value.specs.Scope.{scope_at};
ghost use Rattle.v_value.specs.Narrow.{HasNarrowObjects};
ghost use Rattle.v_syntax.specs.Tree.{target_of};
ghost use Rattle.v_syntax.specs.Source.{item_of};
ghost use Rattle.v_statement.specs.Statements.{target_list};
ghost use Rattle.v_flow.specs.Narrow.{HasNarrowParts, HaveNarrowParts};
ghost use Rattle.v_drivers.specs.Sets.{reached_by, target_drivers, targets_drivers, assignments_drivers};
ghost use Rattle.v_drivers.specs.Premises.{HaveNarrowTargets};
ghost use Rattle.v_drivers.specs.Lists.{sets_in, links_of, wire_links};

use std::alloc::{AllocError, Global};
use v_flow::add_reached;
use v_flow::span::Span;
use v_syntax::module::{Assignment, Item, Wire};
use v_syntax::tree::{Selects, Target};
use v_value::scope::Scope;

/// Adds what a part of a target drives, as one driver.
fn add_part<'s>(
    alloc: Global,
    target: &Target<'s>,
    scope: &Scope<'_>,
    drivers: &mut Vec<Vec<Span<'s>>>,
) -> Result<(), AllocError>
    requires objects { HasNarrowObjects (scope_at scope.now) }
    requires narrow { HasNarrowParts (scope_at scope.now) (target_of target.now) }
    ensures { OnOk result (sets_in drivers.new.items ≡ sets_in drivers.old.items ++ reached_by (scope_at scope.now) (target_of target.now) ∷ []) }
{
    let mut spans = Vec::new(alloc);
    add_reached(target, scope, &mut spans)?;
    drivers.push(spans)?;
    Ok(())
}

#[cycle(parts)]
fn add_target<'s>(
    alloc: Global,
    target: &Target<'s>,
    scope: &Scope<'_>,
    drivers: &mut Vec<Vec<Span<'s>>>,
) -> Result<(), AllocError>
    requires objects { HasNarrowObjects (scope_at scope.now) }
    requires narrow { HasNarrowParts (scope_at scope.now) (target_of target.now) }
    ensures { OnOk result (sets_in drivers.new.items ≡ sets_in drivers.old.items ++ target_drivers (scope_at scope.now) (target_of target.now)) }
{
    match target {
        Target::Place(_, _) => add_part(alloc, target, scope, drivers),
        Target::Joined(targets) => add_targets(alloc, targets, scope, drivers),
    }
}

#[cycle(parts)]
fn add_targets<'s>(
    alloc: Global,
    targets: &[Target<'s>],
    scope: &Scope<'_>,
    drivers: &mut Vec<Vec<Span<'s>>>,
) -> Result<(), AllocError>
    requires objects { HasNarrowObjects (scope_at scope.now) }
    requires narrow { HaveNarrowParts (scope_at scope.now) (target_list targets.now) }
    ensures { OnOk result (sets_in drivers.new.items ≡ sets_in drivers.old.items ++ targets_drivers (scope_at scope.now) (target_list targets.now)) }
{
    for target in targets {
        add_target(alloc, target, scope, drivers)?;
    }
    Ok(())
}

/// Adds the drivers of continuous assignments.
fn add_assignments<'s>(
    alloc: Global,
    assignments: &[Assignment<'s>],
    scope: &Scope<'_>,
    drivers: &mut Vec<Vec<Span<'s>>>,
) -> Result<(), AllocError>
    requires objects { HasNarrowObjects (scope_at scope.now) }
    requires narrow { HaveNarrowTargets (scope_at scope.now) (links_of assignments.now) }
    ensures { OnOk result (sets_in drivers.new.items ≡ sets_in drivers.old.items ++ assignments_drivers (scope_at scope.now) (links_of assignments.now)) }
{
    for assignment in assignments {
        add_target(alloc, &assignment.target, scope, drivers)?;
    }
    Ok(())
}

/// Adds the driver that a net with a value has.
fn add_wire<'s>(
    alloc: Global,
    wire: &Wire<'s>,
    scope: &Scope<'_>,
    drivers: &mut Vec<Vec<Span<'s>>>,
) -> Result<(), AllocError>
    requires objects { HasNarrowObjects (scope_at scope.now) }
    requires narrow { HaveNarrowTargets (scope_at scope.now) (wire_links (wire.now ∷ [])) }
    ensures { OnOk result (sets_in drivers.new.items ≡ sets_in drivers.old.items ++ assignments_drivers (scope_at scope.now) (wire_links (wire.now ∷ []))) }
{
    if wire.value.is_none() {
        return Ok(());
    }
    let target = Target::Place(wire.name, Selects::Whole);
    add_target(alloc, &target, scope, drivers)
}

/// Adds the drivers of a declaration of nets.
fn add_wires<'s>(
    alloc: Global,
    wires: &[Wire<'s>],
    scope: &Scope<'_>,
    drivers: &mut Vec<Vec<Span<'s>>>,
) -> Result<(), AllocError>
    requires objects { HasNarrowObjects (scope_at scope.now) }
    requires narrow { HaveNarrowTargets (scope_at scope.now) (wire_links wires.now) }
    ensures { OnOk result (sets_in drivers.new.items ≡ sets_in drivers.old.items ++ assignments_drivers (scope_at scope.now) (wire_links wires.now)) }
{
    for wire in wires {
        add_wire(alloc, wire, scope, drivers)?;
    }
    Ok(())
}

/// Adds the drivers of an item's continuous assignments.
fn add_item<'s>(
    alloc: Global,
    item: &Item<'s>,
    scope: &Scope<'_>,
    drivers: &mut Vec<Vec<Span<'s>>>,
) -> Result<(), AllocError>
    requires objects { HasNarrowObjects (scope_at scope.now) }
    requires narrow { HaveNarrowTargets (scope_at scope.now) (assignments (item_of item.now ∷ [])) }
    ensures { OnOk result (sets_in drivers.new.items ≡ sets_in drivers.old.items ++ assignments_drivers (scope_at scope.now) (assignments (item_of item.now ∷ []))) }
{
    match item {
        Item::Wires(_, _, wires) => add_wires(alloc, wires, scope, drivers),
        Item::Assign(assignments) => add_assignments(alloc, assignments, scope, drivers),
        Item::Port(_)
        | Item::Parameter(_)
        | Item::Variables(_, _, _)
        | Item::Always(_, _)
        | Item::Instances(_, _, _) => Ok(()),
    }
}

/// Adds the drivers of all continuous assignments.
pub(crate) fn add_links<'s>(
    alloc: Global,
    items: &[Item<'s>],
    scope: &Scope<'_>,
    drivers: &mut Vec<Vec<Span<'s>>>,
) -> Result<(), AllocError>
    requires objects { HasNarrowObjects (scope_at scope.now) }
    requires narrow { HaveNarrowTargets (scope_at scope.now) (assignments (map item_of items.now)) }
    ensures { OnOk result (sets_in drivers.new.items ≡ sets_in drivers.old.items ++ assignments_drivers (scope_at scope.now) (assignments (map item_of items.now))) }
{
    for item in items {
        add_item(alloc, item, scope, drivers)?;
    }
    Ok(())
}

//! The bits that the items of a module read.

ghost use Rattle.std.specs.Prelude.{◌≡◌, map, OnOk};
ghost use Rattle.verilog_designs.specs.Reads.{or_in};
ghost use Rattle.v_value.specs.Scope.{scope_at};
ghost use Rattle.v_value.specs.Narrow.{HasNarrowObjects};
ghost use Rattle.v_syntax.specs.Source.{boxed_tree_of, item_of};
ghost use Rattle.v_flow.specs.Spans.{bits_in};
ghost use Rattle.v_drivers.specs.Lists.{links_of, wire_links};
ghost use Rattle.v_undriven.specs.Reads.{links_read, value_reads, item_reads, all_items_read};
ghost use Rattle.v_undriven.specs.Premises.{AreNarrowValues, IsNarrowIfThere, IsNarrowRead, AreNarrowReads};

use std::alloc::AllocError;
use v_flow::span::Span;
use v_flow::{add_reads, add_statement_reads};
use v_syntax::module::{Assignment, Item, Wire};
use v_value::scope::Scope;

/// Adds what the values of continuous assignments read.
fn add_assignments<'s>(
    assignments: &[Assignment<'s>],
    scope: &Scope<'_>,
    found: &mut Vec<Span<'s>>,
) -> Result<(), AllocError>
    requires objects { HasNarrowObjects (scope_at scope.now) }
    requires narrow { AreNarrowValues (scope_at scope.now) (links_of assignments.now) }
    ensures { OnOk result (bits_in found.new.items ≡ or_in (bits_in found.old.items) (links_read (scope_at scope.now) (links_of assignments.now))) }
{
    for assignment in assignments {
        add_reads(&assignment.value, scope, found)?;
    }
    Ok(())
}

/// Adds what the value of a net reads, where its declaration gives it one.
fn add_wire<'s>(
    wire: &Wire<'s>,
    scope: &Scope<'_>,
    found: &mut Vec<Span<'s>>,
) -> Result<(), AllocError>
    requires objects { HasNarrowObjects (scope_at scope.now) }
    requires narrow { IsNarrowIfThere (scope_at scope.now) (boxed_tree_of wire.now.value) }
    ensures { OnOk result (bits_in found.new.items ≡ or_in (bits_in found.old.items) (value_reads (scope_at scope.now) (boxed_tree_of wire.now.value))) }
{
    match &wire.value {
        Some(value) => add_reads(value, scope, found),
        None => Ok(()),
    }
}

/// Adds what the nets of a declaration read.
fn add_wires<'s>(
    wires: &[Wire<'s>],
    scope: &Scope<'_>,
    found: &mut Vec<Span<'s>>,
) -> Result<(), AllocError>
    requires objects { HasNarrowObjects (scope_at scope.now) }
    requires narrow { AreNarrowValues (scope_at scope.now) (wire_links wires.now) }
    ensures { OnOk result (bits_in found.new.items ≡ or_in (bits_in found.old.items) (links_read (scope_at scope.now) (wire_links wires.now))) }
{
    for wire in wires {
        add_wire(wire, scope, found)?;
    }
    Ok(())
}

/// Adds what an item reads.
fn add_item<'s>(
    item: &Item<'s>,
    scope: &Scope<'_>,
    found: &mut Vec<Span<'s>>,
) -> Result<(), AllocError>
    requires objects { HasNarrowObjects (scope_at scope.now) }
    requires narrow { IsNarrowRead (scope_at scope.now) (item_of item.now) }
    ensures { OnOk result (bits_in found.new.items ≡ or_in (bits_in found.old.items) (item_reads (scope_at scope.now) (item_of item.now))) }
{
    match item {
        Item::Wires(_, _, wires) => add_wires(wires, scope, found),
        Item::Assign(assignments) => add_assignments(assignments, scope, found),
        Item::Always(_, block) => add_statement_reads(block, scope, found),
        Item::Port(_) | Item::Parameter(_) | Item::Variables(_, _, _) | Item::Instances(_, _, _) =>
            Ok(()),
    }
}

/// Adds what the items of a module read.
pub(crate) fn add_items<'s>(
    items: &[Item<'s>],
    scope: &Scope<'_>,
    found: &mut Vec<Span<'s>>,
) -> Result<(), AllocError>
    requires objects { HasNarrowObjects (scope_at scope.now) }
    requires narrow { AreNarrowReads (scope_at scope.now) (map item_of items.now) }
    ensures { OnOk result (bits_in found.new.items ≡ or_in (bits_in found.old.items) (all_items_read (scope_at scope.now) (map item_of items.now))) }
{
    for item in items {
        add_item(item, scope, found)?;
    }
    Ok(())
}

//! The bits of a design in one scope that come from its inputs.

ghost use Rattle.std.specs.Prelude.{◌≡◌, ◌↔◌, map, IsTrue, IfOk, OnOk};
ghost use Rattle.verilog_meaning.specs.Expression.{is_memory};
ghost use Rattle.verilog_designs.specs.Reads.{or_in};
ghost use Rattle.verilog_designs.specs.Dependence.{Bit, is_in};
ghost use Rattle.v_syntax.specs.Source.{item_of};
ghost use Rattle.v_value.specs.Scope.{object_of, scope_at};
ghost use Rattle.v_value.specs.Narrow.{HasNarrowObjects};
ghost use Rattle.v_flow.specs.Spans.{bits_in};
ghost use Rattle.v_masks.specs.Masks.{masked};
ghost use Rattle.v_depend.specs.Resting.{IsThere};
ghost use Rattle.v_loops.specs.Turns.{IsRunnable};
ghost use Rattle.v_reach.specs.Coming.{ComesFrom};
ghost use Rattle.map_inputs.specs.Bits.{name_bits, input_bits};

use std::alloc::{AllocError, Global};
use std::collections::BTreeMap;
use v_flow::add_reached;
use v_flow::span::Span;
use v_paths::mask::masks_of;
use v_reach::mark_dependents;
use v_syntax::module::Item;
use v_syntax::tree::{Selects, Target};
use v_value::scope::{Object, Scope};

/// Whether an object has addresses.
fn has_addresses(object: Object) -> bool
    ensures { result ≡ is_memory (object_of object) }
{
    object.addresses.is_some()
}

/// Whether a name is that of a memory.
fn is_memory(scope: &Scope<'_>, name: &str) -> bool
    ensures { result ≡ is_memory (scope_at scope.now name.now) }
{
    has_addresses(scope.object(name))
}

/// Adds all bits of a name, where it is no memory.
fn add_name<'s>(
    scope: &Scope<'_>,
    name: &'s str,
    found: &mut Vec<Span<'s>>,
) -> Result<(), AllocError>
    requires objects { HasNarrowObjects (scope_at scope.now) }
    ensures { OnOk result (bits_in found.new.items ≡ or_in (bits_in found.old.items) (name_bits (scope_at scope.now) name.now)) }
{
    if is_memory(scope, name) {
        return Ok(());
    }
    let target = Target::Place(name, Selects::Whole);
    add_reached(&target, scope, found)?;
    Ok(())
}

/// The bits of names that are no memories.
fn spans_of<'s>(
    alloc: Global,
    scope: &Scope<'_>,
    names: &[&'s str],
) -> Result<Vec<Span<'s>>, AllocError>
    requires objects { HasNarrowObjects (scope_at scope.now) }
    ensures { IfOk result (λ v. bits_in v.items ≡ input_bits (scope_at scope.now) (map (λ n. n.now) names.now)) }
{
    let mut found = Vec::new(alloc);
    for name in names {
        add_name(scope, *name, &mut found)?;
    }
    Ok(found)
}

/// The bits of a design in one scope that come from these inputs: those of the inputs, and all that depend on one of them, by one or more
/// steps, each by a continuous assignment or a combinational block. Of a name that is a memory no bit counts as one of an input.
pub fn comes_from_inputs<'s>(
    alloc: Global,
    items: &[Item<'s>],
    scope: &Scope<'_>,
    inputs: &[&'s str],
) -> Result<BTreeMap<&'s str, u128>, AllocError>
    requires objects { HasNarrowObjects (scope_at scope.now) }
    requires fit { IsRunnable (scope_at scope.now) (map item_of items.now) }
    ensures { IfOk result (λ t. (u : Bit) → IsThere (scope_at scope.now) u
        → IsTrue (is_in (masked t) u) ↔ ComesFrom (scope_at scope.now) (map item_of items.now) (input_bits (scope_at scope.now) (map (λ n. n.now) inputs.now)) u) }
{
    let spans = spans_of(alloc, scope, inputs)?;
    let mut marked = masks_of(alloc, &spans)?;
    mark_dependents(alloc, items, scope, &mut marked)?;
    Ok(marked)
}

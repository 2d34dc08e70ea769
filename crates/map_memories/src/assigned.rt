//! The names of a module of which a clocked block may assign a bit.

ghost use Rattle.std.specs.Prelude.{◌≡◌, ◌∷◌, ◌||◌, [], Bool, List, ℕ, cond, map, IfOk, OnOk, IsTrue, ◌↔◌};
ghost use Rattle.wb_values.specs.Value.{Name, same_name};
ghost use Rattle.verilog_designs.specs.Reads.{or_in};
ghost use Rattle.verilog_meaning.specs.Register.{clocked_blocks, counts};
ghost use Rattle.v_syntax.specs.Source.{item_of};
ghost use Rattle.v_value.specs.Scope.{scope_at};
ghost use Rattle.v_value.specs.Narrow.{HasNarrowObjects};
ghost use Rattle.v_hier.specs.Tables.{has_name};
ghost use Rattle.v_flow.specs.Spans.{bits_in};
ghost use Rattle.v_drivers.specs.Premises.{AreNarrowBlocks};
ghost use Rattle.v_registers.specs.Registers.{HasCounted};
ghost use Rattle.map_memories.specs.Spans.{has_bits, is_among};

use crate::NoMemory;
use std::alloc::Global;
use std::collections::BTreeSet;
use v_flow::add_assigned;
use v_flow::span::Span;
use v_statement::register::is_clocked;
use v_syntax::module::Item;
use v_value::scope::Scope;

/// Adds the bits that an item may assign, where it is a clocked block.
fn add_item<'s>(
    item: &Item<'s>,
    scope: &Scope<'_>,
    found: &mut Vec<Span<'s>>,
) -> Result<(), NoMemory>
    requires objects { HasNarrowObjects (scope_at scope.now) }
    requires narrow { AreNarrowBlocks (scope_at scope.now) (clocked_blocks (item_of item.now ∷ [])) }
    ensures { OnOk result (bits_in found.new.items ≡ or_in (bits_in found.old.items) (counts (scope_at scope.now) (clocked_blocks (item_of item.now ∷ [])))) }
{
    match item {
        Item::Always(events, block) => {
            if !is_clocked(events) {
                return Ok(());
            }
            add_assigned(block, scope, found)
        }
        Item::Port(_)
        | Item::Parameter(_)
        | Item::Wires(_, _, _)
        | Item::Variables(_, _, _)
        | Item::Assign(_)
        | Item::Instances(_, _, _) => Ok(()),
    }
}

/// The bits that the clocked blocks may assign.
fn clocked_spans<'s>(
    alloc: Global,
    items: &[Item<'s>],
    scope: &Scope<'_>,
) -> Result<Vec<Span<'s>>, NoMemory>
    requires objects { HasNarrowObjects (scope_at scope.now) }
    requires narrow { AreNarrowBlocks (scope_at scope.now) (clocked_blocks (map item_of items.now)) }
    ensures { IfOk result (λ v. bits_in v.items ≡ counts (scope_at scope.now) (clocked_blocks (map item_of items.now))) }
{
    let mut found = Vec::new(alloc);
    for item in items {
        add_item(item, scope, &mut found)?;
    }
    Ok(found)
}

/// Whether a span has a bit of a word.
fn has_bits(span: Span<'_>) -> bool
    ensures { result ≡ has_bits span.entry }
{
    span.from_word < span.to_word && span.bits != 0
}

/// Adds the name of a span that has a bit.
fn add_name<'s>(span: Span<'s>, names: &mut BTreeSet<&'s str>) -> Result<(), NoMemory>
    ensures { OnOk result ((q : Name) → has_name names.new q ≡ cond (has_bits span.entry) (same_name span.entry.name.now q || has_name names.old q) (has_name names.old q)) }
{
    if has_bits(span) {
        names.insert(span.name)?;
    }
    Ok(())
}

/// The names of the spans that have a bit.
fn names_of<'s>(alloc: Global, spans: &[Span<'s>]) -> Result<BTreeSet<&'s str>, NoMemory>
    ensures { IfOk result (λ s. (q : Name) → has_name s q ≡ is_among spans.now q) }
{
    let mut names = BTreeSet::new(alloc);
    for span in spans {
        add_name(*span, &mut names)?;
    }
    Ok(names)
}

/// The names of which a clocked block may assign a bit.
pub(crate) fn assigned_names<'s>(
    alloc: Global,
    items: &[Item<'s>],
    scope: &Scope<'_>,
) -> Result<BTreeSet<&'s str>, NoMemory>
    requires objects { HasNarrowObjects (scope_at scope.now) }
    requires narrow { AreNarrowBlocks (scope_at scope.now) (clocked_blocks (map item_of items.now)) }
    ensures { IfOk result (λ s. (n : Name) → IsTrue (has_name s n) ↔ HasCounted (scope_at scope.now) (clocked_blocks (map item_of items.now)) n) }
{
    let spans = clocked_spans(alloc, items, scope)?;
    let names = names_of(alloc, &spans)?;
    Ok(names)
}

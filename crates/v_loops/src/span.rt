//! Lists of spans: joined, compared, found in tables, and taken out of them.

ghost use Rattle.std.specs.Prelude.{◌≡◌, ◌↔◌, ℕ, true, IsTrue, IfOk, OnOk};
ghost use Rattle.wb_values.specs.Value.{Name};
ghost use Rattle.verilog_designs.specs.Reads.{or_in, and_in, but_not_in};
ghost use Rattle.v_flow.specs.Spans.{bits_of, bits_in};
ghost use Rattle.v_masks.specs.Masks.{masked, spread};
ghost use Rattle.v_loops.specs.Turns.{HasFirst};

use std::alloc::{AllocError, Global};
use std::collections::BTreeMap;
use v_depend::meets;
use v_flow::span::Span;
use v_masks::mask_under;
use v_paths::mask::{add_left, first_word, masks_of, with_bits, without};

/// Adds spans.
pub(crate) fn append<'s>(spans: &[Span<'s>], found: &mut Vec<Span<'s>>) -> Result<(), AllocError>
    ensures { OnOk result (bits_in found.new.items ≡ or_in (bits_in found.old.items) (bits_in spans.now)) }
{
    for span in spans {
        found.push(*span)?;
    }
    Ok(())
}

/// Adds the bits of a span that a table has, if there are any.
fn add_held<'s>(
    table: &BTreeMap<&'s str, u128>,
    span: Span<'s>,
    found: &mut Vec<Span<'s>>,
) -> Result<(), AllocError>
    ensures { OnOk result (bits_in found.new.items ≡ or_in (bits_in found.old.items) (and_in (bits_of span.entry) (masked table.now))) }
{
    let bits = span.bits & mask_under(table, span.name);
    if bits == 0 {
        return Ok(());
    }
    found.push(with_bits(span, bits))?;
    Ok(())
}

/// The bits of spans that a table has. A span that has none of them is left out.
pub(crate) fn held_in<'s>(
    alloc: Global,
    table: &BTreeMap<&'s str, u128>,
    spans: &[Span<'s>],
) -> Result<Vec<Span<'s>>, AllocError>
    ensures { IfOk result (λ v. bits_in v.items ≡ and_in (bits_in spans.now) (masked table.now)) }
{
    let mut found = Vec::new(alloc);
    for span in spans {
        add_held(table, *span, &mut found)?;
    }
    Ok(found)
}

/// Takes the bits of a span out of a table.
fn remove_span<'s>(span: Span<'s>, table: &mut BTreeMap<&'s str, u128>) -> Result<(), AllocError>
    ensures { OnOk result (masked table.new ≡ but_not_in (masked table.old) (spread (bits_of span.entry))) }
{
    let mask = without(mask_under(table, span.name), first_word(span));
    table.insert(span.name, mask)?;
    Ok(())
}

/// Takes the bits of spans out of a table.
pub fn remove<'s>(spans: &[Span<'s>], table: &mut BTreeMap<&'s str, u128>) -> Result<(), AllocError>
    ensures { OnOk result (masked table.new ≡ but_not_in (masked table.old) (spread (bits_in spans.now))) }
{
    for span in spans {
        remove_span(*span, table)?;
    }
    Ok(())
}

/// Whether spans have a bit of a word 0.
pub(crate) fn has_bits(alloc: Global, spans: &[Span<'_>]) -> Result<bool, AllocError>
    ensures { IfOk result (λ r. IsTrue r ↔ HasFirst (bits_in spans.now)) }
{
    let table = masks_of(alloc, spans)?;
    let some = meets(spans, &table);
    Ok(some)
}

/// Whether spans have all bits of a word 0 that others have.
pub(crate) fn has_all<'s>(
    alloc: Global,
    spans: &[Span<'s>],
    others: &[Span<'s>],
) -> Result<bool, AllocError>
    ensures { IfOk result (λ r. IsTrue r → (n : Name) (b : ℕ) → bits_in others.now n 0 b ≡ true → bits_in spans.now n 0 b ≡ true) }
{
    let table = masks_of(alloc, spans)?;
    let mut left = Vec::new(alloc);
    add_left(&table, others, &mut left)?;
    let some = has_bits(alloc, &left)?;
    Ok(!some)
}

//! Tables of masks: which bits of a name are in a set of spans, found by the name. What is no memory has the word 0 alone, so a table says
//! nothing of words; of a memory it has what the word 0 has.

ghost use Rattle.std.specs.Prelude.{◌≡◌, ℕ, ◌&&◌, not, IfOk, OnOk};
ghost use Rattle.verilog_meaning.specs.Register.{is_set};
ghost use Rattle.verilog_designs.specs.Reads.{or_in, and_in, but_not_in};
ghost use Rattle.v_flow.specs.Spans.{is_between, bits_of, bits_in};
ghost use Rattle.v_masks.specs.Masks.{masked, spread};

use std::alloc::{AllocError, Global};
use std::collections::BTreeMap;
use v_flow::span::Span;
use v_masks::mask_under;

/// Whether a span has the word 0.
fn has_first_word(span: Span<'_>) -> bool
    ensures { result ≡ is_between span.entry.from_word span.entry.to_word 0 }
{
    span.from_word == 0 && span.to_word > 0
}

/// The bits of a span in the word 0.
pub fn first_word(span: Span<'_>) -> u128
    ensures { (b : ℕ) → is_set result b ≡ (is_between span.entry.from_word span.entry.to_word 0 && is_set span.entry.bits b) }
{
    if has_first_word(span) { span.bits } else { 0 }
}

/// Adds the bits of a span.
fn add_span<'s>(table: &mut BTreeMap<&'s str, u128>, span: Span<'s>) -> Result<(), AllocError>
    ensures { OnOk result (masked table.new ≡ or_in (masked table.old) (spread (bits_of span.entry))) }
{
    let word = first_word(span);
    let mask = mask_under(table, span.name) | word;
    table.insert(span.name, mask)?;
    Ok(())
}

/// Adds the bits of spans.
pub fn add_spans<'s>(
    table: &mut BTreeMap<&'s str, u128>,
    spans: &[Span<'s>],
) -> Result<(), AllocError>
    ensures { OnOk result (masked table.new ≡ or_in (masked table.old) (spread (bits_in spans.now))) }
{
    for span in spans {
        add_span(table, *span)?;
    }
    Ok(())
}

/// The table of spans.
pub fn masks_of<'s>(
    alloc: Global,
    spans: &[Span<'s>],
) -> Result<BTreeMap<&'s str, u128>, AllocError>
    ensures { IfOk result (λ t. masked t ≡ spread (bits_in spans.now)) }
{
    let mut table = BTreeMap::new(alloc);
    add_spans(&mut table, spans)?;
    Ok(table)
}

/// A span with other bits.
pub fn with_bits<'s>(span: Span<'s>, bits: u128) -> Span<'s>
    ensures name { result.name.now ≡ span.entry.name.now }
    ensures from { result.from_word ≡ span.entry.from_word }
    ensures to { result.to_word ≡ span.entry.to_word }
    ensures bits { result.bits ≡ bits }
{
    Span {
        name: span.name,
        from_word: span.from_word,
        to_word: span.to_word,
        bits,
    }
}

/// The bits of a span that are in the table too.
fn kept<'s>(table: &BTreeMap<&'s str, u128>, span: Span<'s>) -> Span<'s>
    ensures { bits_of result ≡ and_in (bits_of span.entry) (masked table.now) }
{
    with_bits(span, span.bits & mask_under(table, span.name))
}

/// The bits of spans that are in the table too.
pub fn kept_in<'s>(
    alloc: Global,
    table: &BTreeMap<&'s str, u128>,
    spans: &[Span<'s>],
) -> Result<Vec<Span<'s>>, AllocError>
    ensures { IfOk result (λ v. bits_in v.items ≡ and_in (bits_in spans.now) (masked table.now)) }
{
    let mut found = Vec::new(alloc);
    for span in spans {
        found.push(kept(table, *span))?;
    }
    Ok(found)
}

/// The bits of spans that are in both lists, as spans of the second.
pub fn met<'s>(
    alloc: Global,
    first: &[Span<'s>],
    second: &[Span<'s>],
) -> Result<Vec<Span<'s>>, AllocError>
    ensures { IfOk result (λ v. bits_in v.items ≡ and_in (bits_in second.now) (spread (bits_in first.now))) }
{
    let table = masks_of(alloc, first)?;
    let both = kept_in(alloc, &table, second)?;
    Ok(both)
}

/// The bits of the first that the second has not.
pub fn without(bits: u128, mask: u128) -> u128
    ensures { (b : ℕ) → is_set result b ≡ (is_set bits b && not (is_set mask b)) }
{
    bits & !mask
}

/// The bits of a span that are not in the table.
fn left<'s>(table: &BTreeMap<&'s str, u128>, span: Span<'s>) -> Span<'s>
    ensures { bits_of result ≡ but_not_in (bits_of span.entry) (masked table.now) }
{
    with_bits(span, without(span.bits, mask_under(table, span.name)))
}

/// Adds the bits of spans that are not in the table.
pub fn add_left<'s>(
    table: &BTreeMap<&'s str, u128>,
    spans: &[Span<'s>],
    found: &mut Vec<Span<'s>>,
) -> Result<(), AllocError>
    ensures { OnOk result (bits_in found.new.items ≡ or_in (bits_in found.old.items) (but_not_in (bits_in spans.now) (masked table.now))) }
{
    for span in spans {
        found.push(left(table, *span))?;
    }
    Ok(())
}

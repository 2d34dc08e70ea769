//! For each word of a name the bits that spans have of it.

ghost use Rattle.std.specs.Prelude.{◌≡◌, ◌<◌, ◌≤◌, ◌&&◌, ◌||◌, ◌⊎◌, ℕ, length, replicate, slice_index, IfOk};
ghost use Rattle.verilog_meaning.specs.Register.{is_set};
ghost use Rattle.v_flow.specs.Spans.{is_between, bits_in};
ghost use Rattle.v_registers.specs.Masks.{is_whole, whole_bit, whole_bits, part_bit, part_bits, has_bits};

use crate::NoMemory;
use std::alloc::Global;
use v_flow::span::Span;

/// Whether a span has all of so many words.
fn is_whole(span: Span<'_>, count: u64) -> bool
    ensures { result ≡ is_whole span.entry count }
{
    span.from_word == 0 && count <= span.to_word
}

/// The bits that a span has of a name in all of so many words.
fn whole_bits(span: Span<'_>, name: &str, count: u64) -> u128
    ensures { (b : ℕ) → is_set result b ≡ whole_bit span.entry name.now count b }
{
    if span.name == name && is_whole(span, count) {
        span.bits
    } else {
        0
    }
}

/// The bits that spans have of a name in all of so many words.
fn all_whole_bits(spans: &[Span<'_>], name: &str, count: u64) -> u128
    ensures { (b : ℕ) → is_set result b ≡ whole_bits spans.now name.now count b }
{
    let mut bits = 0;
    for span in spans {
        bits = bits | whole_bits(*span, name, count);
    }
    bits
}

/// The same number so many times.
fn copies(alloc: Global, number: u128, count: usize) -> Result<Vec<u128>, NoMemory>
    ensures { IfOk result (λ v. v.items ≡ replicate count number) }
{
    let mut numbers = Vec::new(alloc);
    for _k in 0..count {
        numbers.push(number)?;
    }
    Ok(numbers)
}

/// The end of words that there are, where a name has so many.
fn cut(to: u64, count: usize) -> usize
    ensures within { result ≤ count }
    ensures cut { (result ≡ to) ⊎ ((result ≡ count) × (count ≤ to)) }
{
    if to < count as u64 {
        to as usize
    } else {
        count
    }
}

/// Adds bits to some words: those from `from` on, and before `to`.
fn add_bits(masks: &mut [u128], from: u64, to: u64, bits: u128)
    ensures long { length masks.new ≡ length masks.old }
    ensures bits { (k b : ℕ) → k < length masks.old → is_set (slice_index masks.new k) b ≡ (is_set (slice_index masks.old k) b || (is_between from to k && is_set bits b)) }
{
    let last = cut(to, masks.len());
    for k in from as usize..last {
        masks[k] = masks[k] | bits;
    }
}

/// Adds the bits that a span has of a name, where it does not have all words.
fn add_part(masks: &mut [u128], span: Span<'_>, name: &str)
    ensures long { length masks.new ≡ length masks.old }
    ensures bits { (k b : ℕ) → k < length masks.old → is_set (slice_index masks.new k) b ≡ (is_set (slice_index masks.old k) b || part_bit span.entry name.now (length masks.old) k b) }
{
    if span.name == name {
        if !is_whole(span, masks.len() as u64) {
            add_bits(masks, span.from_word, span.to_word, span.bits);
        }
    }
}

/// Adds the bits that spans have of a name, those that do not have all words.
fn add_parts(masks: &mut [u128], spans: &[Span<'_>], name: &str)
    ensures long { length masks.new ≡ length masks.old }
    ensures bits { (k b : ℕ) → k < length masks.old → is_set (slice_index masks.new k) b ≡ (is_set (slice_index masks.old k) b || part_bits spans.now name.now (length masks.old) k b) }
{
    for span in spans {
        add_part(masks, *span, name);
    }
}

/// For each of so many words of a name the bits that spans have of it. Those that spans have in all words are gathered first, so that
/// the time is in the spans and the words, and not in their product.
pub(crate) fn masks_of(
    alloc: Global,
    spans: &[Span<'_>],
    name: &str,
    count: usize,
) -> Result<Vec<u128>, NoMemory>
    ensures long { IfOk result (λ v. length v.items ≡ count) }
    ensures bits { IfOk result (λ v. (k b : ℕ) → k < count → is_set (slice_index v.items k) b ≡ bits_in spans.now name.now k b) }
{
    let common = all_whole_bits(spans, name, count as u64);
    let mut masks = copies(alloc, common, count)?;
    add_parts(&mut masks, spans, name);
    Ok(masks)
}

/// Whether some number has a bit.
pub(crate) fn has_bits(masks: &[u128]) -> bool
    ensures { result ≡ has_bits masks.now }
{
    for mask in masks {
        if *mask != 0 {
            return true;
        }
    }
    false
}

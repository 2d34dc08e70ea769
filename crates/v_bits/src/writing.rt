//! Numbers with some of their bits replaced: at places that are known, and at places that are the terms of indexes.

ghost use Rattle.std.specs.Prelude.{◌≡◌, ◌≤◌, ◌<◌, ◌-◌, ◌^◌, true, pos, ◌-ℤ◌, IfOk};
ghost use Rattle.wb_values.specs.Value.{word, Valuation};
ghost use Rattle.wb_values.specs.Number.{word_sub, word_not};
ghost use Rattle.verilog_meaning.specs.Expression.{bits_taken};
ghost use Rattle.verilog_meaning.specs.Statement.{with_bits_at};
ghost use Rattle.v_value.specs.Scope.{object_of};
ghost use Rattle.v_value.specs.Index.{integer_at, span_of};
ghost use Rattle.v_operators.specs.Meaning.{Grows, IsOfSort, HasNumber, Makes, Joins};
ghost use Rattle.v_bits.specs.Moving.{near, placed};
ghost use Rattle.v_bits.specs.Writing.{Unites, merged, written_from};

use crate::NoMemory;
use crate::bits::fixed_bits;
use crate::moving::{less_from, moved, near};
use crate::operand::Operand;
use crate::selecting::{Wanted, known_number, placed};
use v_operators::{complement, conjunction, constant, disjunction};
use v_value::select::{Integer, Span, bits_of, integer_of, place_of_bit};
use wb_bits::Word;
use wb_terms::{TermId, Terms};

/// The integer `number` - `place`.
fn lowered_by(number: u32, place: Integer) -> Integer
    requires { place.negative ≡ true → place.magnitude < 128 }
    ensures { integer_at result ≡ pos number -ℤ integer_at place }
{
    let number = u128::from(number);
    if place.negative {
        return Integer {
            negative: false,
            magnitude: number + place.magnitude + 1,
        };
    }
    if place.magnitude <= number {
        return Integer {
            negative: false,
            magnitude: number - place.magnitude,
        };
    }
    Integer {
        negative: true,
        magnitude: place.magnitude - number - 1,
    }
}

/// The bits of a number that come to a number of `width` bits, where they are written to these places of it.
fn opposite(span: Span, width: u32) -> Span
    requires { span.place.negative ≡ true → span.place.magnitude < 128 }
    ensures { span_of result ≡ record { low = pos 0 -ℤ (span_of span).low; count = width } }
{
    Span {
        place: lowered_by(span.back, span.place),
        back: 0,
        count: width,
    }
}

/// The bits of a number of `width` bits that stay where so many are written to these places of it.
fn kept_bits(span: Span, back: Span) -> Word
    requires some_bits { 1 ≤ back.count }
    requires at_most_128 { back.count ≤ 128 }
    requires count_at_most_128 { span.count ≤ 128 }
    ensures width { result.width ≡ back.count }
    ensures value { result.value ≡ word_not back.count (bits_taken (2 ^ span.count - 1) (span_of back)) }
{
    wb_bits::not(bits_of(wb_bits::mask(span.count), back))
}

/// A number with those bits at known places replaced.
pub fn fixed_written(
    terms: &mut Terms,
    old: TermId,
    width: u32,
    number: TermId,
    span: Span,
) -> Result<TermId, NoMemory>
    requires old { IsOfSort terms.old old.0 (word width) }
    requires number { IsOfSort terms.old number.0 (word span.count) }
    ensures grows { Grows terms.old terms.new }
    ensures made { IfOk result (λ r. Joins terms.old terms.new old.0 width number.0 span.count r.0 width (λ a x. with_bits_at width a (span_of span).low span.count x)) }
{
    if span.place.negative && span.place.magnitude >= 128 {
        return Ok(old);
    }
    let back = opposite(span, width);
    let keep = constant(terms, width, kept_bits(span, back).value)?;
    let rest = conjunction(terms, old, keep, width)?;
    let value = fixed_bits(terms, number, span.count, back)?;
    let id = disjunction(terms, rest, value, width)?;
    Ok(id)
}

/// A number without the bits under a mask, and others in their place.
fn merged(
    terms: &mut Terms,
    old: TermId,
    mask: TermId,
    value: TermId,
    width: u32,
) -> Result<TermId, NoMemory>
    requires old { IsOfSort terms.old old.0 (word width) }
    requires mask { IsOfSort terms.old mask.0 (word width) }
    requires value { IsOfSort terms.old value.0 (word width) }
    ensures grows { Grows terms.old terms.new }
    ensures made { IfOk result (λ r. Unites terms.old terms.new old.0 width mask.0 width value.0 width r.0 width (merged width)) }
{
    let kept = complement(terms, mask, width)?;
    let rest = conjunction(terms, old, kept, width)?;
    let id = disjunction(terms, rest, value, width)?;
    Ok(id)
}

/// How far up the bits of a number go, where they are written from an index on: 64 bits.
fn way_up(terms: &mut Terms, wanted: Wanted, index: Operand) -> Result<TermId, NoMemory>
    requires index { IsOfSort terms.old index.id.0 (word index.width) }
    requires small { wanted.back ≤ 128 }
    ensures grows { Grows terms.old terms.new }
    ensures made { IfOk result (λ r. Makes terms.old terms.new index.id.0 index.width r.0 64 (λ i. word_sub 64 0 (placed (object_of wanted.object) wanted.back (near index.signed index.width i)))) }
    ensures right { wanted.object.right < 2 ^ 32 }
{
    let close = near(terms, index.id, index.width, index.signed)?;
    let place = placed(terms, wanted.object, close, wanted.back)?;
    let id = less_from(terms, 0, place)?;
    Ok(id)
}

/// So many ones.
fn ones(terms: &mut Terms, count: u32) -> Result<TermId, NoMemory>
    requires some_bits { 1 ≤ count }
    requires at_most_128 { count ≤ 128 }
    ensures grows { Grows terms.old terms.new }
    ensures of_sort { IfOk result (λ r. IsOfSort terms.new r.0 (word count)) }
    ensures value { IfOk result (λ r. (p : Valuation) → HasNumber terms.new r.0 count p (2 ^ count - 1)) }
{
    let id = constant(terms, count, wb_bits::mask(count))?;
    Ok(id)
}

/// A number with so many bits of an object replaced, by the term of an index.
fn moving_written(
    terms: &mut Terms,
    wanted: Wanted,
    old: TermId,
    width: u32,
    number: TermId,
    index: Operand,
) -> Result<TermId, NoMemory>
    requires old { IsOfSort terms.old old.0 (word width) }
    requires number { IsOfSort terms.old number.0 (word wanted.count) }
    requires index { IsOfSort terms.old index.id.0 (word index.width) }
    requires small { wanted.back ≤ 128 }
    ensures grows { Grows terms.old terms.new }
    ensures made { IfOk result (λ r. Unites terms.old terms.new old.0 width number.0 wanted.count index.id.0 index.width r.0 width (written_from (object_of wanted.object) wanted.back wanted.count index.signed index.width width)) }
{
    let up = way_up(terms, wanted, index)?;
    let all = ones(terms, wanted.count)?;
    let mask = moved(terms, all, wanted.count, up, width)?;
    let value = moved(terms, number, wanted.count, up, width)?;
    let id = merged(terms, old, mask, value, width)?;
    Ok(id)
}

/// The same by a known index.
fn fixed_at(
    terms: &mut Terms,
    wanted: Wanted,
    old: TermId,
    width: u32,
    number: TermId,
    index: Word,
    signed: bool,
) -> Result<TermId, NoMemory>
    requires old { IsOfSort terms.old old.0 (word width) }
    requires number { IsOfSort terms.old number.0 (word wanted.count) }
    ensures grows { Grows terms.old terms.new }
    ensures made { IfOk result (λ r. Joins terms.old terms.new old.0 width number.0 wanted.count r.0 width (λ a x. written_from (object_of wanted.object) wanted.back wanted.count signed index.width width a x index.value)) }
{
    let span = Span {
        place: place_of_bit(wanted.object, integer_of(index, signed)),
        back: wanted.back,
        count: wanted.count,
    };
    let id = fixed_written(terms, old, width, number, span)?;
    Ok(id)
}

/// A number of `width` bits with so many bits of an object replaced, by an index. Bits out of range are not written.
pub fn bits_written(
    terms: &mut Terms,
    wanted: Wanted,
    old: TermId,
    width: u32,
    number: TermId,
    index: Operand,
) -> Result<TermId, NoMemory>
    requires old { IsOfSort terms.old old.0 (word width) }
    requires number { IsOfSort terms.old number.0 (word wanted.count) }
    requires index { IsOfSort terms.old index.id.0 (word index.width) }
    requires small { wanted.back ≤ 128 }
    ensures grows { Grows terms.old terms.new }
    ensures made { IfOk result (λ r. Unites terms.old terms.new old.0 width number.0 wanted.count index.id.0 index.width r.0 width (written_from (object_of wanted.object) wanted.back wanted.count index.signed index.width width)) }
{
    match known_number(terms, index.id, index.width) {
        Some(known) => {
            let word = Word::new(index.width, known);
            let id = fixed_at(terms, wanted, old, width, number, word, index.signed)?;
            Ok(id)
        }
        None => {
            let id = moving_written(terms, wanted, old, width, number, index)?;
            Ok(id)
        }
    }
}

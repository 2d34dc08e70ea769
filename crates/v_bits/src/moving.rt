//! Bits of a number at places that are found out only when the term is worth something.

ghost use Rattle.std.specs.Prelude.{◌≡◌, ℕ, ◌+◌, ◌<◌, ◌≤◌, ◌%◌, ◌^◌, max, Bool, IfOk};
ghost use Rattle.wb_values.specs.Value.{word};
ghost use Rattle.wb_values.specs.Number.{word_sub};
ghost use Rattle.v_operators.specs.Meaning.{Grows, IsOfSort, Makes, Joins};
ghost use Rattle.v_bits.specs.Moving.{near, near_wide, shifted, moved};

use crate::NoMemory;
use crate::bits::resized;
use v_operators::{
    choice, constant, difference, disjunction, is_equal, negated, part, shifted_left,
    shifted_right, widened,
};
use wb_terms::{TermId, Terms};

/// An index of many bits as a word of 64 bits, where 62 bits are enough for it, and else 2^62.
fn near_wide(terms: &mut Terms, index: TermId, width: u32, signed: bool) -> Result<TermId, NoMemory>
    requires index { IsOfSort terms.old index.0 (word width) }
    requires wide { 62 < width }
    ensures grows { Grows terms.old terms.new }
    ensures made { IfOk result (λ r. Makes terms.old terms.new index.0 width r.0 64 (near_wide signed width)) }
{
    let low = part(terms, index, width, 61, 0)?;
    let again = widened(terms, low, 62, width, signed)?;
    let enough = is_equal(terms, again, index, width)?;
    let kept = widened(terms, low, 62, 64, signed)?;
    let far = constant(terms, 64, 1 << 62)?;
    let id = choice(terms, enough, kept, far, 64)?;
    Ok(id)
}

/// An index as a word of 64 bits, where 62 bits are enough for it, and else 2^62.
pub fn near(terms: &mut Terms, index: TermId, width: u32, signed: bool) -> Result<TermId, NoMemory>
    requires index { IsOfSort terms.old index.0 (word width) }
    ensures grows { Grows terms.old terms.new }
    ensures made { IfOk result (λ r. Makes terms.old terms.new index.0 width r.0 64 (near signed width)) }
{
    if width <= 62 {
        let id = widened(terms, index, width, 64, signed)?;
        return Ok(id);
    }
    let id = near_wide(terms, index, width, signed)?;
    Ok(id)
}

/// A word of 64 bits less a number.
pub fn less_by(terms: &mut Terms, place: TermId, number: u128) -> Result<TermId, NoMemory>
    requires place { IsOfSort terms.old place.0 (word 64) }
    requires fits { number < 2 ^ 64 }
    ensures grows { Grows terms.old terms.new }
    ensures made { IfOk result (λ r. Makes terms.old terms.new place.0 64 r.0 64 (λ a. word_sub 64 a number)) }
{
    let known = constant(terms, 64, number)?;
    let id = difference(terms, place, known, 64)?;
    Ok(id)
}

/// A number less a word of 64 bits.
pub fn less_from(terms: &mut Terms, number: u128, place: TermId) -> Result<TermId, NoMemory>
    requires place { IsOfSort terms.old place.0 (word 64) }
    requires fits { number < 2 ^ 64 }
    ensures grows { Grows terms.old terms.new }
    ensures made { IfOk result (λ r. Makes terms.old terms.new place.0 64 r.0 64 (λ a. word_sub 64 number a)) }
{
    let known = constant(terms, 64, number)?;
    let id = difference(terms, known, place, 64)?;
    Ok(id)
}

/// A number of `width` bits moved down by a place of 64 bits, or up where that is negative.
fn shifted(
    terms: &mut Terms,
    operand: TermId,
    width: u32,
    place: TermId,
) -> Result<TermId, NoMemory>
    requires operand { IsOfSort terms.old operand.0 (word width) }
    requires place { IsOfSort terms.old place.0 (word 64) }
    ensures grows { Grows terms.old terms.new }
    ensures made { IfOk result (λ r. Joins terms.old terms.new operand.0 width place.0 64 r.0 width (shifted width)) }
{
    let down = shifted_right(terms, operand, width, place, 64)?;
    let back = negated(terms, place, 64)?;
    let up = shifted_left(terms, operand, width, back, 64)?;
    let id = disjunction(terms, down, up, width)?;
    Ok(id)
}

/// So many bits of a number from a place of 64 bits on.
pub fn moved(
    terms: &mut Terms,
    operand: TermId,
    width: u32,
    place: TermId,
    count: u32,
) -> Result<TermId, NoMemory>
    requires operand { IsOfSort terms.old operand.0 (word width) }
    requires place { IsOfSort terms.old place.0 (word 64) }
    requires some_bits { 1 ≤ count }
    requires at_most_128 { count ≤ 128 }
    ensures grows { Grows terms.old terms.new }
    ensures made { IfOk result (λ r. Joins terms.old terms.new operand.0 width place.0 64 r.0 count (moved (max width count) count)) }
{
    let most = width.max(count);
    let wide = widened(terms, operand, width, most, false)?;
    let both = shifted(terms, wide, most, place)?;
    let id = resized(terms, both, most, count)?;
    Ok(id)
}

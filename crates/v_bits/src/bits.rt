//! Bits of a number at places that are known.

ghost use Rattle.std.specs.Prelude.{◌≡◌, ℕ, ◌<◌, ◌≤◌, ◌*◌, ◌/◌, ◌%◌, ◌^◌, IfOk};
ghost use Rattle.wb_values.specs.Value.{word};
ghost use Rattle.verilog_meaning.specs.Expression.{bits_taken};
ghost use Rattle.v_value.specs.Index.{span_of};
ghost use Rattle.v_operators.specs.Meaning.{Grows, IsOfSort, Makes};

use crate::NoMemory;
use v_operators::{beside, constant, part, widened};
use v_value::select::Span;
use wb_terms::{TermId, Terms};

/// The lowest bits of a number, filled with 0 where it has fewer.
pub fn resized(
    terms: &mut Terms,
    operand: TermId,
    width: u32,
    count: u32,
) -> Result<TermId, NoMemory>
    requires operand { IsOfSort terms.old operand.0 (word width) }
    requires some_bits { 1 ≤ count }
    requires at_most_128 { count ≤ 128 }
    ensures grows { Grows terms.old terms.new }
    ensures made { IfOk result (λ r. Makes terms.old terms.new operand.0 width r.0 count (λ x. x % 2 ^ count)) }
{
    if count <= width {
        let id = part(terms, operand, width, count - 1, 0)?;
        return Ok(id);
    }
    let id = widened(terms, operand, width, count, false)?;
    Ok(id)
}

/// The lowest bits of a number moved down by so many places, fewer than it has bits.
fn moved_down(
    terms: &mut Terms,
    operand: TermId,
    width: u32,
    places: u32,
    count: u32,
) -> Result<TermId, NoMemory>
    requires operand { IsOfSort terms.old operand.0 (word width) }
    requires fewer { places < width }
    requires some_bits { 1 ≤ count }
    requires at_most_128 { count ≤ 128 }
    ensures grows { Grows terms.old terms.new }
    ensures made { IfOk result (λ r. Makes terms.old terms.new operand.0 width r.0 count (λ x. x / 2 ^ places % 2 ^ count)) }
{
    let high = part(terms, operand, width, width - 1, places)?;
    let id = resized(terms, high, width - 1 + 1 - places, count)?;
    Ok(id)
}

/// The lowest bits of a number moved up by so many places, fewer than there are to be.
fn moved_up(
    terms: &mut Terms,
    operand: TermId,
    width: u32,
    places: u32,
    count: u32,
) -> Result<TermId, NoMemory>
    requires operand { IsOfSort terms.old operand.0 (word width) }
    requires some_places { 1 ≤ places }
    requires fewer { places < count }
    requires at_most_128 { count ≤ 128 }
    ensures grows { Grows terms.old terms.new }
    ensures made { IfOk result (λ r. Makes terms.old terms.new operand.0 width r.0 count (λ x. x * 2 ^ places % 2 ^ count)) }
{
    let low = resized(terms, operand, width, count - places)?;
    let zeros = constant(terms, places, 0)?;
    let id = beside(terms, low, count - places, zeros, places)?;
    Ok(id)
}

/// The same number of places, where it is small.
fn small(places: u128) -> u32
    requires { places < 128 }
    ensures { result ≡ places }
{
    places as u32
}

/// The lowest bits of a number moved down by so many places.
fn lowered(
    terms: &mut Terms,
    operand: TermId,
    width: u32,
    places: u128,
    count: u32,
) -> Result<TermId, NoMemory>
    requires operand { IsOfSort terms.old operand.0 (word width) }
    requires some_bits { 1 ≤ count }
    requires at_most_128 { count ≤ 128 }
    ensures grows { Grows terms.old terms.new }
    ensures made { IfOk result (λ r. Makes terms.old terms.new operand.0 width r.0 count (λ x. x / 2 ^ places % 2 ^ count)) }
{
    if places >= u128::from(width) {
        let id = nothing(terms, operand, width, count)?;
        return Ok(id);
    }
    let id = moved_down(terms, operand, width, small(places), count)?;
    Ok(id)
}

/// The lowest bits of a number moved up by so many places.
fn raised(
    terms: &mut Terms,
    operand: TermId,
    width: u32,
    places: u128,
    count: u32,
) -> Result<TermId, NoMemory>
    requires operand { IsOfSort terms.old operand.0 (word width) }
    requires some_bits { 1 ≤ count }
    requires at_most_128 { count ≤ 128 }
    ensures grows { Grows terms.old terms.new }
    ensures made { IfOk result (λ r. Makes terms.old terms.new operand.0 width r.0 count (λ x. x * 2 ^ places % 2 ^ count)) }
{
    if places == 0 {
        let id = resized(terms, operand, width, count)?;
        return Ok(id);
    }
    if places >= u128::from(count) {
        let id = nothing(terms, operand, width, count)?;
        return Ok(id);
    }
    let id = moved_up(terms, operand, width, small(places), count)?;
    Ok(id)
}

/// No bit of a number.
fn nothing(terms: &mut Terms, _operand: TermId, _width: u32, count: u32) -> Result<TermId, NoMemory>
    requires some_bits { 1 ≤ count }
    requires at_most_128 { count ≤ 128 }
    ensures grows { Grows terms.old terms.new }
    ensures made { IfOk result (λ r. Makes terms.old terms.new _operand.0 _width r.0 count (λ x. 0)) }
{
    let id = constant(terms, count, 0)?;
    Ok(id)
}

/// The bits of a number at these places; those out of range are 0.
pub fn fixed_bits(
    terms: &mut Terms,
    operand: TermId,
    width: u32,
    span: Span,
) -> Result<TermId, NoMemory>
    requires operand { IsOfSort terms.old operand.0 (word width) }
    requires some_bits { 1 ≤ span.count }
    requires at_most_128 { span.count ≤ 128 }
    ensures grows { Grows terms.old terms.new }
    ensures made { IfOk result (λ r. Makes terms.old terms.new operand.0 width r.0 span.count (λ x. bits_taken x (span_of span))) }
{
    let place = span.place.magnitude;
    let back = u128::from(span.back);
    if !span.place.negative {
        if back <= place {
            let id = lowered(terms, operand, width, place - back, span.count)?;
            return Ok(id);
        }
        let id = raised(terms, operand, width, back - place, span.count)?;
        return Ok(id);
    }
    if place >= 128 {
        let id = nothing(terms, operand, width, span.count)?;
        return Ok(id);
    }
    let id = raised(terms, operand, width, place + back + 1, span.count)?;
    Ok(id)
}

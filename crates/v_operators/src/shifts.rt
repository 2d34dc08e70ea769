//! Shifts by an unsigned number of any width.

ghost use Rattle.std.specs.Prelude.{◌≡◌, ◌<◌, ◌≤◌, min, IfOk};
ghost use Rattle.wb_values.specs.Value.{word};
ghost use Rattle.wb_values.specs.Number.{word_shl, word_lshr, word_ashr};
ghost use Rattle.v_operators.specs.Meaning.{Grows, IsOfSort, Makes, Joins};
ghost use Rattle.v_operators.specs.Amount.{amount};

use crate::NoMemory;
use crate::parts::part;
use crate::putting::put;
use crate::truths::{choice, is_below};
use crate::words::{constant, widened};
use wb_terms::{Node, TermId, Terms};

/// A number of places as a word of `width` bits: a number above `width` becomes `width`, where it might not fit.
fn amount(
    terms: &mut Terms,
    count: TermId,
    count_width: u32,
    width: u32,
) -> Result<TermId, NoMemory>
    requires count { IsOfSort terms.old count.0 (word count_width) }
    requires some_bits { 1 ≤ width }
    requires at_most_128 { width ≤ 128 }
    ensures grows { Grows terms.old terms.new }
    ensures made { IfOk result (λ r. Makes terms.old terms.new count.0 count_width r.0 width (amount count_width width)) }
{
    if count_width <= width {
        let id = widened(terms, count, count_width, width, false)?;
        return Ok(id);
    }
    let id = narrowed(terms, count, count_width, width)?;
    Ok(id)
}

/// The width as a number of places.
fn places_of(width: u32) -> u128
    ensures { result ≡ width }
{
    u128::from(width)
}

/// The lesser of `width` and a number of more bits, as a word of `width` bits.
fn narrowed(
    terms: &mut Terms,
    count: TermId,
    count_width: u32,
    width: u32,
) -> Result<TermId, NoMemory>
    requires count { IsOfSort terms.old count.0 (word count_width) }
    requires some_bits { 1 ≤ width }
    requires narrower { width < count_width }
    ensures grows { Grows terms.old terms.new }
    ensures made { IfOk result (λ r. Makes terms.old terms.new count.0 count_width r.0 width (λ n. min n width)) }
{
    let number = places_of(width);
    let limit = constant(terms, count_width, number)?;
    let is_less = is_below(terms, count, limit, count_width, false)?;
    let low = part(terms, count, count_width, width - 1, 0)?;
    let most = constant(terms, width, number)?;
    let id = choice(terms, is_less, low, most, width)?;
    Ok(id)
}

/// The number shifted left, filled with 0.
pub fn shifted_left(
    terms: &mut Terms,
    operand: TermId,
    width: u32,
    count: TermId,
    count_width: u32,
) -> Result<TermId, NoMemory>
    requires operand { IsOfSort terms.old operand.0 (word width) }
    requires count { IsOfSort terms.old count.0 (word count_width) }
    ensures grows { Grows terms.old terms.new }
    ensures made { IfOk result (λ r. Joins terms.old terms.new operand.0 width count.0 count_width r.0 width (word_shl width)) }
{
    let places = amount(terms, count, count_width, width)?;
    let id = put(terms, Node::Shl(operand, places))?;
    Ok(id)
}

/// The number shifted right, filled with 0.
pub fn shifted_right(
    terms: &mut Terms,
    operand: TermId,
    width: u32,
    count: TermId,
    count_width: u32,
) -> Result<TermId, NoMemory>
    requires operand { IsOfSort terms.old operand.0 (word width) }
    requires count { IsOfSort terms.old count.0 (word count_width) }
    ensures grows { Grows terms.old terms.new }
    ensures made { IfOk result (λ r. Joins terms.old terms.new operand.0 width count.0 count_width r.0 width (word_lshr width)) }
{
    let places = amount(terms, count, count_width, width)?;
    let id = put(terms, Node::Lshr(operand, places))?;
    Ok(id)
}

/// The number shifted right, filled with its top bit.
pub fn shifted_right_signed(
    terms: &mut Terms,
    operand: TermId,
    width: u32,
    count: TermId,
    count_width: u32,
) -> Result<TermId, NoMemory>
    requires operand { IsOfSort terms.old operand.0 (word width) }
    requires count { IsOfSort terms.old count.0 (word count_width) }
    ensures grows { Grows terms.old terms.new }
    ensures made { IfOk result (λ r. Joins terms.old terms.new operand.0 width count.0 count_width r.0 width (word_ashr width)) }
{
    let places = amount(terms, count, count_width, width)?;
    let id = put(terms, Node::Ashr(operand, places))?;
    Ok(id)
}

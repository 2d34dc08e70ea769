//! Bits that selects take by the terms of their indexes.

ghost use Rattle.std.specs.Prelude.{ℕ, ◌<◌, ◌≤◌, ◌^◌, IfOk, IfSome};
ghost use Rattle.wb_values.specs.Value.{word, Valuation};
ghost use Rattle.verilog_meaning.specs.Expression.{integer_from};
ghost use Rattle.v_value.specs.Scope.{object_of};
ghost use Rattle.v_operators.specs.Meaning.{Grows, IsOfSort, HasNumber, Makes, Joins};
ghost use Rattle.v_bits.specs.Moving.{placed, taken_from};

use crate::NoMemory;
use crate::bits::fixed_bits;
use crate::moving::{less_by, less_from, moved, near};
use crate::operand::{Operand, natural};
use v_value::scope::Object;
use v_value::select::{Span, integer_of, place_of_bit};
use wb_bits::Word;
use wb_terms::{Node, TermId, Terms};

/// So many bits of an object, the lowest of them `back` places below that with an index.
#[derive(Clone, Copy, PartialEq, Eq, Debug)]
pub struct Wanted {
    pub object: Object,
    pub back: u32,
    pub count: u32,
}

/// The number of a term of `width` bits that is a constant.
pub(crate) fn known_number(terms: &Terms, id: TermId, width: u32) -> Option<u128>
    requires { IsOfSort terms.now id.0 (word width) }
    ensures { IfSome result (λ x. (p : Valuation) → HasNumber terms.now id.0 width p x) }
{
    match terms.node(id) {
        Node::Const(_, number) => Some(*number),
        _ => None,
    }
}

/// The place of a bit by the 64 bits of its index, and so many places back.
pub(crate) fn placed(
    terms: &mut Terms,
    object: Object,
    index: TermId,
    back: u32,
) -> Result<TermId, NoMemory>
    requires index { IsOfSort terms.old index.0 (word 64) }
    requires small { back ≤ 128 }
    ensures grows { Grows terms.old terms.new }
    ensures made { IfOk result (λ r. Makes terms.old terms.new index.0 64 r.0 64 (placed (object_of object) back)) }
    ensures right { object.right < 2 ^ 32 }
{
    let right = natural(object.right);
    let steps = natural(back);
    if object.right <= object.left {
        let id = less_by(terms, index, right + steps)?;
        return Ok(id);
    }
    let place = less_from(terms, right, index)?;
    let id = less_by(terms, place, steps)?;
    Ok(id)
}

/// So many bits of an operand by a known index.
fn fixed_at(
    terms: &mut Terms,
    wanted: Wanted,
    operand: TermId,
    width: u32,
    index: Word,
    signed: bool,
) -> Result<TermId, NoMemory>
    requires operand { IsOfSort terms.old operand.0 (word width) }
    requires some_bits { 1 ≤ wanted.count }
    requires at_most_128 { wanted.count ≤ 128 }
    ensures grows { Grows terms.old terms.new }
    ensures made { IfOk result (λ r. Makes terms.old terms.new operand.0 width r.0 wanted.count (taken_from (object_of wanted.object) wanted.back wanted.count (integer_from signed index.width index.value))) }
{
    let span = Span {
        place: place_of_bit(wanted.object, integer_of(index, signed)),
        back: wanted.back,
        count: wanted.count,
    };
    let id = fixed_bits(terms, operand, width, span)?;
    Ok(id)
}

/// So many bits of an operand by the term of an index.
fn moving_at(
    terms: &mut Terms,
    wanted: Wanted,
    operand: TermId,
    width: u32,
    index: Operand,
) -> Result<TermId, NoMemory>
    requires operand { IsOfSort terms.old operand.0 (word width) }
    requires index { IsOfSort terms.old index.id.0 (word index.width) }
    requires small { wanted.back ≤ 128 }
    requires some_bits { 1 ≤ wanted.count }
    requires at_most_128 { wanted.count ≤ 128 }
    ensures grows { Grows terms.old terms.new }
    ensures made { IfOk result (λ r. Joins terms.old terms.new operand.0 width index.id.0 index.width r.0 wanted.count (λ x i. taken_from (object_of wanted.object) wanted.back wanted.count (integer_from index.signed index.width i) x)) }
{
    let close = near(terms, index.id, index.width, index.signed)?;
    let place = placed(terms, wanted.object, close, wanted.back)?;
    let id = moved(terms, operand, width, place, wanted.count)?;
    Ok(id)
}

/// So many bits of an operand by an index.
pub fn bits_at(
    terms: &mut Terms,
    wanted: Wanted,
    operand: TermId,
    width: u32,
    index: Operand,
) -> Result<TermId, NoMemory>
    requires operand { IsOfSort terms.old operand.0 (word width) }
    requires index { IsOfSort terms.old index.id.0 (word index.width) }
    requires small { wanted.back ≤ 128 }
    requires some_bits { 1 ≤ wanted.count }
    requires at_most_128 { wanted.count ≤ 128 }
    ensures grows { Grows terms.old terms.new }
    ensures made { IfOk result (λ r. Joins terms.old terms.new operand.0 width index.id.0 index.width r.0 wanted.count (λ x i. taken_from (object_of wanted.object) wanted.back wanted.count (integer_from index.signed index.width i) x)) }
{
    match known_number(terms, index.id, index.width) {
        Some(number) => {
            let word = Word::new(index.width, number);
            let id = fixed_at(terms, wanted, operand, width, word, index.signed)?;
            Ok(id)
        }
        None => {
            let id = moving_at(terms, wanted, operand, width, index)?;
            Ok(id)
        }
    }
}

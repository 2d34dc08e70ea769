//! Memories with a word replaced.

ghost use Rattle.std.specs.Prelude.{◌≤◌, ◌^◌, IfOk};
ghost use Rattle.wb_values.specs.Value.{word, memory};
ghost use Rattle.v_operators.specs.Meaning.{Grows, IsOfSort};
ghost use Rattle.v_bits.specs.Writing.{Stores, stored};

use crate::NoMemory;
use crate::operand::natural;
use v_operators::{constant, is_below, part, put};
use wb_terms::{Node, TermId, Terms};

/// A memory's term with the word at a place of 64 bits replaced, where the memory has so many words and the place is that of one.
pub fn stored(
    terms: &mut Terms,
    operand: TermId,
    address_width: u32,
    width: u32,
    count: u32,
    place: TermId,
    value: TermId,
) -> Result<TermId, NoMemory>
    requires operand { IsOfSort terms.old operand.0 (memory address_width width) }
    requires place { IsOfSort terms.old place.0 (word 64) }
    requires value { IsOfSort terms.old value.0 (word width) }
    requires room { count ≤ 2 ^ address_width }
    ensures grows { Grows terms.old terms.new }
    ensures made { IfOk result (λ r. Stores terms.old terms.new operand.0 place.0 value.0 r.0 address_width width (stored count)) }
{
    let limit = constant(terms, 64, natural(count))?;
    let within = is_below(terms, place, limit, 64, false)?;
    let address = part(terms, place, 64, address_width - 1, 0)?;
    let changed = put(terms, Node::Store(operand, address, value))?;
    let id = put(terms, Node::Ite(within, changed, operand))?;
    Ok(id)
}

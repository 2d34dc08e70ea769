//! The term of a name after a number was written to a part of it.

ghost use Rattle.std.specs.Prelude.{◌≡◌, ◌<◌, ◌≤◌, ◌^◌, ℕ, min, true, Some, IfOk, IfSome};
ghost use Rattle.wb_values.specs.Value.{word, memory};
ghost use Rattle.verilog_meaning.specs.Expression.{object_width};
ghost use Rattle.verilog_meaning.specs.Register.{word_count};
ghost use Rattle.v_value.specs.Scope.{object_of};
ghost use Rattle.v_operators.specs.Meaning.{Grows, IsOfSort};
ghost use Rattle.v_write.specs.Parts.{AreBits, IsPartOf};
ghost use Rattle.v_write.specs.declared.part.PartBits.TheVariants.{All};
ghost use Rattle.v_write.specs.Guard.{IsGuard};
ghost use Rattle.v_write.specs.Changed.{ChangesWord, ChangesMemory, Reads, IsTermOf, AreOfOneSort, IsChoice};
ghost use Rattle.v_write.specs.Written.{Changes};

use crate::NoMemory;
use crate::part::{Part, PartBits};
use v_bits::{Operand, bits_written, fixed_written, less_by, natural, near, stored};
use v_operators::{part, put};
use v_value::scope::Object;
use v_value::width::object_width;
use wb_terms::{Node, Sort, TermId, Terms};

/// A word of an object with some of its bits replaced.
fn word_changed(
    terms: &mut Terms,
    object: Object,
    old: TermId,
    width: u32,
    number: TermId,
    part: &Part<'_>,
) -> Result<TermId, NoMemory>
    requires old { IsOfSort terms.old old.0 (word width) }
    requires number { IsOfSort terms.old number.0 (word part.now.count) }
    requires bits { AreBits (object_of object) terms.old part.now.count part.now.bits }
    requires width { width ≡ object_width (object_of object) }
    ensures grows { Grows terms.old terms.new }
    ensures changed { IfOk result (λ r. ChangesWord (object_of object) terms.old terms.new part.now.bits old.0 number.0 part.now.count r.0 width) }
{
    match part.bits {
        PartBits::All => Ok(number),
        PartBits::Known(span) => {
            let id = fixed_written(terms, old, width, number, span)?;
            Ok(id)
        }
        PartBits::Moving(wanted, index) => {
            let id = bits_written(terms, wanted, old, width, number, index)?;
            Ok(id)
        }
    }
}

/// A memory's term: how many bits an address has, and how many a word.
#[derive(Clone, Copy, PartialEq, Eq, Debug)]
struct MemoryShape {
    address_width: u32,
    width: u32,
}

/// The shape of a memory's term.
fn measured(terms: &Terms, id: TermId) -> MemoryShape
    requires { (a : ℕ) × (d : ℕ) × IsOfSort terms.now id.0 (memory a d) }
    ensures { IsOfSort terms.now id.0 (memory result.address_width result.width) }
{
    match terms.sort(id) {
        Sort::Memory(address_width, width) => MemoryShape {
            address_width,
            width,
        },
        _ => unreachable!(),
    }
}

/// The least address of a memory.
fn least_address(object: Object) -> u128
    ensures least { IfSome object.addresses (λ a. (result ≡ min a.0 a.1) × (a.0 < 2 ^ 32) × (a.1 < 2 ^ 32)) }
    ensures fits { result < 2 ^ 64 }
{
    match object.addresses {
        Some((first, last)) => natural(first).min(natural(last)),
        None => 0,
    }
}

/// How many words a memory has.
fn word_count(object: Object) -> u32
    requires { word_count (object_of object) ≤ 2 ^ 16 }
    ensures { result ≡ word_count (object_of object) }
{
    match object.addresses {
        Some((first, last)) => first.max(last) - first.min(last) + 1,
        None => 1,
    }
}

/// The word of a memory at a place of 64 bits, cut to an address.
fn word_read(
    terms: &mut Terms,
    shape: MemoryShape,
    old: TermId,
    place: TermId,
) -> Result<TermId, NoMemory>
    requires old { IsOfSort terms.old old.0 (memory shape.address_width shape.width) }
    requires place { IsOfSort terms.old place.0 (word 64) }
    ensures grows { Grows terms.old terms.new }
    ensures read { IfOk result (λ r. Reads terms.old terms.new old.0 place.0 r.0 shape.address_width shape.width) }
{
    let address = part(terms, place, 64, shape.address_width - 1, 0)?;
    let id = put(terms, Node::Load(old, address))?;
    Ok(id)
}

/// Whether all bits are written.
fn is_all(bits: PartBits) -> bool
    ensures { result ≡ true → bits ≡ All }
{
    matches!(bits, PartBits::All)
}

/// The word of a memory at a place of 64 bits with some of its bits replaced.
fn word_filled(
    terms: &mut Terms,
    object: Object,
    shape: MemoryShape,
    old: TermId,
    place: TermId,
    number: TermId,
    part: &Part<'_>,
) -> Result<TermId, NoMemory>
    requires old { IsOfSort terms.old old.0 (memory shape.address_width shape.width) }
    requires width { shape.width ≡ object_width (object_of object) }
    requires place { IsOfSort terms.old place.0 (word 64) }
    requires number { IsOfSort terms.old number.0 (word part.now.count) }
    requires bits { AreBits (object_of object) terms.old part.now.count part.now.bits }
    ensures grows { Grows terms.old terms.new }
    ensures filled { IfOk result (λ r. ChangesMemory (object_of object) terms.old terms.old terms.new part.now.bits old.0 place.0 number.0 part.now.count r.0 shape.address_width shape.width) }
{
    if is_all(part.bits) {
        return Ok(number);
    }
    let read = word_read(terms, shape, old, place)?;
    let id = word_changed(terms, object, read, shape.width, number, part)?;
    Ok(id)
}

/// A memory's term after a number was written to a part of the word with an index.
fn memory_changed(
    terms: &mut Terms,
    object: Object,
    part: &Part<'_>,
    address: Operand,
    old: TermId,
    number: TermId,
) -> Result<TermId, NoMemory>
    requires part { IsPartOf (object_of object) terms.old part.now }
    requires address { part.now.address ≡ Some address }
    requires old { IsTermOf (object_of object) terms.old old.0 }
    requires number { IsOfSort terms.old number.0 (word part.now.count) }
    ensures grows { Grows terms.old terms.new }
    ensures changed { IfOk result (λ r. Changes (object_of object) terms.old terms.new part.now old.0 number.0 r.0) }
{
    let shape = measured(terms, old);
    let close = near(terms, address.id, address.width, address.signed)?;
    let place = less_by(terms, close, least_address(object))?;
    let word = word_filled(terms, object, shape, old, place, number, part)?;
    let count = word_count(object);
    let id = stored(
        terms,
        old,
        shape.address_width,
        shape.width,
        count,
        place,
        word,
    )?;
    Ok(id)
}

/// The term of a name after a number was written to a part of it: old is its term before. Bits and words out of range are not
/// written.
pub(crate) fn changed(
    terms: &mut Terms,
    object: Object,
    part: &Part<'_>,
    old: TermId,
    number: TermId,
) -> Result<TermId, NoMemory>
    requires part { IsPartOf (object_of object) terms.old part.now }
    requires old { IsTermOf (object_of object) terms.old old.0 }
    requires number { IsOfSort terms.old number.0 (word part.now.count) }
    ensures grows { Grows terms.old terms.new }
    ensures changed { IfOk result (λ r. Changes (object_of object) terms.old terms.new part.now old.0 number.0 r.0) }
{
    match part.address {
        None => {
            let width = object_width(object);
            let id = word_changed(terms, object, old, width, number, part)?;
            Ok(id)
        }
        Some(address) => {
            let id = memory_changed(terms, object, part, address, old, number)?;
            Ok(id)
        }
    }
}

/// One term where a condition holds, and else the other, of the same sort. No condition always holds.
pub(crate) fn guarded(
    terms: &mut Terms,
    guard: Option<TermId>,
    new: TermId,
    old: TermId,
) -> Result<TermId, NoMemory>
    requires guard { IsGuard terms.old guard }
    requires same { AreOfOneSort terms.old new.0 old.0 }
    ensures grows { Grows terms.old terms.new }
    ensures choice { IfOk result (λ r. IsChoice terms.old terms.new guard new.0 old.0 r.0) }
{
    match guard {
        None => Ok(new),
        Some(condition) => {
            let id = put(terms, Node::Ite(condition, new, old))?;
            Ok(id)
        }
    }
}

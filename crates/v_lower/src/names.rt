//! Names that stand whole, and words of memories.

ghost use Rattle.std.specs.Prelude.{◌≡◌, ℕ, ◌<◌, ◌≤◌, ◌^◌, min, true, false, Some, IfOk, IfSome};
ghost use Rattle.std.proofs.Props.{props};
ghost use Rattle.wb_values.specs.Value.{word, memory};
ghost use Rattle.verilog_trees.specs.Syntax.{Expression, whole, index};
ghost use Rattle.verilog_meaning.specs.Expression.{is_memory, sign_of};
ghost use Rattle.v_value.specs.Scope.{object_of, scope_at};
ghost use Rattle.v_value.specs.Narrow.{HasNarrowObjects};
ghost use Rattle.v_operators.specs.Meaning.{Grows, IsOfSort};
ghost use Rattle.v_lower.specs.Lowered.{HasImages, IsLoweredAlone, has_sort, has_number};
ghost use Rattle.v_lower.specs.Table.{images_at};
ghost use Rattle.v_lower.specs.Reading.{IsRead, IsWordRead, Loads, loaded};

use crate::NoMemory;
use crate::table::NamedTerms;
use v_bits::{Operand, less_by, natural, near};
use v_operators::{choice, constant, is_below, part, put};
use v_value::scope::{Object, Scope};
use v_value::width::object_width;
use wb_terms::{Node, Sort, TermId, Terms};

/// The names of a module: what they stand for, and their terms. All objects fit words.
#[derive(Clone, Copy)]
pub(crate) struct Names<'a, 's, 'b, 't> {
    pub(crate) scope: &'a Scope<'s>,
    pub(crate) table: &'b NamedTerms<'t>,
    pub(crate) ghost narrow: { HasNarrowObjects (scope_at scope.now) } by { Prim.hlevel props },
}

/// A name that is no memory, and stands whole.
pub(crate) fn lower_whole(
    names: Names<'_, '_, '_, '_>,
    terms: &mut Terms,
    name: &str,
) -> Result<Operand, NoMemory>
    requires known { HasImages (scope_at names.scope.now) (images_at names.table.now) terms.old }
    requires sort { has_sort (scope_at names.scope.now name.now) ≡ true }
    requires no_memory { is_memory (scope_at names.scope.now name.now) ≡ false }
    ensures grows { Grows terms.old terms.new }
    ensures read { IfOk result (λ r. IsRead (scope_at names.entry.scope.now) (images_at names.entry.table.now) terms.new name.now whole r.width r.id.0) }
{
    let object = names.scope.object(name);
    let width = object_width(object);
    let signed = object.signed;
    match object.constant {
        Some(number) => {
            let id = constant(terms, width, number)?;
            Ok(Operand { id, width, signed })
        }
        None => {
            let id = named(names, terms, name);
            Ok(Operand { id, width, signed })
        }
    }
}

/// The term of a name whose number is not known.
fn named(names: Names<'_, '_, '_, '_>, _terms: &Terms, name: &str) -> TermId
    requires known { HasImages (scope_at names.scope.now) (images_at names.table.now) _terms.now }
    requires sort { has_sort (scope_at names.scope.now name.now) ≡ true }
    requires no_number { has_number (scope_at names.scope.now name.now) ≡ false }
    ensures { images_at names.entry.table.now name.now ≡ Some result.0 }
{
    match names.table.term(name) {
        Some(id) => id,
        None => unreachable!(),
    }
}

/// How many words a memory's term has.
fn room(address_width: u32) -> u128
    requires { address_width ≤ 16 }
    ensures same { result ≡ 2 ^ address_width }
    ensures fits { result < 2 ^ 64 }
{
    1 << address_width
}

/// The least address of a memory.
fn least_address(object: Object) -> u128
    ensures least { IfSome object.addresses (λ a. (result ≡ min a.0 a.1) × (a.0 < 2 ^ 32) × (a.1 < 2 ^ 32)) }
    ensures fits { result < 2 ^ 64 }
{
    match object.addresses {
        Some((first, last)) => natural(first).min(natural(last)),
        None => 0,
    }
}

/// A memory's term: how many bits an address has, and how many a word.
#[derive(Clone, Copy, PartialEq, Eq, Debug)]
struct MemoryShape {
    address_width: u32,
    width: u32,
}

/// The shape of a memory's term.
fn measured(terms: &Terms, id: TermId) -> MemoryShape
    requires { (a : ℕ) × (d : ℕ) × IsOfSort terms.now id.0 (memory a d) }
    ensures { IsOfSort terms.now id.0 (memory result.address_width result.width) }
{
    match terms.sort(id) {
        Sort::Memory(address_width, width) => MemoryShape {
            address_width,
            width,
        },
        _ => unreachable!(),
    }
}

/// The word of a memory's term at a place of 64 bits, 0 where it has none there.
fn loaded(
    terms: &mut Terms,
    id: TermId,
    shape: MemoryShape,
    place: TermId,
) -> Result<TermId, NoMemory>
    requires memory { IsOfSort terms.old id.0 (memory shape.address_width shape.width) }
    requires place { IsOfSort terms.old place.0 (word 64) }
    ensures grows { Grows terms.old terms.new }
    ensures made { IfOk result (λ r. Loads terms.old terms.new id.0 place.0 r.0 shape.width (loaded shape.address_width)) }
{
    let limit = constant(terms, 64, room(shape.address_width))?;
    let within = is_below(terms, place, limit, 64, false)?;
    let address = part(terms, place, 64, shape.address_width - 1, 0)?;
    let read = put(terms, Node::Load(id, address))?;
    let zero = constant(terms, shape.width, 0)?;
    let word = choice(terms, within, read, zero, shape.width)?;
    Ok(word)
}

/// The word of a memory by the term of an index.
pub(crate) fn lower_word(
    names: Names<'_, '_, '_, '_>,
    terms: &mut Terms,
    name: &str,
    address: Operand,
) -> Result<Operand, NoMemory>
    requires known { HasImages (scope_at names.scope.now) (images_at names.table.now) terms.old }
    requires sort { has_sort (scope_at names.scope.now name.now) ≡ true }
    requires memory { is_memory (scope_at names.scope.now name.now) ≡ true }
    requires address { IsOfSort terms.old address.id.0 (word address.width) }
    ensures grows { Grows terms.old terms.new }
    ensures read { IfOk result (λ r. (e : Expression) → IsLoweredAlone (scope_at names.entry.scope.now) (images_at names.entry.table.now) terms.old e address.width address.id.0
        → address.signed ≡ sign_of (scope_at names.entry.scope.now) e
        → IsWordRead (scope_at names.entry.scope.now) (images_at names.entry.table.now) terms.new name.now (index e) r.width r.id.0) }
{
    let object = names.scope.object(name);
    let memory = named(names, terms, name);
    let shape = measured(terms, memory);
    let close = near(terms, address.id, address.width, address.signed)?;
    let place = less_by(terms, close, least_address(object))?;
    let id = loaded(terms, memory, shape, place)?;
    Ok(Operand {
        id,
        width: shape.width,
        signed: object.signed,
    })
}

//! Terms of memories with the bits that count.

ghost use Rattle.std.specs.Prelude.{◌≡◌, ◌≤◌, ◌<◌, ◌^◌, length, slice_index, IfOk};
ghost use Rattle.wb_values.specs.Value.{word, memory, Valuation};
ghost use Rattle.v_operators.specs.Meaning.{Grows, HasNumber, IsOfSort};
ghost use Rattle.v_elab.specs.Kept.{named_at};
ghost use Rattle.v_elab.specs.Tables.{IsCut, IsWordCut, IsWordPart};

use crate::NoMemory;
use crate::keeping::name_term;
use v_operators::{conjunction, constant, put};
use wb_bits::mask;
use wb_terms::{NameId, Node, TermId, Terms};

/// The mask of a word, 0 past the last.
fn mask_at(masks: &[u128], address: usize) -> u128
    ensures { result ≡ slice_index masks.now address }
{
    if address < masks.len() {
        masks[address]
    } else {
        0
    }
}

/// What is kept of a word of a memory: 0 where that is nothing, without a look at the word.
fn word_part(
    terms: &mut Terms,
    whole: TermId,
    place: TermId,
    address_width: u32,
    width: u32,
    address: u128,
    kept: u128,
) -> Result<TermId, NoMemory>
    requires whole { IsOfSort terms.old whole.0 (memory address_width width) }
    requires place { IsOfSort terms.old place.0 (word address_width) }
    requires address { (p : Valuation) → HasNumber terms.old place.0 address_width p address }
    requires some_bits { 1 ≤ width }
    requires at_most_128 { width ≤ 128 }
    requires fits { kept < 2 ^ width }
    ensures grows { Grows terms.old terms.new }
    ensures part { IfOk result (λ r. IsWordPart terms.old terms.new whole.0 width address kept r.0) }
{
    if kept == 0 {
        let zero = constant(terms, width, 0)?;
        return Ok(zero);
    }
    let word = put(terms, Node::Load(whole, place))?;
    let known = constant(terms, width, kept)?;
    let cut = conjunction(terms, word, known, width)?;
    Ok(cut)
}

/// A memory with one word cut to a mask. The word is that of another memory, which has the same one there: so no load goes over the
/// words that were cut before.
fn word_cut(
    terms: &mut Terms,
    whole: TermId,
    held: TermId,
    address_width: u32,
    width: u32,
    address: u128,
    bits: u128,
) -> Result<TermId, NoMemory>
    requires whole { IsOfSort terms.old whole.0 (memory address_width width) }
    requires held { IsOfSort terms.old held.0 (memory address_width width) }
    requires some_address { 1 ≤ address_width }
    requires few { address_width ≤ 16 }
    requires some_bits { 1 ≤ width }
    requires at_most_128 { width ≤ 128 }
    requires within { address < 2 ^ address_width }
    ensures grows { Grows terms.old terms.new }
    ensures cut { IfOk result (λ r. IsWordCut terms.old terms.new whole.0 held.0 address_width width address bits r.0) }
{
    let all = mask(width);
    let kept = bits & all;
    if kept == all {
        return Ok(held);
    }
    let place = constant(terms, address_width, address)?;
    let cut = word_part(terms, whole, place, address_width, width, address, kept)?;
    let id = put(terms, Node::Store(held, place, cut))?;
    Ok(id)
}

/// The term of a name that is a memory, each word cut to its mask, and those past the last mask 0.
pub(crate) fn memory_kept(
    terms: &mut Terms,
    place: NameId,
    address_width: u32,
    width: u32,
    masks: &[u128],
) -> Result<TermId, NoMemory>
    requires place { place.0 < length terms.old.names }
    requires named { (named_at terms.old place.0).1 ≡ memory address_width width }
    requires some_address { 1 ≤ address_width }
    requires few { address_width ≤ 16 }
    requires some_bits { 1 ≤ width }
    requires at_most_128 { width ≤ 128 }
    ensures grows { Grows terms.old terms.new }
    ensures cut { IfOk result (λ r. IsCut terms.new (named_at terms.old place.0).0 address_width width masks.now (2 ^ address_width) r.0) }
{
    let whole = name_term(terms, place)?;
    let mut id = whole;
    let room = 1usize << address_width;
    for address in 0..room {
        id = word_cut(
            terms,
            whole,
            id,
            address_width,
            width,
            address as u128,
            mask_at(masks, address),
        )?;
    }
    Ok(id)
}

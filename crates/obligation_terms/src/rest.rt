//! Whether what does not count of the registers is 0.

ghost use Rattle.std.specs.Prelude.{◌≡◌, ◌<◌, ◌-◌, ◌^◌, ℕ, IfOk, IsTrue, length, slice_index};
ghost use Rattle.wb_values.specs.Value.{Sort as PureSort, truth, word, memory, as_number, as_words, all_below};
ghost use Rattle.model_meaning.specs.Term.{val};
ghost use Rattle.wb_terms.specs.Graph.{tree};
ghost use Rattle.term_copies.specs.Copies.{IsExtended};
ghost use Rattle.v_design.specs.Bits.{counted_bits};
ghost use Rattle.v_design.specs.Seen.{parts_of};
ghost use Rattle.v_design.specs.Parts.{are_bits_of, registers_of};
ghost use Rattle.mapped_designs.specs.Runs.{IsRestZero};
ghost use Rattle.condition_terms.specs.Told.{IsTermOf, Tells, is_true};
ghost use Rattle.model_terms.specs.Symbolic.{worths};
ghost use Rattle.obligation_terms.specs.Rest.{IsWithin, IsWithinMasks, AreTermsFor};

use crate::NoMemory;
use crate::nodes::{put, word_at};
use condition_terms::{both, constant, equal};
use v_design::{Design, RegisterBits};
use wb_bits::mask;
use wb_terms::{Node, Sort, TermId, Terms};

/// Whether a word has no bits but those of a mask.
fn is_within(terms: &mut Terms, id: TermId, width: u32, bits: u128) -> Result<TermId, NoMemory>
    requires sort { IsTermOf terms.old id.0 (word width) }
    requires bits { bits < 2 ^ width }
    ensures extended { IsExtended terms.old terms.new }
    ensures told { IfOk result (λ r. Tells terms.new r.0 (λ v. IsWithin bits (as_number (val (tree terms.old id.0) v)))) }
{
    let _sort = terms.sort(id);
    let counted = put(terms, Node::Const(width, bits))?;
    let kept = put(terms, Node::And(id, counted))?;
    let same = equal(terms, kept, id)?;
    Ok(same)
}

/// Whether a condition holds, and a word has no bits but those of a mask.
fn and_within(
    terms: &mut Terms,
    all: TermId,
    id: TermId,
    width: u32,
    bits: u128,
) -> Result<TermId, NoMemory>
    requires all { IsTermOf terms.old all.0 truth }
    requires sort { IsTermOf terms.old id.0 (word width) }
    requires bits { bits < 2 ^ width }
    ensures extended { IsExtended terms.old terms.new }
    ensures told { IfOk result (λ r. Tells terms.new r.0 (λ v. IsTrue (is_true terms.old all.0 v) × IsWithin bits (as_number (val (tree terms.old id.0) v)))) }
{
    if bits == mask(width) {
        return Ok(all);
    }
    let here = is_within(terms, id, width, bits)?;
    let id = both(terms, all, here)?;
    Ok(id)
}

/// Whether a condition holds, and the word of a memory at an address has no bits but those of a mask.
fn and_word_within(
    terms: &mut Terms,
    all: TermId,
    id: TermId,
    address_width: u32,
    width: u32,
    address: u64,
    bits: u128,
) -> Result<TermId, NoMemory>
    requires all { IsTermOf terms.old all.0 truth }
    requires sort { IsTermOf terms.old id.0 (memory address_width width) }
    requires address { address < 2 ^ address_width }
    requires bits { bits < 2 ^ width }
    ensures extended { IsExtended terms.old terms.new }
    ensures told { IfOk result (λ r. Tells terms.new r.0
        (λ v. IsTrue (is_true terms.old all.0 v) × IsWithin bits (slice_index (as_words (val (tree terms.old id.0) v)) address))) }
{
    let _sort = terms.sort(id);
    if bits == mask(width) {
        return Ok(all);
    }
    let word = word_at(terms, id, address_width, address)?;
    let id = and_within(terms, all, word, width, bits)?;
    Ok(id)
}

/// The mask of a word: what lies past the last has no bits that count.
fn bits_of_word(masks: &[u128], place: u64) -> u128
    requires { place < 2 ^ 16 }
    ensures { result ≡ slice_index masks.now place }
{
    let place = place as usize;
    if place < masks.len() { masks[place] } else { 0 }
}

/// Whether a condition holds, and the words of a memory have no bits but those of their masks.
fn and_words_within(
    terms: &mut Terms,
    all: TermId,
    id: TermId,
    address_width: u32,
    width: u32,
    masks: &[u128],
) -> Result<TermId, NoMemory>
    requires all { IsTermOf terms.old all.0 truth }
    requires sort { IsTermOf terms.old id.0 (memory address_width width) }
    requires masks { IsTrue (all_below width masks.now) }
    ensures extended { IsExtended terms.old terms.new }
    ensures told { IfOk result (λ r. Tells terms.new r.0 (λ v. IsTrue (is_true terms.old all.0 v)
        × ((k : ℕ) → k < 2 ^ address_width → IsWithin (slice_index masks.now k) (slice_index (as_words (val (tree terms.old id.0) v)) k)))) }
{
    let _sort = terms.sort(id);
    let mut together = all;
    for address in 0..1u64 << address_width {
        let bits = bits_of_word(masks, address);
        together = and_word_within(terms, together, id, address_width, width, address, bits)?;
    }
    Ok(together)
}

/// Whether a condition holds, and a register has no bits but those that count.
fn and_register(
    terms: &mut Terms,
    all: TermId,
    id: TermId,
    bits: &RegisterBits,
) -> Result<TermId, NoMemory>
    requires all { IsTermOf terms.old all.0 truth }
    requires register { (s : PureSort) × IsTermOf terms.old id.0 s × IsTrue (are_bits_of s (counted_bits bits.now)) }
    ensures extended { IsExtended terms.old terms.new }
    ensures told { IfOk result (λ r. Tells terms.new r.0
        (λ v. IsTrue (is_true terms.old all.0 v) × IsWithinMasks bits.now.masks.items (val (tree terms.old id.0) v))) }
{
    match terms.sort(id) {
        Sort::Truth => unreachable!(),
        Sort::Word(width) => and_within(terms, all, id, width, bits.masks[0]),
        Sort::Memory(address_width, width) => {
            and_words_within(terms, all, id, address_width, width, &bits.masks)
        }
    }
}

/// Puts the condition that what does not count of the registers of a design is 0, where these are their terms: bits that no clocked block
/// may assign, and words past the last of a memory. Words all of whose bits count take no terms.
pub(crate) fn put_rest(
    terms: &mut Terms,
    design: &Design,
    registers: &[TermId],
) -> Result<TermId, NoMemory>
    requires registers { AreTermsFor terms.old (registers_of (parts_of design.now)) registers.now }
    ensures extended { IsExtended terms.old terms.new }
    ensures told { IfOk result (λ r. Tells terms.new r.0 (λ v. IsRestZero (parts_of design.now) (worths terms.old registers.now v))) }
{
    let mut all = constant(terms, true)?;
    for place in 0..registers.len() {
        all = and_register(terms, all, registers[place], &design.bits[place])?;
    }
    Ok(all)
}

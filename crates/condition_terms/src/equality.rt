//! Whether terms are equal to others, or to values. Memories are compared word by word.

ghost use Rattle.std.specs.Prelude.{◌≡◌, ◌<◌, ◌^◌, ℕ, false, IfOk, slice_index};
ghost use Rattle.wb_values.specs.Value.{Sort as PureSort, truth, word, memory, truth_value, number, words, HasSort, as_words};
ghost use Rattle.model_meaning.specs.Term.{val};
ghost use Rattle.wb_terms.specs.Graph.{tree};
ghost use Rattle.wb_terms.specs.Environment.{as_value};
ghost use Rattle.term_copies.specs.Copies.{IsExtended};
ghost use Rattle.condition_terms.specs.Told.{IsTermOf, Tells, IsNoMemory};

use crate::NoMemory;
use crate::conditions::{both, constant, negation};
use crate::nodes::put;
use wb_terms::{Node, Sort, TermId, Terms, Value};

/// Whether two terms of one sort are equal.
pub fn equal(terms: &mut Terms, left: TermId, right: TermId) -> Result<TermId, NoMemory>
    requires { (s : PureSort) × IsTermOf terms.old left.0 s × IsTermOf terms.old right.0 s }
    ensures extended { IsExtended terms.old terms.new }
    ensures told { IfOk result (λ r. Tells terms.new r.0 (λ v. val (tree terms.old left.0) v ≡ val (tree terms.old right.0) v)) }
{
    match terms.sort(left) {
        Sort::Memory(address_width, _) => equal_memories(terms, left, right, address_width),
        _ => equal_numbers(terms, left, right),
    }
}

/// Whether two truth values or words are equal.
fn equal_numbers(terms: &mut Terms, left: TermId, right: TermId) -> Result<TermId, NoMemory>
    requires { (s : PureSort) × IsTermOf terms.old left.0 s × IsTermOf terms.old right.0 s × IsNoMemory s }
    ensures extended { IsExtended terms.old terms.new }
    ensures told { IfOk result (λ r. Tells terms.new r.0 (λ v. val (tree terms.old left.0) v ≡ val (tree terms.old right.0) v)) }
{
    let id = put(terms, Node::Eq(left, right))?;
    Ok(id)
}

/// Whether two memories are equal.
fn equal_memories(
    terms: &mut Terms,
    left: TermId,
    right: TermId,
    address_width: u32,
) -> Result<TermId, NoMemory>
    requires { (d : ℕ) × IsTermOf terms.old left.0 (memory address_width d) × IsTermOf terms.old right.0 (memory address_width d) }
    ensures extended { IsExtended terms.old terms.new }
    ensures told { IfOk result (λ r. Tells terms.new r.0 (λ v. val (tree terms.old left.0) v ≡ val (tree terms.old right.0) v)) }
{
    let _sort = terms.sort(left);
    let mut all = constant(terms, true)?;
    for address in 0..1u64 << address_width {
        let here = equal_words(terms, left, right, address_width, address)?;
        all = both(terms, all, here)?;
    }
    Ok(all)
}

/// Whether two memories are equal at an address.
fn equal_words(
    terms: &mut Terms,
    left: TermId,
    right: TermId,
    address_width: u32,
    address: u64,
) -> Result<TermId, NoMemory>
    requires sorts { (d : ℕ) × IsTermOf terms.old left.0 (memory address_width d) × IsTermOf terms.old right.0 (memory address_width d) }
    requires address { address < 2 ^ address_width }
    ensures extended { IsExtended terms.old terms.new }
    ensures told { IfOk result (λ r. Tells terms.new r.0
        (λ v. slice_index (as_words (val (tree terms.old left.0) v)) address ≡ slice_index (as_words (val (tree terms.old right.0) v)) address)) }
{
    let first = word_at(terms, left, address_width, address)?;
    let second = word_at(terms, right, address_width, address)?;
    let id = equal_numbers(terms, first, second)?;
    Ok(id)
}

/// The word of a memory at an address.
pub(crate) fn word_at(
    terms: &mut Terms,
    id: TermId,
    address_width: u32,
    address: u64,
) -> Result<TermId, NoMemory>
    requires sort { (d : ℕ) × IsTermOf terms.old id.0 (memory address_width d) }
    requires address { address < 2 ^ address_width }
    ensures extended { IsExtended terms.old terms.new }
    ensures word { IfOk result (λ r. (d : ℕ) → IsTermOf terms.old id.0 (memory address_width d) → IsTermOf terms.new r.0 (word d)) }
    ensures value { IfOk result (λ r. (v : _) → val (tree terms.new r.0) v ≡ number (slice_index (as_words (val (tree terms.old id.0) v)) address)) }
{
    let _sort = terms.sort(id);
    let place = put(terms, Node::Const(address_width, u128::from(address)))?;
    let word = put(terms, Node::Load(id, place))?;
    Ok(word)
}

/// Whether a term has a value of its sort.
pub fn has_value(terms: &mut Terms, id: TermId, value: &Value) -> Result<TermId, NoMemory>
    requires { (s : PureSort) × IsTermOf terms.old id.0 s × HasSort (as_value value.now) s }
    ensures extended { IsExtended terms.old terms.new }
    ensures told { IfOk result (λ r. Tells terms.new r.0 (λ v. val (tree terms.old id.0) v ≡ as_value value.now)) }
{
    match (value, terms.sort(id)) {
        (Value::Truth(true), _) => Ok(id),
        (Value::Truth(false), _) => is_false(terms, id),
        (Value::Number(number), Sort::Word(width)) => has_number(terms, id, width, *number),
        (Value::Words(words), Sort::Memory(address_width, width)) => {
            has_words(terms, id, address_width, width, words)
        }
        _ => unreachable!(),
    }
}

/// Whether a truth value is false.
fn is_false(terms: &mut Terms, id: TermId) -> Result<TermId, NoMemory>
    requires { IsTermOf terms.old id.0 truth }
    ensures extended { IsExtended terms.old terms.new }
    ensures told { IfOk result (λ r. Tells terms.new r.0 (λ v. val (tree terms.old id.0) v ≡ truth_value false)) }
{
    let id = negation(terms, id)?;
    Ok(id)
}

/// Whether a word is a number.
fn has_number(terms: &mut Terms, id: TermId, width: u32, value: u128) -> Result<TermId, NoMemory>
    requires sort { IsTermOf terms.old id.0 (word width) }
    requires fits { value < 2 ^ width }
    ensures extended { IsExtended terms.old terms.new }
    ensures told { IfOk result (λ r. Tells terms.new r.0 (λ v. val (tree terms.old id.0) v ≡ number value)) }
{
    let _sort = terms.sort(id);
    let wanted = put(terms, Node::Const(width, value))?;
    let id = equal_numbers(terms, id, wanted)?;
    Ok(id)
}

/// Whether a memory has these words.
fn has_words(
    terms: &mut Terms,
    id: TermId,
    address_width: u32,
    width: u32,
    wanted: &[u128],
) -> Result<TermId, NoMemory>
    requires sort { IsTermOf terms.old id.0 (memory address_width width) }
    requires fits { HasSort (words wanted.now) (memory address_width width) }
    ensures extended { IsExtended terms.old terms.new }
    ensures told { IfOk result (λ r. Tells terms.new r.0 (λ v. val (tree terms.old id.0) v ≡ words wanted.now)) }
{
    let mut all = constant(terms, true)?;
    for address in 0..wanted.len() {
        let here = has_word(
            terms,
            id,
            address_width,
            width,
            address as u64,
            wanted[address],
        )?;
        all = both(terms, all, here)?;
    }
    Ok(all)
}

/// Whether a memory has a word at an address.
fn has_word(
    terms: &mut Terms,
    id: TermId,
    address_width: u32,
    width: u32,
    address: u64,
    wanted: u128,
) -> Result<TermId, NoMemory>
    requires sort { IsTermOf terms.old id.0 (memory address_width width) }
    requires address { address < 2 ^ address_width }
    requires fits { wanted < 2 ^ width }
    ensures extended { IsExtended terms.old terms.new }
    ensures told { IfOk result (λ r. Tells terms.new r.0 (λ v. slice_index (as_words (val (tree terms.old id.0) v)) address ≡ wanted)) }
{
    let here = word_at(terms, id, address_width, address)?;
    let id = has_number(terms, here, width, wanted)?;
    Ok(id)
}

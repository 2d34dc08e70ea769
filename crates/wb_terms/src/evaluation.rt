//! The value of a term under an environment, term by term in ascending order.

ghost use Rattle.std.specs.Prelude.{◌≡◌, ◌+◌, ◌<◌, ◌≤◌, ℕ, length, slice_index, cond, if◌then◌else◌, ◌==◌, IfOk, IsTrue};
ghost use Rattle.wb_values.specs.Value.{HasSort, numeral_of, as_words};
ghost use Rattle.model_meaning.specs.Term.{is_sort, sort_of};
ghost use Rattle.wb_terms.specs.Sort.{as_sort};
ghost use Rattle.wb_terms.specs.Graph.{tree};
ghost use Rattle.wb_terms.specs.Environment.{Fits, as_value, value_of, HasSortOf, IsAddressOf};
ghost use Rattle.wb_terms.specs.Held.{IsHeldBy, AreHeld};
ghost use Rattle.wb_terms.specs.Walk.{word_in, word_width, IsReadAs};

use crate::NoMemory;
use crate::nodes::{Node, TermId};
use crate::sorts::Sort;
use crate::store::Terms;
use crate::values::{Env, Value};
use std::alloc::Global;
use std::marker::Model;
use wb_bits::Word;

/// Room for the evaluation of terms: one word for each term that the store had when it was made.
/// Contracts see for how many terms it has room.
#[derive(Drop)]
pub struct Scratch {
    words: Vec<Word>,
}

impl Model for Scratch {
    ghost use Rattle.std.specs.Prelude.{ℕ, vec_len};

    ghost Value = { ℕ };

    ghost view = { λ s. vec_len s.words };
}

impl Scratch {
    /// Room for as many terms as the store has.
    pub fn new(alloc: Global, terms: &Terms) -> Result<Scratch, NoMemory>
        ensures { IfOk result (λ scratch. scratch ≡ length terms.now.nodes) }
    {
        let words = vec![in alloc; Word::new(1, 0); terms.len() as usize]?;
        Ok(Scratch { words })
    }
}

/// The value of a truth value, as 0 or 1, or of a word under an environment. A memory has no number: it gives 0.
pub fn eval(terms: &Terms, env: &Env, scratch: &mut Scratch, id: TermId) -> u128
    requires id { id.0 < length terms.now.nodes }
    requires room { length terms.now.nodes ≤ scratch.old }
    requires fits { Fits terms.now env.now }
    ensures value { result ≡ numeral_of (value_of terms.now env.now id.0) }
    ensures sorted { HasSortOf (value_of terms.now env.now id.0) (sort_of (tree terms.now id.0)) }
    ensures room { scratch.new ≡ scratch.old }
{
    let words = &mut scratch.words;
    fill(terms, env, words, id);
    words[id.0].value
}

/// The word at an address of the value of a memory under an environment.
pub fn eval_at(terms: &Terms, env: &Env, scratch: &mut Scratch, id: TermId, address: u64) -> u128
    requires id { id.0 < length terms.now.nodes }
    requires room { length terms.now.nodes ≤ scratch.old }
    requires fits { Fits terms.now env.now }
    requires address { IsAddressOf address (sort_of (tree terms.now id.0)) }
    ensures value { result ≡ slice_index (as_words (value_of terms.now env.now id.0)) address }
    ensures sorted { HasSortOf (value_of terms.now env.now id.0) (sort_of (tree terms.now id.0)) }
    ensures room { scratch.new ≡ scratch.old }
{
    let words = &mut scratch.words;
    fill(terms, env, words, id);
    word_at(terms, env, words, id, address).value
}

/// Evaluates the terms up to the last one, by ascending id.
fn fill(terms: &Terms, env: &Env, words: &mut [Word], last: TermId)
    requires id { last.0 < length terms.now.nodes }
    requires room { length terms.now.nodes ≤ length words.old }
    requires fits { Fits terms.now env.now }
    ensures { AreHeld terms.now env.now words.new (last.0 + 1) }
{
    for k in 0..last.0 + 1 {
        words[k] = word_of(terms, env, words, TermId(k));
    }
}

/// The value of a term as a word, by those of the earlier terms.
pub(crate) fn word_of(terms: &Terms, env: &Env, words: &[Word], id: TermId) -> Word
    requires id { id.0 < length terms.now.nodes }
    requires room { length terms.now.nodes ≤ length words.now }
    requires fits { Fits terms.now env.now }
    requires earlier { AreHeld terms.now env.now words.now id.0 }
    ensures { IsHeldBy (sort_of (tree terms.now id.0)) (value_of terms.now env.now id.0) result.width result.value }
{
    match *terms.node(id) {
        Node::Name(name) => word_of_value(&env.values[name.0], terms.name_sort(name)),
        Node::Truth(truth) => truth_word(truth),
        Node::Const(width, value) => Word::new(width, value),
        Node::Not(x) => wb_bits::not(words[x.0]),
        Node::And(x, y) => wb_bits::and(words[x.0], words[y.0]),
        Node::Or(x, y) => wb_bits::or(words[x.0], words[y.0]),
        Node::Xor(x, y) => wb_bits::xor(words[x.0], words[y.0]),
        Node::Neg(x) => wb_bits::neg(words[x.0]),
        Node::Add(x, y) => wb_bits::add(words[x.0], words[y.0]),
        Node::Sub(x, y) => wb_bits::sub(words[x.0], words[y.0]),
        Node::Mul(x, y) => wb_bits::mul(words[x.0], words[y.0]),
        Node::Shl(x, y) => wb_bits::shl(words[x.0], words[y.0]),
        Node::Lshr(x, y) => wb_bits::lshr(words[x.0], words[y.0]),
        Node::Ashr(x, y) => wb_bits::ashr(words[x.0], words[y.0]),
        Node::Eq(x, y) => truth_word(wb_bits::eq(words[x.0], words[y.0])),
        Node::Ult(x, y) => truth_word(wb_bits::ult(words[x.0], words[y.0])),
        Node::Ule(x, y) => truth_word(wb_bits::ule(words[x.0], words[y.0])),
        Node::Slt(x, y) => truth_word(wb_bits::slt(words[x.0], words[y.0])),
        Node::Sle(x, y) => truth_word(wb_bits::sle(words[x.0], words[y.0])),
        Node::Concat(x, y) => wb_bits::concat(words[x.0], words[y.0]),
        Node::Extract(high, low, x) => wb_bits::extract(high, low, words[x.0]),
        Node::Zext(width, x) => wb_bits::zext(width, words[x.0]),
        Node::Sext(width, x) => wb_bits::sext(width, words[x.0]),
        Node::Ite(condition, x, y) => choice(words[condition.0], words[x.0], words[y.0]),
        Node::Load(memory, address) => {
            word_at(terms, env, words, memory, words[address.0].value as u64)
        }
        Node::Store(_, _, _) => truth_word(false),
    }
}

/// A truth value as a word of one bit.
fn truth_word(truth: bool) -> Word
    ensures width { result.width ≡ 1 }
    ensures value { result.value ≡ cond truth 1 0 }
{
    Word::new(1, u128::from(truth))
}

/// The first word where the condition is true, else the second.
fn choice(condition: Word, x: Word, y: Word) -> Word
    ensures { result ≡ (if condition.value == 1 then x else y) }
{
    if condition.value == 1 { x } else { y }
}

/// A name's value as a word.
fn word_of_value(value: &Value, sort: Sort) -> Word
    requires in_range { IsTrue (is_sort (as_sort sort)) }
    requires sort { HasSort (as_value value.now) (as_sort sort) }
    ensures { IsHeldBy (Some (as_sort sort)) (as_value value.now) result.width result.value }
{
    match (value, sort) {
        (Value::Truth(truth), _) => truth_word(*truth),
        (Value::Number(number), Sort::Word(width)) => Word::new(width, *number),
        _ => truth_word(false),
    }
}

/// What one step of a read of a memory finds: the word, or the earlier memory that has it.
enum Read {
    Found(Word),
    In(TermId),
}

/// The word of a memory at an address, by the words of the earlier terms.
pub(crate) fn word_at(terms: &Terms, env: &Env, words: &[Word], id: TermId, address: u64) -> Word
    requires id { id.0 < length terms.now.nodes }
    requires room { length terms.now.nodes ≤ length words.now }
    requires fits { Fits terms.now env.now }
    requires earlier { AreHeld terms.now env.now words.now (id.0 + 1) }
    requires address { IsAddressOf address (sort_of (tree terms.now id.0)) }
    ensures width { result.width ≡ word_width (sort_of (tree terms.now id.0)) }
    ensures value { result.value ≡ word_in terms.now env.now id.0 address }
{
    let mut memory = id;
    loop {
        match read_step(terms, env, words, memory, address) {
            Read::Found(word) => return word,
            Read::In(earlier) => memory = earlier,
        }
    }
}

/// Looks for the word of a memory at an address in its node alone.
fn read_step(terms: &Terms, env: &Env, words: &[Word], id: TermId, address: u64) -> Read
    requires id { id.0 < length terms.now.nodes }
    requires room { length terms.now.nodes ≤ length words.now }
    requires fits { Fits terms.now env.now }
    requires earlier { AreHeld terms.now env.now words.now (id.0 + 1) }
    requires address { IsAddressOf address (sort_of (tree terms.now id.0)) }
    ensures { IsReadAs terms.now env.now id.0 address result }
{
    match *terms.node(id) {
        Node::Store(_, place, x) if words[place.0].value == u128::from(address) => {
            Read::Found(words[x.0])
        }
        Node::Store(memory, _, _) => Read::In(memory),
        Node::Ite(condition, x, _) if words[condition.0].value == 1 => Read::In(x),
        Node::Ite(_, _, y) => Read::In(y),
        Node::Name(name) => Read::Found(word_of_memory(
            &env.values[name.0],
            terms.name_sort(name),
            address,
        )),
        _ => unreachable!(),
    }
}

/// The word at an address of a name's value.
fn word_of_memory(value: &Value, sort: Sort, address: u64) -> Word
    requires in_range { IsTrue (is_sort (as_sort sort)) }
    requires sort { HasSort (as_value value.now) (as_sort sort) }
    requires address { IsAddressOf address (Some (as_sort sort)) }
    ensures width { result.width ≡ word_width (Some (as_sort sort)) }
    ensures value { result.value ≡ slice_index (as_words (as_value value.now)) address }
{
    match (value, sort) {
        (Value::Words(words), Sort::Memory(_, width)) => Word::new(width, words[address as usize]),
        _ => unreachable!(),
    }
}

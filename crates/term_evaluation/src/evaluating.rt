//! Terms evaluated at values of the names, each with those that it stands on: of each a word, and of a memory a link into the pool.

ghost use Rattle.std.specs.Prelude.{ℕ, ◌≡◌, ◌<◌, ◌≤◌, ◌-◌, [], ◌∷◌, ◌++◌, if◌then◌else◌, ◌==◌, cond, IfOk, OnOk, OnErr, IsTrue, IsSome, Some, length, slice_index, slice_index_or, slice_set, take};
ghost use Rattle.sparse_memories.specs.Memories.{Keeps};
ghost use Rattle.wb_values.specs.Value.{HasSort};
ghost use Rattle.model_meaning.specs.Term.{is_sort, sort_of};
ghost use Rattle.wb_terms.specs.Sort.{as_sort};
ghost use Rattle.wb_terms.specs.Graph.{tree, tree_of_node, operands_of, AllBelow, IsOver};
ghost use Rattle.wb_terms.specs.Environment.{AreOfSorts};
ghost use Rattle.wb_terms.specs.Held.{IsHeldBy};
ghost use Rattle.wb_terms.specs.Walk.{word_width};
ghost use Rattle.term_evaluation.specs.Slots.{AreSlotsOf, IsSlotOf, value_in, values_in};
ghost use Rattle.term_evaluation.specs.Links.{value_at, link_at, IsLinkTo, IsLinkOf, IsTreeOf, IsMemoryOf, words_at_link, AreWordsHeld, AreLinksHeld};
ghost use Rattle.term_evaluation.specs.Pending.{stamp_at, AreNotAfter, AreStamped, first_open_of, ArePending, IsFor, work_left, AreKept};

use crate::NoMemory;
use crate::slots::{Slot, load_in, store_in};
use sparse_memories::{Memory, Pool};
use wb_bits::Word;
use wb_terms::{NameId, Node, Sort, TermId, Terms};

/// Evaluates a term, and first those that it stands on and that do not have the time as their stamp.
pub(crate) fn fill_term(
    terms: &Terms,
    names: &[Slot],
    words: &mut [Word],
    links: &mut [Memory],
    stamps: &mut [u64],
    time: u64,
    pending: &mut Vec<TermId>,
    pool: &mut Pool,
    id: TermId,
) -> Result<(), NoMemory>
    requires id { id.0 < length terms.now.nodes }
    requires slots { AreSlotsOf pool.old names.now }
    requires fits { AreOfSorts terms.now.names (values_in pool.old names.now) }
    requires kept { AreKept terms.now (values_in pool.old names.now) pool.old words.old links.old stamps.old time }
    ensures done { OnOk result (stamp_at stamps.new id.0 ≡ time) }
    ensures kept { AreKept terms.now (values_in pool.old names.now) pool.new words.new links.new stamps.new time }
    ensures keeps { Keeps pool.old pool.new }
    ensures past { AreNotAfter time stamps.old → AreNotAfter time stamps.new }
{
    pending.truncate(0);
    if stamps[id.0] == time {
        return Ok(());
    }
    pending.push(id)?;
    while !pending.is_empty() {
        go_on(terms, names, words, links, stamps, time, pending, pool)?;
    }
    Ok(())
}

/// Evaluates the last pending term, or makes pending the first of its operands that was not evaluated.
fn go_on(
    terms: &Terms,
    names: &[Slot],
    words: &mut [Word],
    links: &mut [Memory],
    stamps: &mut [u64],
    time: u64,
    pending: &mut Vec<TermId>,
    pool: &mut Pool,
) -> Result<(), NoMemory>
    requires some { 0 < length pending.old.items }
    requires pending { ArePending stamps.old time (length terms.now.nodes) pending.old.items }
    requires slots { AreSlotsOf pool.old names.now }
    requires fits { AreOfSorts terms.now.names (values_in pool.old names.now) }
    requires kept { AreKept terms.now (values_in pool.old names.now) pool.old words.old links.old stamps.old time }
    ensures pending { OnOk result (ArePending stamps.new time (length terms.now.nodes) pending.new.items) }
    ensures first { OnOk result ((k : ℕ) → IsFor stamps.old time k pending.old.items → IsFor stamps.new time k pending.new.items) }
    ensures less { OnOk result (work_left stamps.new time (length terms.now.nodes) pending.new.items < work_left stamps.old time (length terms.now.nodes) pending.old.items) }
    ensures kept { AreKept terms.now (values_in pool.old names.now) pool.new words.new links.new stamps.new time }
    ensures keeps { Keeps pool.old pool.new }
    ensures past { AreNotAfter time stamps.old → AreNotAfter time stamps.new }
{
    let top = last_of(pending);
    let node = *terms.node(top);
    match first_open(stamps, time, node) {
        Some(operand) => pending.push(operand)?,
        None => {
            evaluate(terms, names, words, links, stamps, time, pool, top, node)?;
            drop_last(pending);
        }
    }
    Ok(())
}

/// The last of the terms.
fn last_of(pending: &Vec<TermId>) -> TermId
    requires { 0 < length pending.now.items }
    ensures { pending.now.items ≡ take (length pending.now.items - 1) pending.now.items ++ result ∷ [] }
{
    pending[pending.len() - 1]
}

/// Takes the last of the terms out.
fn drop_last(pending: &mut Vec<TermId>)
    requires { 0 < length pending.old.items }
    ensures { pending.new.items ≡ take (length pending.old.items - 1) pending.old.items }
{
    pending.truncate(pending.len() - 1);
}

/// The first operand of a node that was not evaluated at the time.
fn first_open(stamps: &[u64], time: u64, node: Node) -> Option<TermId>
    requires { AllBelow (length stamps.now) (operands_of node) }
    ensures { result ≡ first_open_of stamps.now time (operands_of node) }
{
    match node {
        Node::Name(_) | Node::Truth(_) | Node::Const(_, _) => None,
        Node::Not(x)
        | Node::Neg(x)
        | Node::Extract(_, _, x)
        | Node::Zext(_, x)
        | Node::Sext(_, x) => open_or(stamps, time, x, None),
        Node::And(x, y)
        | Node::Or(x, y)
        | Node::Xor(x, y)
        | Node::Add(x, y)
        | Node::Sub(x, y)
        | Node::Mul(x, y)
        | Node::Shl(x, y)
        | Node::Lshr(x, y)
        | Node::Ashr(x, y)
        | Node::Eq(x, y)
        | Node::Ult(x, y)
        | Node::Ule(x, y)
        | Node::Slt(x, y)
        | Node::Sle(x, y)
        | Node::Concat(x, y)
        | Node::Load(x, y) => open_or(stamps, time, x, open_or(stamps, time, y, None)),
        Node::Ite(x, y, z) | Node::Store(x, y, z) => {
            let last = open_or(stamps, time, z, None);
            open_or(stamps, time, x, open_or(stamps, time, y, last))
        }
    }
}

/// The term, if it was not evaluated at the time, else the other one.
fn open_or(stamps: &[u64], time: u64, id: TermId, other: Option<TermId>) -> Option<TermId>
    requires { id.0 < length stamps.now }
    ensures { result ≡ cond (stamp_at stamps.now id.0 == time) other (Some id) }
{
    if stamps[id.0] == time {
        return other;
    }
    Some(id)
}

/// Evaluates a term whose operands were evaluated at the time.
fn evaluate(
    terms: &Terms,
    names: &[Slot],
    words: &mut [Word],
    links: &mut [Memory],
    stamps: &mut [u64],
    time: u64,
    pool: &mut Pool,
    id: TermId,
    node: Node,
) -> Result<(), NoMemory>
    requires id { id.0 < length terms.now.nodes }
    requires tree { tree terms.now id.0 ≡ tree_of_node terms.now node }
    requires over { IsOver terms.now id.0 node }
    requires sorted { IsSome (sort_of (tree terms.now id.0)) }
    requires operands { AreStamped stamps.old time (operands_of node) }
    requires slots { AreSlotsOf pool.old names.now }
    requires fits { AreOfSorts terms.now.names (values_in pool.old names.now) }
    requires kept { AreKept terms.now (values_in pool.old names.now) pool.old words.old links.old stamps.old time }
    ensures ok { OnOk result (stamps.new ≡ slice_set stamps.old id.0 time) }
    ensures err { OnErr result (stamps.new ≡ stamps.old) }
    ensures kept { AreKept terms.now (values_in pool.old names.now) pool.new words.new links.new stamps.new time }
    ensures keeps { Keeps pool.old pool.new }
{
    let word = word_of(terms, names, words, links, pool, id, node);
    let link = link_of(terms, names, words, links, pool, id, node)?;
    words[id.0] = word;
    links[id.0] = link;
    stamps[id.0] = time;
    Ok(())
}

/// The value of a term as a word, by what is kept of its operands.
fn word_of(
    terms: &Terms,
    names: &[Slot],
    words: &[Word],
    links: &[Memory],
    pool: &Pool,
    id: TermId,
    node: Node,
) -> Word
    requires id { id.0 < length terms.now.nodes }
    requires tree { tree terms.now id.0 ≡ tree_of_node terms.now node }
    requires over { IsOver terms.now id.0 node }
    requires sorted { IsSome (sort_of (tree terms.now id.0)) }
    requires room { length terms.now.nodes ≤ length words.now }
    requires links { length terms.now.nodes ≤ length links.now }
    requires slots { AreSlotsOf pool.now names.now }
    requires fits { AreOfSorts terms.now.names (values_in pool.now names.now) }
    requires words { AreWordsHeld terms.now (values_in pool.now names.now) words.now (operands_of node) }
    requires memories { AreLinksHeld terms.now (values_in pool.now names.now) pool.now links.now (operands_of node) }
    ensures { IsHeldBy (sort_of (tree terms.now id.0)) (value_at terms.now (values_in pool.now names.now) id.0) result.width result.value }
{
    match node {
        Node::Name(name) => {
            let slot = slot_of_name(names, name);
            word_of_slot(pool, slot, terms.name_sort(name))
        }
        Node::Truth(truth) => truth_word(truth),
        Node::Const(width, value) => Word::new(width, value),
        Node::Not(x) => wb_bits::not(words[x.0]),
        Node::And(x, y) => wb_bits::and(words[x.0], words[y.0]),
        Node::Or(x, y) => wb_bits::or(words[x.0], words[y.0]),
        Node::Xor(x, y) => wb_bits::xor(words[x.0], words[y.0]),
        Node::Neg(x) => wb_bits::neg(words[x.0]),
        Node::Add(x, y) => wb_bits::add(words[x.0], words[y.0]),
        Node::Sub(x, y) => wb_bits::sub(words[x.0], words[y.0]),
        Node::Mul(x, y) => wb_bits::mul(words[x.0], words[y.0]),
        Node::Shl(x, y) => wb_bits::shl(words[x.0], words[y.0]),
        Node::Lshr(x, y) => wb_bits::lshr(words[x.0], words[y.0]),
        Node::Ashr(x, y) => wb_bits::ashr(words[x.0], words[y.0]),
        Node::Eq(x, y) => truth_word(wb_bits::eq(words[x.0], words[y.0])),
        Node::Ult(x, y) => truth_word(wb_bits::ult(words[x.0], words[y.0])),
        Node::Ule(x, y) => truth_word(wb_bits::ule(words[x.0], words[y.0])),
        Node::Slt(x, y) => truth_word(wb_bits::slt(words[x.0], words[y.0])),
        Node::Sle(x, y) => truth_word(wb_bits::sle(words[x.0], words[y.0])),
        Node::Concat(x, y) => wb_bits::concat(words[x.0], words[y.0]),
        Node::Extract(high, low, x) => wb_bits::extract(high, low, words[x.0]),
        Node::Zext(width, x) => wb_bits::zext(width, words[x.0]),
        Node::Sext(width, x) => wb_bits::sext(width, words[x.0]),
        Node::Ite(condition, x, y) => choice(words[condition.0], words[x.0], words[y.0]),
        Node::Load(memory, address) => {
            let link = kept_link(links, memory);
            let place = kept_word(words, address);
            loaded(pool, terms.sort(memory), link, place)
        }
        Node::Store(_, _, _) => truth_word(false),
    }
}

/// The memory of a term's value, by what is kept of its operands. What is no memory gets zeros.
fn link_of(
    terms: &Terms,
    names: &[Slot],
    words: &[Word],
    links: &[Memory],
    pool: &mut Pool,
    id: TermId,
    node: Node,
) -> Result<Memory, NoMemory>
    requires id { id.0 < length terms.now.nodes }
    requires tree { tree terms.now id.0 ≡ tree_of_node terms.now node }
    requires over { IsOver terms.now id.0 node }
    requires sorted { IsSome (sort_of (tree terms.now id.0)) }
    requires room { length terms.now.nodes ≤ length words.now }
    requires links { length terms.now.nodes ≤ length links.now }
    requires slots { AreSlotsOf pool.old names.now }
    requires fits { AreOfSorts terms.now.names (values_in pool.old names.now) }
    requires words { AreWordsHeld terms.now (values_in pool.old names.now) words.now (operands_of node) }
    requires memories { AreLinksHeld terms.now (values_in pool.old names.now) pool.old links.now (operands_of node) }
    ensures link { IfOk result (IsLinkTo pool.new (sort_of (tree terms.now id.0)) (value_at terms.now (values_in pool.old names.now) id.0)) }
    ensures keeps { Keeps pool.old pool.new }
{
    match node {
        Node::Name(name) => {
            let slot = slot_of_name(names, name);
            let _sort = terms.name_sort(name);
            Ok(link_of_slot(pool, slot))
        }
        Node::Ite(condition, x, y) => {
            let truth = kept_word(words, condition);
            let first = kept_link(links, x);
            let second = kept_link(links, y);
            Ok(chosen(truth, first, second))
        }
        Node::Store(memory, address, x) => {
            let old = kept_link(links, memory);
            let place = kept_word(words, address);
            let word = kept_word(words, x);
            let stored = store_to(pool, terms.sort(id), old, place, word)?;
            Ok(stored)
        }
        _ => Ok(pool.zeros()),
    }
}

/// The value of a name.
fn slot_of_name(names: &[Slot], name: NameId) -> Slot
    requires { name.0 < length names.now }
    ensures { result ≡ slice_index_or names.now name.0 result }
{
    names[name.0]
}

/// The word that is kept of a term.
fn kept_word(words: &[Word], id: TermId) -> Word
    requires { id.0 < length words.now }
    ensures { result ≡ slice_index_or words.now id.0 result }
{
    words[id.0]
}

/// The memory that is kept of a term.
fn kept_link(links: &[Memory], id: TermId) -> Memory
    requires { id.0 < length links.now }
    ensures { result ≡ link_at links.now id.0 }
{
    links[id.0]
}

/// A slot's value as a word.
fn word_of_slot(pool: &Pool, slot: Slot, sort: Sort) -> Word
    requires in_range { IsTrue (is_sort (as_sort sort)) }
    requires sort { HasSort (value_in pool.now slot) (as_sort sort) }
    ensures { IsHeldBy (Some (as_sort sort)) (value_in pool.now slot) result.width result.value }
{
    let _ = pool;
    match (slot, sort) {
        (Slot::Truth(truth), _) => truth_word(truth),
        (Slot::Number(number), Sort::Word(width)) => Word::new(width, number),
        _ => truth_word(false),
    }
}

/// The memory of a slot, or zeros.
fn link_of_slot(pool: &Pool, slot: Slot) -> Memory
    requires { IsSlotOf pool.now slot }
    ensures { IsLinkOf pool.now (value_in pool.now slot) result }
{
    match slot {
        Slot::Memory(_, memory) => memory,
        _ => pool.zeros(),
    }
}

/// The word of a memory of a sort at an address. Past the last word it is 0.
fn loaded(pool: &Pool, sort: Sort, link: Memory, address: Word) -> Word
    requires memory { IsMemoryOf pool.now (as_sort sort) link }
    ensures width { result.width ≡ word_width (Some (as_sort sort)) }
    ensures value { result.value ≡ slice_index (words_at_link pool.now (as_sort sort) link) address.value }
{
    match sort {
        Sort::Memory(depth, width) => {
            let word = load_in(pool, depth, link, address.value);
            Word::new(width, word)
        }
        _ => unreachable!(),
    }
}

/// A memory of a sort with the word at an address replaced. Past the last word nothing is.
fn store_to(
    pool: &mut Pool,
    sort: Sort,
    link: Memory,
    address: Word,
    word: Word,
) -> Result<Memory, NoMemory>
    requires memory { IsTreeOf pool.old (as_sort sort) link }
    ensures memory { IfOk result (IsTreeOf pool.new (as_sort sort)) }
    ensures words { IfOk result (λ m. words_at_link pool.new (as_sort sort) m ≡ slice_set (words_at_link pool.old (as_sort sort) link) address.value word.value) }
    ensures keeps { Keeps pool.old pool.new }
{
    match sort {
        Sort::Memory(depth, _) => {
            let stored = store_in(pool, depth, link, address.value, word.value)?;
            Ok(stored)
        }
        _ => unreachable!(),
    }
}

/// A truth value as a word of one bit.
fn truth_word(truth: bool) -> Word
    ensures width { result.width ≡ 1 }
    ensures value { result.value ≡ cond truth 1 0 }
{
    Word::new(1, u128::from(truth))
}

/// The first word where the condition is true, else the second.
fn choice(condition: Word, x: Word, y: Word) -> Word
    ensures { result ≡ (if condition.value == 1 then x else y) }
{
    if condition.value == 1 { x } else { y }
}

/// The first memory where the condition is true, else the second.
fn chosen(condition: Word, x: Memory, y: Memory) -> Memory
    ensures { result ≡ (if condition.value == 1 then x else y) }
{
    if condition.value == 1 { x } else { y }
}

//! Values kept with their memories as links into a pool.

ghost use Rattle.std.specs.Prelude.{◌≡◌, ◌≤◌, ◌↔◌, ◌^◌, IfOk, IsTrue, slice_index, slice_set};
ghost use Rattle.sparse_memories.specs.Memories.{IsMemory, words_of, Keeps};
ghost use Rattle.sparse_memories.specs.Copying.{AreCopies};
ghost use Rattle.wb_values.specs.Value.{HasSort};
ghost use Rattle.model_meaning.specs.Term.{is_sort};
ghost use Rattle.wb_terms.specs.Sort.{as_sort};
ghost use Rattle.wb_terms.specs.Environment.{as_value};
ghost use Rattle.term_evaluation.specs.Slots.{value_in, values_in, IsSlotOf, AreSlotsOf, zero_of, with_number, IsShownAs};

use crate::NoMemory;
use sparse_memories::{Copies, Memory, Pool, SetWord};
use std::alloc::Global;
use wb_terms::{Sort, Value};

/// A value. A memory is a link into a pool, for addresses of so many bits.
#[derive(Clone, Copy)]
pub(crate) enum Slot {
    Truth(bool),
    Number(u128),
    Memory(u32, Memory),
}

/// What is shown of a value.
#[derive(Drop)]
pub enum Shown {
    /// A truth value.
    Truth(bool),
    /// The unsigned number of a word.
    Number(u128),
    /// The words of a memory other than 0, by ascending address.
    Words(Vec<SetWord>),
}

/// How many nodes of a pool a store takes at most: one for each bit of an address, and one for the word.
const NODES_OF_A_STORE: usize = 17;

/// How many words a memory has.
fn word_count(depth: u32) -> u64
    requires { depth ≤ 16 }
    ensures { result ≡ 2 ^ depth }
{
    1u64 << depth
}

/// The memory with the word at an address replaced. Past the last word nothing is.
pub(crate) fn store_in(
    pool: &mut Pool,
    depth: u32,
    memory: Memory,
    address: u128,
    word: u128,
) -> Result<Memory, NoMemory>
    requires depth { depth ≤ 16 }
    requires memory { IsMemory pool.old depth memory }
    ensures memory { IfOk result (λ m. IsMemory pool.new depth m) }
    ensures words { IfOk result (λ m. words_of pool.new depth m ≡ slice_set (words_of pool.old depth memory) address word) }
    ensures keeps { Keeps pool.old pool.new }
{
    if u128::from(word_count(depth)) <= address {
        return Ok(memory);
    }
    pool.reserve(NODES_OF_A_STORE)?;
    Ok(pool.store(depth, memory, address as u64, word))
}

/// The word of a memory at an address. Past the last word it is 0.
pub(crate) fn load_in(pool: &Pool, depth: u32, memory: Memory, address: u128) -> u128
    requires depth { depth ≤ 16 }
    requires memory { IsMemory pool.now depth memory }
    ensures { result ≡ slice_index (words_of pool.now depth memory) address }
{
    if u128::from(word_count(depth)) <= address {
        return 0;
    }
    pool.load(depth, memory, address as u64)
}

/// False, the number 0, or a memory whose words are 0.
pub(crate) fn zero_slot(pool: &Pool, sort: Sort) -> Slot
    requires { IsTrue (is_sort (as_sort sort)) }
    ensures slot { IsSlotOf pool.now result }
    ensures value { value_in pool.now result ≡ zero_of (as_sort sort) }
{
    match sort {
        Sort::Truth => Slot::Truth(false),
        Sort::Word(_) => Slot::Number(0),
        Sort::Memory(depth, _) => Slot::Memory(depth, pool.zeros()),
    }
}

/// The slot of a value of a sort.
pub(crate) fn slot_of(pool: &mut Pool, value: &Value, sort: Sort) -> Result<Slot, NoMemory>
    requires in_range { IsTrue (is_sort (as_sort sort)) }
    requires sort { HasSort (as_value value.now) (as_sort sort) }
    ensures slot { IfOk result (IsSlotOf pool.new) }
    ensures value { IfOk result (λ s. value_in pool.new s ≡ as_value value.now) }
    ensures keeps { Keeps pool.old pool.new }
{
    match (value, sort) {
        (Value::Truth(truth), _) => Ok(Slot::Truth(*truth)),
        (Value::Number(number), _) => Ok(Slot::Number(*number)),
        (Value::Words(words), Sort::Memory(depth, _)) => {
            let memory = pool.from_words(depth, words)?;
            Ok(Slot::Memory(depth, memory))
        }
        _ => unreachable!(),
    }
}

/// The slot with one word set.
pub(crate) fn with_word(
    pool: &mut Pool,
    slot: Slot,
    word: u64,
    number: u128,
) -> Result<Slot, NoMemory>
    requires { IsSlotOf pool.old slot }
    ensures slot { IfOk result (IsSlotOf pool.new) }
    ensures value { IfOk result (λ s. value_in pool.new s ≡ with_number (value_in pool.old slot) word number) }
    ensures keeps { Keeps pool.old pool.new }
{
    match slot {
        Slot::Truth(_) => Ok(Slot::Truth(0 < number)),
        Slot::Number(_) => Ok(Slot::Number(number)),
        Slot::Memory(depth, memory) => {
            let stored = store_in(pool, depth, memory, u128::from(word), number)?;
            Ok(Slot::Memory(depth, stored))
        }
    }
}

/// The slot of the same value in another pool.
fn copy_slot(to: &mut Pool, from: &Pool, copies: &mut Copies, slot: Slot) -> Result<Slot, NoMemory>
    requires slot { IsSlotOf from.now slot }
    requires copies { AreCopies copies.old from.now.nodes to.old.nodes }
    ensures slot { IfOk result (IsSlotOf to.new) }
    ensures value { IfOk result (λ s. value_in to.new s ≡ value_in from.now slot) }
    ensures keeps { Keeps to.old to.new }
    ensures copies { AreCopies copies.new from.now.nodes to.new.nodes }
{
    match slot {
        Slot::Truth(truth) => Ok(Slot::Truth(truth)),
        Slot::Number(number) => Ok(Slot::Number(number)),
        Slot::Memory(depth, memory) => {
            let copy = to.copy_of(from, copies, depth, memory)?;
            Ok(Slot::Memory(depth, copy))
        }
    }
}

/// The slots of the same values in another pool.
pub(crate) fn copy_slots(
    alloc: Global,
    to: &mut Pool,
    from: &Pool,
    copies: &mut Copies,
    slots: &Vec<Slot>,
) -> Result<Vec<Slot>, NoMemory>
    requires slots { AreSlotsOf from.now slots.now.items }
    requires copies { AreCopies copies.old from.now.nodes to.old.nodes }
    ensures slots { IfOk result (λ v. AreSlotsOf to.new v.items) }
    ensures values { IfOk result (λ v. values_in to.new v.items ≡ values_in from.now slots.now.items) }
    ensures keeps { Keeps to.old to.new }
    ensures copies { AreCopies copies.new from.now.nodes to.new.nodes }
{
    let mut copied = Vec::with_capacity(alloc, slots.len())?;
    for k in 0..slots.len() {
        let here = slots[k];
        let slot = copy_slot(to, from, copies, here)?;
        copied.push(slot)?;
    }
    Ok(copied)
}

/// What is shown of a slot.
pub(crate) fn shown_slot(alloc: Global, pool: &Pool, slot: Slot) -> Result<Shown, NoMemory>
    requires { IsSlotOf pool.now slot }
    ensures { IfOk result (IsShownAs (value_in pool.now slot)) }
{
    match slot {
        Slot::Truth(truth) => Ok(Shown::Truth(truth)),
        Slot::Number(number) => Ok(Shown::Number(number)),
        Slot::Memory(depth, memory) => {
            let words = pool.set_words(alloc, depth, memory)?;
            Ok(Shown::Words(words))
        }
    }
}

/// Whether two memories, each of its pool, have the same words.
fn is_same_memory(
    pool: &Pool,
    depth: u32,
    memory: Memory,
    other: &Pool,
    other_depth: u32,
    other_memory: Memory,
) -> bool
    requires depth { depth ≤ 16 }
    requires memory { IsMemory pool.now depth memory }
    requires other_memory { IsMemory other.now other_depth other_memory }
    ensures { IsTrue result ↔ (words_of pool.now depth memory ≡ words_of other.now other_depth other_memory) }
{
    if depth != other_depth {
        return false;
    }
    pool.is_same_as(depth, memory, other, other_memory)
}

/// Whether two slots, each of its pool, have the same value.
pub(crate) fn is_same_slot(pool: &Pool, slot: Slot, other: &Pool, there: Slot) -> bool
    requires slot { IsSlotOf pool.now slot }
    requires there { IsSlotOf other.now there }
    ensures { IsTrue result ↔ (value_in pool.now slot ≡ value_in other.now there) }
{
    match (slot, there) {
        (Slot::Truth(x), Slot::Truth(y)) => x == y,
        (Slot::Number(x), Slot::Number(y)) => x == y,
        (Slot::Memory(depth, memory), Slot::Memory(other_depth, other_memory)) => {
            is_same_memory(pool, depth, memory, other, other_depth, other_memory)
        }
        _ => false,
    }
}

/// Whether the words of a memory from an address on are those of a list from there on.
fn has_words(pool: &Pool, depth: u32, memory: Memory, words: &[u128]) -> bool
    requires depth { depth ≤ 16 }
    requires memory { IsMemory pool.now depth memory }
    ensures { IsTrue result ↔ (words_of pool.now depth memory ≡ words.now) }
{
    if words.len() as u64 != word_count(depth) {
        return false;
    }
    for k in 0..words.len() {
        if load_in(pool, depth, memory, k as u128) != words[k] {
            return false;
        }
    }
    true
}

/// Whether a slot has a value.
pub(crate) fn is_value(pool: &Pool, slot: Slot, value: &Value) -> bool
    requires { IsSlotOf pool.now slot }
    ensures { IsTrue result ↔ (value_in pool.now slot ≡ as_value value.now) }
{
    match (slot, value) {
        (Slot::Truth(x), Value::Truth(y)) => x == *y,
        (Slot::Number(x), Value::Number(y)) => x == *y,
        (Slot::Memory(depth, memory), Value::Words(words)) => has_words(pool, depth, memory, words),
        _ => false,
    }
}

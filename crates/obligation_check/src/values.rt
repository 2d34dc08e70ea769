//! The values of a run, from values of a store in which each word of a memory has a name of its own.

ghost use Rattle.std.specs.Prelude.{◌≡◌, ℕ, ◌+◌, ◌*◌, ◌<◌, ◌≤◌, map, length, take, vec_len, IfOk};
ghost use Rattle.wb_values.specs.Value.{as_number};
ghost use Rattle.wb_terms.specs.Environment.{as_value};
ghost use Rattle.ob_mem.specs.Words.{entry_at, listed, word_count};
ghost use Rattle.obligation_check.specs.Gathered.{number_at, gathered_value, gathered_values, words_in};
ghost use Rattle.obligation_check.specs.Found.{numbers_at};

use crate::NoMemory;
use std::alloc::Global;
use wb_terms::{Env, NameId, Sort, Terms, Value};

/// Values of a run of a design: those of its first registers, and the numbers of its inputs at each cycle, in the design's orders.
#[derive(Drop)]
pub struct RunValues {
    pub registers: Vec<Value>,
    pub inputs: Vec<Vec<u128>>,
}

/// The number of a word. What is no word counts as 0.
fn number_of(value: &Value) -> u128
    ensures { result ≡ as_number (as_value value.now) }
{
    match value {
        Value::Number(number) => *number,
        Value::Truth(_) => 0,
        Value::Words(_) => 0,
    }
}

/// The numbers of so many names, from a first one on.
fn numbers(alloc: Global, values: &Env, first: usize, count: usize) -> Result<Vec<u128>, NoMemory>
    requires { first + count ≤ vec_len values.now.values }
    ensures { IfOk result (λ numbers. numbers.items ≡ listed (number_at values.now first) count) }
{
    let mut numbers = Vec::with_capacity(alloc, count)?;
    for place in 0..count {
        numbers.push(number_of(&values.values[first + place]))?;
    }
    Ok(numbers)
}

/// How many words a value of the sort has, if it is a memory.
fn word_count(terms: &Terms, name: NameId) -> usize
    requires { name.0 < length terms.now.names }
    ensures { result ≡ word_count (entry_at terms.now.names name.0).1 }
{
    match terms.name_sort(name) {
        Sort::Memory(address_width, _) => 1usize << address_width,
        _ => 0,
    }
}

/// The value of a name. The words of a memory have names from a start on.
fn value(
    alloc: Global,
    terms: &Terms,
    values: &Env,
    name: NameId,
    start: usize,
) -> Result<Value, NoMemory>
    requires name { name.0 < length terms.now.names }
    requires place { name.0 < vec_len values.now.values }
    requires words { start + word_count (entry_at terms.now.names name.0).1 ≤ vec_len values.now.values }
    ensures { IfOk result (λ x. as_value x ≡ gathered_value values.now (entry_at terms.now.names name.0).1 name.0 start) }
{
    match terms.name_sort(name) {
        Sort::Memory(address_width, _) => {
            let words = numbers(alloc, values, start, 1usize << address_width)?;
            Ok(Value::Words(words))
        }
        _ => Ok(Value::Number(number_of(&values.values[name.0]))),
    }
}

/// The values of the first so many names.
fn registers(
    alloc: Global,
    terms: &Terms,
    values: &Env,
    count: usize,
) -> Result<Vec<Value>, NoMemory>
    requires count { count ≤ length terms.now.names }
    requires words { length terms.now.names + words_in (take count terms.now.names) ≤ vec_len values.now.values }
    ensures { IfOk result (λ xs. map as_value xs.items
        ≡ gathered_values values.now 0 (length terms.now.names) (take count terms.now.names)) }
{
    let mut list = Vec::with_capacity(alloc, count)?;
    let mut start = terms.name_count() as usize;
    for place in 0..count {
        let name = NameId(place);
        list.push(value(alloc, terms, values, name, start)?)?;
        start += word_count(terms, name);
    }
    Ok(list)
}

/// The numbers of the names from a first one on, so many for each cycle.
fn inputs(
    alloc: Global,
    values: &Env,
    first: usize,
    count: usize,
    cycles: u64,
) -> Result<Vec<Vec<u128>>, NoMemory>
    requires { first + cycles * count ≤ vec_len values.now.values }
    ensures count { IfOk result (λ list. length list.items ≡ cycles) }
    ensures numbers { IfOk result (λ list. (t : ℕ) → t < cycles → numbers_at list.items t ≡ listed (number_at values.now (first + t * count)) count) }
{
    let mut list = Vec::new(alloc);
    let mut next = first;
    for cycle in 0..cycles {
        list.push(numbers(alloc, values, next, count)?)?;
        next += count;
    }
    Ok(list)
}

/// The values of a run of so many cycles: of the first names of a store, which are registers, and of the others, which are inputs at
/// each cycle. The values are those of the store in which each word of a memory has a name, after the names of the first.
pub(crate) fn run_values(
    alloc: Global,
    terms: &Terms,
    values: &Env,
    registers: usize,
    inputs: usize,
    cycles: u64,
) -> Result<RunValues, NoMemory>
    requires names { registers + cycles * inputs ≡ length terms.now.names }
    requires words { length terms.now.names + words_in (take registers terms.now.names) ≤ vec_len values.now.values }
    ensures registers { IfOk result (λ x. map as_value x.registers.items
        ≡ gathered_values values.now 0 (length terms.now.names) (take registers terms.now.names)) }
    ensures count { IfOk result (λ x. length x.inputs.items ≡ cycles) }
    ensures inputs { IfOk result (λ x. (t : ℕ) → t < cycles
        → numbers_at x.inputs.items t ≡ listed (number_at values.now (registers + t * inputs)) inputs) }
{
    let first = crate::values::registers(alloc, terms, values, registers)?;
    let later = crate::values::inputs(alloc, values, registers, inputs, cycles)?;
    Ok(RunValues {
        registers: first,
        inputs: later,
    })
}

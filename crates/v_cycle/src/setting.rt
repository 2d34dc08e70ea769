//! Values set in place, so that a cycle takes no memory.

ghost use Rattle.std.specs.Prelude.{◌≡◌, ◌<◌, ◌+◌, ◌++◌, List, length, map, take, slice_index_or, slice_set};
ghost use Rattle.wb_values.specs.Value as meaning;
ghost use Rattle.wb_values.specs.Value.{as_words, number};
ghost use Rattle.model_meaning.specs.Term.{is_memory_sort, sort_of};
ghost use Rattle.wb_terms.specs.Sort.{as_sort};
ghost use Rattle.wb_terms.specs.Graph.{tree};
ghost use Rattle.wb_terms.specs.Environment.{Fits, HasSortOf, as_value, value_of, values_of};
ghost use Rattle.wb_terms.specs.Held.{Holds};
ghost use Rattle.v_cycle.specs.Changing.{changed_at, IsListed};
ghost use Rattle.v_cycle.specs.Setting.{AreOfTerms, HasRoomFor, IsMemory};
ghost use Rattle.v_cycle.specs.Next.{values_of_terms};

use crate::chain::note_chain;
use crate::changes::{Change, Changes, Stored, make};
use wb_terms::{Env, Evaluated, Sort, TermId, Terms, Value};

/// Sets the numbers from a place on to the end.
pub(crate) fn set_numbers(values: &mut [Value], first: usize, numbers: &[u128])
    requires { first + length numbers.now ≡ length values.old }
    ensures { map as_value values.new ≡ take first (map as_value values.old) ++ map number numbers.now }
{
    for k in 0..numbers.len() {
        values[first + k] = Value::Number(numbers[k]);
    }
}

/// Gives words the values of a memory's.
fn set_words(list: &mut [u128], terms: &Terms, env: &Env, words: &Evaluated, id: TermId)
    requires id { id.0 < length terms.now.nodes }
    requires holds { Holds terms.now env.now words.now }
    requires fits { Fits terms.now env.now }
    requires room { HasRoomFor (length list.old) (sort_of (tree terms.now id.0)) }
    ensures words { list.new ≡ as_words (value_of terms.now env.now id.0) }
    ensures sorted { HasSortOf (value_of terms.now env.now id.0) (sort_of (tree terms.now id.0)) }
{
    for address in 0..list.len() {
        list[address] = words.word_at(terms, env, id, address as u64);
    }
}

/// Gives a memory all words of a term's value.
fn set_all(value: &mut Value, terms: &Terms, env: &Env, words: &Evaluated, id: TermId)
    requires id { id.0 < length terms.now.nodes }
    requires holds { Holds terms.now env.now words.now }
    requires fits { Fits terms.now env.now }
    requires memory { IsMemory (sort_of (tree terms.now id.0)) }
    requires sorted { HasSortOf (as_value value.old) (sort_of (tree terms.now id.0)) }
    ensures { as_value value.new ≡ value_of terms.now env.now id.0 }
{
    match value {
        Value::Words(list) => set_words(list, terms, env, words, id),
        _ => unreachable!(),
    }
}

/// Makes the stores of the chain in a register, from the first one on.
fn make_chain(values: &mut [Value], changes: &mut Changes, register: usize)
    ensures values { map as_value values.new ≡ changed_at (map as_value values.old) register changes.old.chain.items }
    ensures listed { (xs : List meaning.Value) → IsListed changes.old xs (map as_value values.old) → IsListed changes.new xs (map as_value values.new) }
{
    while let Some(stored) = changes.chain.pop() {
        make(values, changes, Change { register, stored });
    }
}

/// Gives a register the value of a memory term: by the term's stores alone, where they are made in the register's own value.
fn set_memory(
    values: &mut [Value],
    changes: &mut Changes,
    terms: &Terms,
    env: &Env,
    words: &Evaluated,
    id: TermId,
    register: usize,
)
    requires id { id.0 < length terms.now.nodes }
    requires holds { Holds terms.now env.now words.now }
    requires fits { Fits terms.now env.now }
    requires memory { IsMemory (sort_of (tree terms.now id.0)) }
    requires register { register < length values.old }
    requires own { slice_index_or (map as_value values.old) register (number 0) ≡ slice_index_or (values_of env.now) register (number 0) }
    requires sorted { HasSortOf (slice_index_or (map as_value values.old) register (number 0)) (sort_of (tree terms.now id.0)) }
    ensures values { map as_value values.new ≡ slice_set (map as_value values.old) register (value_of terms.now env.now id.0) }
    ensures listed { (xs : List meaning.Value) → IsListed changes.old xs (map as_value values.old) → IsListed changes.new xs (map as_value values.new) }
{
    if note_chain(changes, terms, env, words, id, register) {
        make_chain(values, changes, register);
    } else {
        changes.is_complete = false;
        set_all(&mut values[register], terms, env, words, id);
    }
}

/// Whether values of the sort are those of memories.
fn is_memory(sort: Sort) -> bool
    ensures { result ≡ is_memory_sort (as_sort sort) }
{
    match sort {
        Sort::Truth | Sort::Word(_) => false,
        Sort::Memory(_, _) => true,
    }
}

/// Gives a register the value of a term.
fn set_register(
    values: &mut [Value],
    changes: &mut Changes,
    terms: &Terms,
    env: &Env,
    words: &Evaluated,
    id: TermId,
    register: usize,
)
    requires id { id.0 < length terms.now.nodes }
    requires holds { Holds terms.now env.now words.now }
    requires fits { Fits terms.now env.now }
    requires register { register < length values.old }
    requires own { slice_index_or (map as_value values.old) register (number 0) ≡ slice_index_or (values_of env.now) register (number 0) }
    requires sorted { HasSortOf (slice_index_or (map as_value values.old) register (number 0)) (sort_of (tree terms.now id.0)) }
    ensures values { map as_value values.new ≡ slice_set (map as_value values.old) register (value_of terms.now env.now id.0) }
    ensures listed { (xs : List meaning.Value) → IsListed changes.old xs (map as_value values.old) → IsListed changes.new xs (map as_value values.new) }
{
    if is_memory(terms.sort(id)) {
        set_memory(values, changes, terms, env, words, id, register);
    } else {
        let stored = Stored {
            address: 0,
            number: words.number(terms, env, id),
        };
        make(values, changes, Change { register, stored });
    }
}

/// Gives each register, whose values the names have, the value of its term.
pub(crate) fn set_next(
    values: &mut [Value],
    changes: &mut Changes,
    terms: &Terms,
    env: &Env,
    words: &Evaluated,
    next: &[TermId],
)
    requires holds { Holds terms.now env.now words.now }
    requires fits { Fits terms.now env.now }
    requires own { map as_value values.old ≡ take (length values.old) (values_of env.now) }
    requires sorted { AreOfTerms terms.now next.now (map as_value values.old) }
    ensures values { map as_value values.new ≡ values_of_terms terms.now env.now next.now }
    ensures listed { (xs : List meaning.Value) → IsListed changes.old xs (map as_value values.old) → IsListed changes.new xs (map as_value values.new) }
{
    for k in 0..next.len() {
        set_register(values, changes, terms, env, words, next[k], k);
    }
}

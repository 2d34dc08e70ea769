//! Settings put into lists of values.

ghost use Rattle.std.specs.Prelude.{◌≡◌, IfOk, IsTrue, map, slice_set};
ghost use Rattle.model_meaning.specs.Term.{is_sort};
ghost use Rattle.scripts.specs.Script.{with_word, zero_value};
ghost use Rattle.wb_terms.specs.Sort.{as_sort};
ghost use Rattle.wb_terms.specs.Environment.{as_value};
ghost use Rattle.ila_sim.specs.Outcomes.{with_set, with_all};

use crate::set::Set;
use std::alloc::Global;
use wb_terms::{NoMemory, Sort, Value};

/// False, the number 0, or a memory whose words are 0.
pub fn zero(alloc: Global, sort: Sort) -> Result<Value, NoMemory>
    requires { IsTrue (is_sort (as_sort sort)) }
    ensures { IfOk result (λ value. as_value value ≡ zero_value (as_sort sort)) }
{
    match sort {
        Sort::Truth => Ok(Value::Truth(false)),
        Sort::Word(_) => Ok(Value::Number(0)),
        Sort::Memory(address_width, _) => {
            let words = vec![in alloc; 0u128; 1usize << address_width]?;
            Ok(Value::Words(words))
        }
    }
}

/// Sets a word of a memory, where it is there.
fn set_in(words: &mut Vec<u128>, place: usize, number: u128)
    ensures { words.new.items ≡ slice_set words.old.items place number }
{
    if place < words.len() {
        words[place] = number;
    }
}

/// Sets one word of a value.
fn set_word(value: &mut Value, word: u64, number: u128)
    ensures { as_value value.new ≡ with_word (as_value value.old) word number }
{
    match value {
        Value::Truth(truth) => *truth = 0 < number,
        Value::Number(old) => *old = number,
        Value::Words(words) => set_in(words, word as usize, number),
    }
}

/// Makes one setting.
fn set(values: &mut Vec<Value>, set: &Set)
    ensures { map as_value values.new.items ≡ with_set (map as_value values.old.items) set.now }
{
    if set.place < values.len() {
        let value = &mut values[set.place];
        set_word(value, set.word, set.value);
    }
}

/// Makes all settings of a line.
pub fn set_all(values: &mut Vec<Value>, sets: &[Set])
    ensures { map as_value values.new.items ≡ with_all (map as_value values.old.items) sets.now }
{
    for one in sets {
        set(values, one);
    }
}

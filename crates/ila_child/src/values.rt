//! Values by themselves: copies of them, and the zero of a sort.

ghost use Rattle.std.specs.Prelude.{◌≡◌, ◌≤◌, ◌+◌, IfOk, IsTrue, map, length, take, drop};
ghost use Rattle.wb_values.specs.Value.{is_of_sort, all_below};
ghost use Rattle.model_meaning.specs.Term.{is_sort};
ghost use Rattle.wb_terms.specs.Sort.{as_sort};
ghost use Rattle.wb_terms.specs.Environment.{as_value};
ghost use Rattle.ila_model.specs.Meaning.{zero_of};
ghost use Rattle.ila_child.specs.Values.{beginning, are_of_sorts};

use std::alloc::Global;
use wb_bits::mask;
use wb_terms::{NameId, NoMemory, Sort, Terms, Value};

/// A copy of a value.
pub(crate) fn copy_of(value: &Value) -> Result<Value, NoMemory>
    ensures { IfOk result (λ copy. as_value copy ≡ as_value value.now) }
{
    match value {
        Value::Truth(truth) => Ok(Value::Truth(*truth)),
        Value::Number(number) => Ok(Value::Number(*number)),
        Value::Words(words) => Ok(Value::Words(words.clone()?)),
    }
}

/// False, the number 0, or a memory whose words are 0.
pub(crate) fn zero_of(alloc: Global, sort: Sort) -> Result<Value, NoMemory>
    requires { IsTrue (is_sort (as_sort sort)) }
    ensures { IfOk result (λ zero. as_value zero ≡ zero_of (as_sort sort)) }
{
    match sort {
        Sort::Truth => Ok(Value::Truth(false)),
        Sort::Word(_) => Ok(Value::Number(0)),
        Sort::Memory(address_width, _) => {
            let words = vec![in alloc; 0u128; 1usize << address_width]?;
            Ok(Value::Words(words))
        }
    }
}

/// The value with which a state of this sort begins: the stated one, if any, else the zero of the sort.
pub(crate) fn begun(alloc: Global, sort: Sort, initial: &Option<Value>) -> Result<Value, NoMemory>
    requires { IsTrue (is_sort (as_sort sort)) }
    ensures { IfOk result (λ value. as_value value ≡ beginning (as_sort sort) initial.now) }
{
    match initial {
        Some(value) => copy_of(value),
        None => zero_of(alloc, sort),
    }
}

/// Whether a value is one of a sort.
fn is_of_sort(value: &Value, sort: Sort) -> bool
    requires { IsTrue (is_sort (as_sort sort)) }
    ensures { result ≡ is_of_sort (as_sort sort) (as_value value.now) }
{
    match (value, sort) {
        (Value::Truth(_), Sort::Truth) => true,
        (Value::Number(number), Sort::Word(width)) => *number <= mask(width),
        (Value::Words(words), Sort::Memory(address_width, width)) => {
            words.len() == 1 << address_width && are_below(words, width)
        }
        _ => false,
    }
}

/// Whether each word has at most so many bits.
fn are_below(words: &[u128], width: u32) -> bool
    requires { width ≤ 128 }
    ensures { result ≡ all_below width words.now }
{
    for word in words {
        if mask(width) < *word {
            return false;
        }
    }
    true
}

/// Whether there is one value for each of so many names from a place of the table on, of its sort.
pub(crate) fn are_of_sorts(terms: &Terms, first: usize, count: usize, values: &[Value]) -> bool
    requires { first + count ≤ length terms.now.names }
    ensures { result ≡ are_of_sorts (take count (drop first terms.now.names)) (map as_value values.now) }
{
    if values.len() != count {
        return false;
    }
    let _names = terms.name_count();
    for (k, value) in values.iter().enumerate() {
        if !is_of_sort(value, terms.name_sort(NameId(first + k))) {
            return false;
        }
    }
    true
}

//! Names are declared in a store, and stand for themselves.

ghost use Rattle.std.specs.Prelude.{◌≡◌, ◌++◌, [], ◌∷◌, true, false, length, map, None, IfOk, IfSome, OnOk, option_map};
ghost use Rattle.model_meaning.specs.Term.{is_sort};
ghost use Rattle.wb_terms.specs.Sort.{as_sort};
ghost use Rattle.wb_terms.specs.Environment.{as_value};
ghost use Rattle.ila_file.specs.View.{sort_view, value_view, state_view, input_view, initial_view};
ghost use Rattle.ila_build.specs.Standing.{IsFresh, IsTable, under_name};
ghost use Rattle.ila_build.specs.Declaring.{state_entry, input_entry};
ghost use Rattle.ila_build.specs.Leaving.{IsLeft};
ghost use Rattle.ila_build.specs.Refusing.{IsUnrefused, are_sorts, entry_names};

use crate::putting::under_name;
use crate::table::remember;
use ila_file::{WrittenInput, WrittenSort, WrittenState, WrittenValue};
use std::alloc::Global;
use std::collections::BTreeMap;
use wb_terms::{NoMemory, Node, PutStop, Sort, TermId, Terms, Value};

/// A sort with the widths that are written, where these are small.
fn sort_of(sort: WrittenSort) -> Option<Sort>
    ensures some { IfSome result (λ s. as_sort s ≡ sort_view sort) }
    ensures none { result ≡ None → is_sort (sort_view sort) ≡ false }
{
    match sort {
        WrittenSort::Truth => Some(Sort::Truth),
        WrittenSort::Word(width) => {
            if width > 128 {
                return None;
            }
            Some(Sort::Word(width as u32))
        }
        WrittenSort::Memory(address_width, word_width) => {
            if address_width > 16 || word_width > 128 {
                return None;
            }
            Some(Sort::Memory(address_width as u32, word_width as u32))
        }
    }
}

/// Declares a name, and lets it stand for itself.
fn declare<'v>(
    alloc: Global,
    terms: &mut Terms,
    known: &mut BTreeMap<&'v [u8], TermId>,
    name: &'v str,
    sort: WrittenSort,
) -> Result<(), PutStop>
    requires { IsTable terms.old known.old }
    ensures names { OnOk result (terms.new.names ≡ terms.old.names ++ (name.now, sort_view sort) ∷ []) }
    ensures table { OnOk result (IsTable terms.new known.new) }
    ensures left { IsLeft terms.old known.old terms.new known.new (name.now ∷ []) 1 }
    ensures unrefused { IsUnrefused result ((under_name known.old name.now ≡ None) × (is_sort (sort_view sort) ≡ true)) }
{
    if under_name(known, name).is_some() {
        return Err(PutStop::BadSort);
    }
    let Some(sort) = sort_of(sort) else {
        return Err(PutStop::BadSort);
    };
    let Ok(text) = String::from_str(alloc, name) else {
        return Err(PutStop::NoMemory);
    };
    let id = terms.declare(text, sort)?;
    let term = terms.put(Node::Name(id))?;
    if remember(known, name, term).is_err() {
        return Err(PutStop::NoMemory);
    }
    Ok(())
}

/// Declares the names of states, in their order.
pub fn declare_states<'v>(
    alloc: Global,
    terms: &mut Terms,
    known: &mut BTreeMap<&'v [u8], TermId>,
    states: &[WrittenState<'v>],
) -> Result<(), PutStop>
    requires { IsTable terms.old known.old }
    ensures names { OnOk result (terms.new.names ≡ terms.old.names ++ map state_entry (map state_view states.now)) }
    ensures table { OnOk result (IsTable terms.new known.new) }
    ensures left { IsLeft terms.old known.old terms.new known.new (entry_names (map state_entry (map state_view states.now))) (length states.now) }
    ensures unrefused { IsUnrefused result (IsFresh known.old (entry_names (map state_entry (map state_view states.now))) × (are_sorts (map state_entry (map state_view states.now)) ≡ true)) }
{
    for state in states {
        declare(alloc, terms, known, state.name, state.sort)?;
    }
    Ok(())
}

/// Declares the names of inputs, in their order.
pub fn declare_inputs<'v>(
    alloc: Global,
    terms: &mut Terms,
    known: &mut BTreeMap<&'v [u8], TermId>,
    inputs: &[WrittenInput<'v>],
) -> Result<(), PutStop>
    requires { IsTable terms.old known.old }
    ensures names { OnOk result (terms.new.names ≡ terms.old.names ++ map input_entry (map input_view inputs.now)) }
    ensures table { OnOk result (IsTable terms.new known.new) }
    ensures left { IsLeft terms.old known.old terms.new known.new (entry_names (map input_entry (map input_view inputs.now))) (length inputs.now) }
    ensures unrefused { IsUnrefused result (IsFresh known.old (entry_names (map input_entry (map input_view inputs.now))) × (are_sorts (map input_entry (map input_view inputs.now)) ≡ true)) }
{
    for input in inputs {
        declare(alloc, terms, known, input.name, input.sort)?;
    }
    Ok(())
}

/// The initial value that is written.
fn value_of(value: WrittenValue) -> Value
    ensures { as_value result ≡ value_view value }
{
    match value {
        WrittenValue::Truth(truth) => Value::Truth(truth),
        WrittenValue::Number(number) => Value::Number(number),
    }
}

/// The initial value that a state states, if any.
fn initial_value(initial: Option<WrittenValue>) -> Option<Value>
    ensures { option_map as_value result ≡ initial_view initial }
{
    match initial {
        Some(value) => Some(value_of(value)),
        None => None,
    }
}

/// The initial values that states state, in their order.
pub fn initial_values(
    alloc: Global,
    states: &[WrittenState],
) -> Result<Vec<Option<Value>>, NoMemory>
    ensures { IfOk result (λ values. map (option_map as_value) values.items ≡ map (λ s. s.init) (map state_view states.now)) }
{
    let mut values = Vec::new(alloc);
    for state in states {
        values.push(initial_value(state.initial))?;
    }
    Ok(values)
}

//! The values that a trace gives to the registers and the inputs of a design.

ghost use Rattle.std.specs.Prelude.{◌≡◌, ◌<◌, [], IfOk, IsTrue, length, option_map, slice_index_or};
ghost use Rattle.serde_json.specs.Find.{as_array};
ghost use Rattle.serde_json.specs.View.{view, items_view};
ghost use Rattle.wb_values.specs.Value.{truth};
ghost use Rattle.model_meaning.specs.Term.{is_sort};
ghost use Rattle.wb_terms.specs.Environment.{as_value};
ghost use Rattle.wb_terms.specs.Sort.{as_sort};
ghost use Rattle.v_design.specs.Parts.{registers_of, inputs_of};
ghost use Rattle.v_design.specs.Seen.{parts_of, register_values};
ghost use Rattle.trace_reading.specs.Given.{cycles_given, cycles_of_items, inputs_given, number_given, numbers_listed, registers_given, register_given, value_given, with_zeros, words_given};
ghost use Rattle.trace_reading.specs.Numbers.{numbers_of_items};
ghost use Rattle.trace_reading.specs.Reading.{cycles_view};

use crate::data;
use crate::numbers::numeral_in;
use crate::tables::input_name;
use serde_json::Value;
use std::alloc::Global;
use v_design::{Design, Inputs, Registers};
use wb_terms::{NameId, NoMemory, Sort, Value as TermValue};

/// The number, or 0 where there is none.
fn number_given(given: Option<&Value>) -> u128
    ensures { result ≡ number_given (option_map (λ d. view d.now) given.entry) }
{
    match given {
        Some(value) => numeral_in(value).unwrap_or(0),
        None => 0,
    }
}

fn numbers_of_items(alloc: Global, items: &[Value]) -> Result<Vec<u128>, NoMemory>
    ensures { IfOk result (λ v. v.items ≡ numbers_of_items (items_view items.now)) }
{
    let mut numbers = Vec::new(alloc);
    for item in items {
        numbers.push(numeral_in(item).unwrap_or(0))?;
    }
    Ok(numbers)
}

/// The words that are given.
fn words_given(alloc: Global, given: Option<&Value>) -> Result<Vec<u128>, NoMemory>
    ensures { IfOk result (λ v. v.items ≡ words_given (option_map (λ d. view d.now) given.entry)) }
{
    match given {
        Some(value) => numbers_listed(alloc, value),
        None => Ok(Vec::new(alloc)),
    }
}

fn numbers_listed(alloc: Global, value: &Value) -> Result<Vec<u128>, NoMemory>
    ensures { IfOk result (λ v. v.items ≡ numbers_listed (as_array (view value.now))) }
{
    match value.as_array() {
        Some(items) => numbers_of_items(alloc, items),
        None => Ok(Vec::new(alloc)),
    }
}

/// Makes so many words of them, with zeros after those that are there.
fn with_zeros(mut words: Vec<u128>, count: usize) -> Result<Vec<u128>, NoMemory>
    ensures { IfOk result (λ v. v.items ≡ with_zeros count words.items) }
{
    words.resize(count, 0)?;
    Ok(words)
}

/// The value of a register of the sort, 0 where none is given.
fn value_given(alloc: Global, sort: Sort, given: Option<&Value>) -> Result<TermValue, NoMemory>
    requires { IsTrue (is_sort (as_sort sort)) }
    ensures { IfOk result (λ v. as_value v ≡ value_given (as_sort sort) (option_map (λ d. view d.now) given.entry)) }
{
    match sort {
        Sort::Truth => Ok(TermValue::Truth(false)),
        Sort::Word(_) => Ok(TermValue::Number(number_given(given))),
        Sort::Memory(address_width, _) => {
            let given = words_given(alloc, given)?;
            let words = with_zeros(given, 1usize << address_width)?;
            Ok(TermValue::Words(words))
        }
    }
}

/// The value of the register at a place.
fn register_given(
    alloc: Global,
    design: &Design,
    file: &Value,
    place: usize,
) -> Result<TermValue, NoMemory>
    requires { place < length (registers_of (parts_of design.now)) }
    ensures { IfOk result (λ v. as_value v ≡ register_given (view file.now) (slice_index_or (registers_of (parts_of design.now)) place ([], truth))) }
{
    let given = data::register_in(file, design.register_name(place));
    let value = value_given(alloc, design.terms.name_sort(NameId(place)), given)?;
    Ok(value)
}

/// The values of all registers, in the design's order.
pub(crate) fn registers_given(
    alloc: Global,
    design: &Design,
    file: &Value,
) -> Result<Registers, NoMemory>
    ensures { IfOk result (λ r. register_values r ≡ registers_given (parts_of design.now) (view file.now)) }
{
    let mut values = Vec::with_capacity(alloc, design.register_count())?;
    for place in 0..design.register_count() {
        values.push(register_given(alloc, design, file, place)?)?;
    }
    Ok(Registers { values })
}

/// The inputs of a cycle, in the design's order.
fn inputs_given(alloc: Global, design: &Design, cycle: &Value) -> Result<Inputs, NoMemory>
    ensures { IfOk result (λ i. i.numbers.items ≡ inputs_given (parts_of design.now) (view cycle.now)) }
{
    let mut numbers = Vec::with_capacity(alloc, design.input_count())?;
    for place in 0..design.input_count() {
        numbers.push(number_given(cycle.get(input_name(design, place))))?;
    }
    Ok(Inputs { numbers })
}

fn cycles_of_items(alloc: Global, design: &Design, items: &[Value]) -> Result<Vec<Inputs>, NoMemory>
    ensures { IfOk result (λ v. cycles_view v.items ≡ cycles_of_items (parts_of design.now) (items_view items.now)) }
{
    let mut cycles = Vec::new(alloc);
    for item in items {
        cycles.push(inputs_given(alloc, design, item)?)?;
    }
    Ok(cycles)
}

/// The inputs of each cycle.
pub(crate) fn cycles_given(
    alloc: Global,
    design: &Design,
    file: &Value,
) -> Result<Vec<Inputs>, NoMemory>
    ensures { IfOk result (λ v. cycles_view v.items ≡ cycles_given (parts_of design.now) (view file.now)) }
{
    match data::cycles(file) {
        Some(items) => cycles_of_items(alloc, design, items),
        None => Ok(Vec::new(alloc)),
    }
}

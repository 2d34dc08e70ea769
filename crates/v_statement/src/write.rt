//! Writing numbers to places of values.
ghost use Rattle.std.specs.Prelude.{◌≡◌, ◌≤◌, ◌<◌, ◌+◌, ◌^◌, OnOk, OnErr, length, slice_set, slice_index, vec_len, vec_capacity};
ghost use Rattle.verilog_meaning.specs.Expression.{object_width};
ghost use Rattle.verilog_meaning.specs.Statement.{with_bits, written_cell, written_place, written, places_width};
ghost use Rattle.v_value.specs.Narrow.{FitsObject, IsNarrowObject, HasNarrowObjects, HasFittingValues};
ghost use Rattle.v_value.specs.Scope.{object_of, scope_at, value_of_entry, valuation_at};
ghost use Rattle.v_statement.specs.Places.{bits_of, cell_of, place_of, places_of, index_from};

use crate::place::{Bits, Cell, Place, with_bits};
use std::alloc::{AllocError, Global};
use v_value::scope::{Entry, Object, Scope, Value, Values};
use v_value::width::object_width;

/// The index of the first entry under the name.
fn index_of(entries: &[Entry<'_>], name: &str) -> Option<usize>
    ensures { result ≡ index_from 0 entries.now name.now }
{
    for (index, entry) in entries.iter().enumerate() {
        if entry.name == name {
            return Some(index);
        }
    }
    None
}

/// Writes a number to some bits of a word of a memory with words of `width` bits. A word that is not there is not written.
fn write_word(width: u32, words: &mut Vec<u128>, index: u32, bits: Bits, number: u128)
    requires at_most_128 { width ≤ 128 }
    requires count_at_most_128 { bits.count ≤ 128 }
    requires fits { slice_index words.old.items index < 2 ^ width }
    ensures { words.new.items ≡ slice_set words.old.items index
        (with_bits width (slice_index words.old.items index) (bits_of bits) number) }
{
    let at = index as usize;
    if at < words.len() {
        words[at] = with_bits(width, words[at], bits, number);
    }
}

/// Writes a number to some bits of a cell.
fn write_cell(
    alloc: Global,
    object: Object,
    value: &mut Value,
    cell: Cell,
    bits: Bits,
    number: u128,
)
    requires narrow { IsNarrowObject (object_of object) }
    requires fits { FitsObject (object_of object) (value_of_entry value.old) }
    requires count_at_most_128 { bits.count ≤ 128 }
    ensures { value_of_entry value.new
        ≡ written_cell (object_of object) (value_of_entry value.old) (cell_of cell) (bits_of bits) number }
{
    let width = object_width(object);
    match cell {
        Cell::Variable => {
            let old = match value {
                Value::Number(old) => *old,
                Value::Words(_) => 0,
            };
            *value = Value::Number(with_bits(width, old, bits, number));
        }
        Cell::Word(index) => match value {
            Value::Words(words) => write_word(width, words, index, bits, number),
            Value::Number(_) => *value = Value::Words(Vec::new(alloc)),
        },
        Cell::Nowhere => {}
    }
}

/// Writes a number to a place, where there is room for one more entry.
fn write_place<'s>(
    alloc: Global,
    scope: &Scope<'_>,
    values: &mut Values<'s>,
    place: &Place<'s>,
    number: u128,
)
    requires narrow { HasNarrowObjects (scope_at scope.now) }
    requires fits { HasFittingValues (scope_at scope.now) (valuation_at values.old.entries.items) }
    requires count_at_most_128 { place.now.bits.count ≤ 128 }
    requires room { vec_len values.old.entries < vec_capacity values.old.entries }
    ensures written { valuation_at values.new.entries.items
        ≡ written_place (scope_at scope.now) (valuation_at values.old.entries.items) (place_of place.now) number }
    ensures room { vec_len values.new.entries ≤ vec_len values.old.entries + 1 }
    ensures capacity { vec_capacity values.old.entries ≤ vec_capacity values.new.entries }
{
    let object = scope.object(place.name);
    match index_of(&values.entries, place.name) {
        Some(index) => {
            let entry = &mut values.entries[index];
            write_cell(
                alloc,
                object,
                &mut entry.value,
                place.cell,
                place.bits,
                number,
            );
        }
        None => {
            let mut value = Value::Number(0);
            write_cell(alloc, object, &mut value, place.cell, place.bits, number);
            let name = place.name;
            if values.entries.push(Entry { name, value }).is_err() {
                unreachable!()
            }
        }
    }
}

/// Writes a number to places, where there is room for an entry for each.
fn write_in_room<'s>(
    alloc: Global,
    scope: &Scope<'_>,
    values: &mut Values<'s>,
    places: &[Place<'s>],
    number: u128,
)
    requires narrow { HasNarrowObjects (scope_at scope.now) }
    requires fits { HasFittingValues (scope_at scope.now) (valuation_at values.old.entries.items) }
    requires at_most_128 { places_width (places_of places.now) ≤ 128 }
    requires room { vec_len values.old.entries + length places.now ≤ vec_capacity values.old.entries }
    ensures { valuation_at values.new.entries.items
        ≡ written (scope_at scope.now) (valuation_at values.old.entries.items) (places_of places.now) number }
{
    let mut rest = number;
    for i in 0..places.len() {
        let place = &places[places.len() - 1 - i];
        write_place(alloc, scope, values, place, rest);
        rest = rest.checked_shr(place.bits.count).unwrap_or(0);
    }
}

/// Writes a number to places, the leftmost of which gets the high bits. When memory runs out, the values stay as they were.
pub fn write<'s>(
    alloc: Global,
    scope: &Scope<'_>,
    values: &mut Values<'s>,
    places: &[Place<'s>],
    number: u128,
) -> Result<(), AllocError>
    requires narrow { HasNarrowObjects (scope_at scope.now) }
    requires fits { HasFittingValues (scope_at scope.now) (valuation_at values.old.entries.items) }
    requires at_most_128 { places_width (places_of places.now) ≤ 128 }
    ensures written { OnOk result (valuation_at values.new.entries.items
        ≡ written (scope_at scope.now) (valuation_at values.old.entries.items) (places_of places.now) number) }
    ensures kept { OnErr result (values.new.entries.items ≡ values.old.entries.items) }
{
    values.entries.reserve(places.len())?;
    write_in_room(alloc, scope, values, places, number);
    Ok(())
}

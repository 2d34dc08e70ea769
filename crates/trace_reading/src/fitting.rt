//! Whether data is a trace of a design: its keys, its names and its values.

ghost use Rattle.std.specs.Prelude.{◌≡◌, ◌<◌, ◌≤◌, ◌&&◌, codes, is_none, length, slice_index};
ghost use Rattle.serde_json.specs.Find.{as_array, as_object};
ghost use Rattle.serde_json.specs.View.{view, items_view, members_view};
ghost use Rattle.map_files.specs.Shape.{read_under};
ghost use Rattle.wb_terms.specs.Sort.{as_sort};
ghost use Rattle.v_design.specs.Bits.{counted_bits};
ghost use Rattle.v_design.specs.Parts.{registers_of, inputs_of};
ghost use Rattle.v_design.specs.Seen.{parts_of};
ghost use Rattle.trace_texts.specs.Order.{has_set, is_traced, register_bits};
ghost use Rattle.trace_reading.specs.Fitting.{all_keep_to, are_cycles, are_registers, bits_of_input, cycle_fits, cycles_fit, has_trace_keys, has_width, input_named_fits, input_sort, inputs_fit, is_fitting, is_input_value, is_register_value, keeps_to, register_named_fits, registers_fit, words_keep_to};

use crate::data;
use crate::fault::Fault;
use crate::names::NamedDesign;
use crate::numbers::numeral_in;
use crate::tables::{input_place, input_sort, register_place};
use serde_json::{Map, Value};
use v_design::{Design, RegisterBits};
use wb_bits::mask;
use wb_terms::Sort;

/// Whether there is a number, all of whose bits are among those of the mask.
fn keeps_to(mask: u128, number: Option<u128>) -> bool
    ensures { result ≡ keeps_to mask number }
{
    match number {
        Some(number) => number & mask == number,
        None => false,
    }
}

/// Whether there are as many numbers as masks, each of which keeps to its mask.
fn all_keep_to(masks: &[u128], items: &[Value]) -> bool
    ensures { result ≡ all_keep_to masks.now (items_view items.now) }
{
    if masks.len() != items.len() {
        return false;
    }
    for (index, item) in items.iter().enumerate() {
        if !keeps_to(masks[index], numeral_in(item)) {
            return false;
        }
    }
    true
}

fn words_keep_to(masks: &[u128], value: &Value) -> bool
    ensures { result ≡ words_keep_to masks.now (as_array (view value.now)) }
{
    match value.as_array() {
        Some(items) => all_keep_to(masks, items),
        None => false,
    }
}

/// The bits that count of what is no memory.
fn first_mask(masks: &[u128]) -> u128
    ensures { result ≡ slice_index masks.now 0 }
{
    match masks {
        [first, ..] => *first,
        _ => 0,
    }
}

/// Whether the data is a value of a register with these bits, and what does not count of it is 0.
fn is_register_value(bits: &RegisterBits, value: &Value) -> bool
    ensures { result ≡ is_register_value (counted_bits bits.now) (view value.now) }
{
    if bits.least.is_some() {
        words_keep_to(&bits.masks, value)
    } else {
        keeps_to(first_mask(&bits.masks), numeral_in(value))
    }
}

/// Whether a bit of the register counts.
pub(crate) fn has_bits(bits: &RegisterBits) -> bool
    ensures { result ≡ has_set bits.now.masks.items }
{
    bits.masks.iter().any(|mask| *mask > 0)
}

/// Which bits count of the register at a place.
pub(crate) fn bits_at(design: &Design, place: usize) -> &RegisterBits
    requires { place < length (registers_of (parts_of design.now)) }
    ensures { counted_bits result.now ≡ register_bits (parts_of design.now) place }
{
    &design.bits[place]
}

fn register_fault<'v>(names: &NamedDesign<'_>, name: &'v str, value: &Value) -> Option<Fault<'v>>
    ensures { is_none result ≡ register_named_fits (parts_of names.now.design.now) name.now (view value.now) }
{
    match register_place(names, name) {
        Some(place) => register_fault_at(names.design, place, name, value),
        None => Some(Fault::register(name, "no register")),
    }
}

fn register_fault_at<'v>(
    design: &Design,
    place: usize,
    name: &'v str,
    value: &Value,
) -> Option<Fault<'v>>
    requires { place < length (registers_of (parts_of design.now)) }
    ensures { is_none result ≡ (is_traced (parts_of design.now) place && is_register_value (register_bits (parts_of design.now) place) (view value.now)) }
{
    let bits = bits_at(design, place);
    if !has_bits(bits) {
        return Some(Fault::register(name, "no register"));
    }
    if is_register_value(bits, value) {
        None
    } else {
        Some(Fault::register(name, "does not fit"))
    }
}

fn member_fault<'v>(names: &NamedDesign<'_>, members: &'v Map<String, Value>) -> Option<Fault<'v>>
    ensures { is_none result ≡ registers_fit (parts_of names.now.design.now) (members_view members.now.entries) }
{
    for (name, value) in members.iter() {
        if let Some(fault) = register_fault(names, name.as_str(), value) {
            return Some(fault);
        }
    }
    None
}

fn registers_fault<'v>(names: &NamedDesign<'_>, file: &'v Value) -> Option<Fault<'v>>
    ensures { is_none result ≡ are_registers (parts_of names.now.design.now) (read_under as_object (codes "registers") (view file.now)) }
{
    match data::registers(file) {
        Some(members) => member_fault(names, members),
        None => Some(Fault::key("registers", "no object")),
    }
}

/// The bits of an input.
fn bits_of_input(sort: Sort) -> u32
    ensures { result ≡ bits_of_input (as_sort sort) }
{
    match sort {
        Sort::Word(width) => width,
        _ => 0,
    }
}

/// Whether there is a number of so many bits.
fn has_width(width: u32, number: Option<u128>) -> bool
    requires { width ≤ 128 }
    ensures { result ≡ has_width width number }
{
    match number {
        Some(number) => number <= mask(width),
        None => false,
    }
}

fn input_fits(design: &Design, place: usize, value: &Value) -> bool
    requires { place < length (inputs_of (parts_of design.now)) }
    ensures { result ≡ is_input_value (input_sort (parts_of design.now) place) (view value.now) }
{
    let width = bits_of_input(input_sort(design, place));
    has_width(width, numeral_in(value))
}

fn input_fault<'v>(
    names: &NamedDesign<'_>,
    cycle: usize,
    name: &'v str,
    value: &Value,
) -> Option<Fault<'v>>
    ensures { is_none result ≡ input_named_fits (parts_of names.now.design.now) name.now (view value.now) }
{
    let Some(place) = input_place(names, name) else {
        return Some(Fault::input(cycle, name, "no input"));
    };
    if input_fits(names.design, place, value) {
        None
    } else {
        Some(Fault::input(cycle, name, "does not fit"))
    }
}

fn inputs_fault<'v>(
    names: &NamedDesign<'_>,
    cycle: usize,
    members: &'v Map<String, Value>,
) -> Option<Fault<'v>>
    ensures { is_none result ≡ inputs_fit (parts_of names.now.design.now) (members_view members.now.entries) }
{
    for (name, value) in members.iter() {
        if let Some(fault) = input_fault(names, cycle, name.as_str(), value) {
            return Some(fault);
        }
    }
    None
}

fn cycle_fault<'v>(names: &NamedDesign<'_>, cycle: usize, value: &'v Value) -> Option<Fault<'v>>
    ensures { is_none result ≡ cycle_fits (parts_of names.now.design.now) (as_object (view value.now)) }
{
    match value.as_object() {
        Some(members) => inputs_fault(names, cycle, members),
        None => Some(Fault::input(cycle, "", "no object")),
    }
}

fn item_fault<'v>(names: &NamedDesign<'_>, items: &'v [Value]) -> Option<Fault<'v>>
    ensures { is_none result ≡ cycles_fit (parts_of names.now.design.now) (items_view items.now) }
{
    for (cycle, item) in items.iter().enumerate() {
        if let Some(fault) = cycle_fault(names, cycle, item) {
            return Some(fault);
        }
    }
    None
}

fn cycles_fault<'v>(names: &NamedDesign<'_>, file: &'v Value) -> Option<Fault<'v>>
    ensures { is_none result ≡ are_cycles (parts_of names.now.design.now) (read_under as_array (codes "inputs") (view file.now)) }
{
    match data::cycles(file) {
        Some(items) => item_fault(names, items),
        None => Some(Fault::key("inputs", "no list")),
    }
}

fn key_fault(file: &Value) -> Option<Fault<'_>>
    ensures { is_none result ≡ has_trace_keys (view file.now) }
{
    if let Some(key) = data::other_key(file) {
        return Some(Fault::key(key, "no key of a trace"));
    }
    match data::obligation_name(file) {
        Some(_) => None,
        None => Some(Fault::key("obligation", "no text")),
    }
}

/// The first thing that keeps the data from being a trace of the design.
pub(crate) fn first_fault<'v>(names: &NamedDesign<'_>, file: &'v Value) -> Option<Fault<'v>>
    ensures { is_none result ≡ is_fitting (parts_of names.now.design.now) (view file.now) }
{
    if let Some(fault) = key_fault(file) {
        return Some(fault);
    }
    if let Some(fault) = registers_fault(names, file) {
        return Some(fault);
    }
    cycles_fault(names, file)
}

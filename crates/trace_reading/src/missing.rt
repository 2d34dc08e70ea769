//! What a trace leaves out.

ghost use Rattle.std.specs.Prelude.{◌≡◌, ◌<◌, ◌&&◌, ◌==◌, is_none, length};
ghost use Rattle.serde_json.specs.Events.{items_len};
ghost use Rattle.serde_json.specs.View.{view, items_view};
ghost use Rattle.v_design.specs.Parts.{registers_of, inputs_of};
ghost use Rattle.v_design.specs.Seen.{parts_of};
ghost use Rattle.trace_reading.specs.Fitting.{are_cycles_given, are_inputs_given, are_registers_given, is_full, is_input_given, is_register_given};

use crate::data;
use crate::fault::Fault;
use crate::fitting::{bits_at, has_bits};
use crate::tables::input_name;
use serde_json::Value;
use v_design::Design;

fn is_register_given(design: &Design, file: &Value, place: usize) -> bool
    requires { place < length (registers_of (parts_of design.now)) }
    ensures { result ≡ is_register_given (parts_of design.now) (view file.now) place }
{
    !has_bits(bits_at(design, place))
        || data::register_in(file, design.register_name(place)).is_some()
}

fn missing_register<'d>(design: &'d Design, file: &Value) -> Option<&'d str>
    ensures { is_none result ≡ are_registers_given (parts_of design.now) (view file.now) }
{
    for place in 0..design.register_count() {
        if !is_register_given(design, file, place) {
            return Some(design.register_name(place));
        }
    }
    None
}

fn is_input_given(design: &Design, cycle: &Value, place: usize) -> bool
    requires { place < length (inputs_of (parts_of design.now)) }
    ensures { result ≡ is_input_given (parts_of design.now) (view cycle.now) place }
{
    cycle.get(input_name(design, place)).is_some()
}

fn missing_input<'d>(design: &'d Design, cycle: &Value) -> Option<&'d str>
    ensures { is_none result ≡ are_inputs_given (parts_of design.now) (view cycle.now) }
{
    for place in 0..design.input_count() {
        if !is_input_given(design, cycle, place) {
            return Some(input_name(design, place));
        }
    }
    None
}

fn missing_in_cycles<'d>(design: &'d Design, items: &[Value]) -> Option<Fault<'d>>
    ensures { is_none result ≡ are_cycles_given (parts_of design.now) (items_view items.now) }
{
    for (cycle, item) in items.iter().enumerate() {
        if let Some(name) = missing_input(design, item) {
            return Some(Fault::input(cycle, name, "missing"));
        }
    }
    None
}

/// The first value that a trace of an obligation that speaks of so many cycles leaves out.
pub(crate) fn first_missing<'d>(design: &'d Design, file: &Value, cycles: u64) -> Option<Fault<'d>>
    ensures { is_none result ≡ is_full (parts_of design.now) cycles (view file.now) }
{
    if let Some(name) = missing_register(design, file) {
        return Some(Fault::register(name, "missing"));
    }
    match data::cycles(file) {
        Some(items) => missing_of_cycles(design, items, cycles),
        None => Some(Fault::key("inputs", "no list")),
    }
}

fn missing_of_cycles<'d>(design: &'d Design, items: &[Value], cycles: u64) -> Option<Fault<'d>>
    ensures { is_none result ≡ ((items_len (items_view items.now) == cycles) && are_cycles_given (parts_of design.now) (items_view items.now)) }
{
    if items.len() as u64 != cycles {
        return Some(Fault::key("inputs", "another number of cycles"));
    }
    missing_in_cycles(design, items)
}

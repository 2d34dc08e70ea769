//! From the bytes of a trace file to values for a design.

ghost use Rattle.std.specs.Prelude.{◌≡◌, ◌<◌, codes, length, IfOk, IfSome, Some};
ghost use Rattle.serde_json.specs.Find.{as_str};
ghost use Rattle.serde_json.specs.View.{view};
ghost use Rattle.map_files.specs.Shape.{read_under};
ghost use Rattle.v_design.specs.Seen.{parts_of};
ghost use Rattle.trace_reading.specs.Reading.{answer_view, gives, judged_data, judged_name, judged_place, obligation_place, reading_by_parts};
ghost use Rattle.trace_reading.specs.Given.{cycles_given, registers_given};
ghost use Rattle.trace_reading.specs.Told.{IsRead, HasValuesFor};

use crate::data;
use crate::fault::{Fault, no_document, refused, refused_by};
use crate::fitting::first_fault;
use crate::given::{cycles_given, registers_given};
use crate::missing::first_missing;
use crate::outcome::{FileTrace, TraceRead};
use crate::refusal::TraceRule;
use crate::tables::named;
use obligation_lists::Obligation;
use serde_json::Value;
use std::alloc::{AllocError, Global};
use v_design::Design;
use wb_terms::NoMemory;

/// Reads a trace file for a design and a list of obligations. It gives values for the registers and the inputs, or the first of the
/// rules, in their order, that refuses the file.
pub fn read_trace(
    alloc: Global,
    bytes: &[u8],
    design: &Design,
    obligations: &[Obligation<'_>],
) -> Result<TraceRead, NoMemory>
    ensures told { IfOk result (IsRead design.now obligations.now bytes.now) }
    ensures values { IfOk result (HasValuesFor (parts_of design.now) obligations.now) }
{
    let _names = design.terms.name_count();
    let answer = read_by_parts(alloc, bytes, design, obligations)?;
    Ok(answer)
}

fn read_by_parts(
    alloc: Global,
    bytes: &[u8],
    design: &Design,
    obligations: &[Obligation<'_>],
) -> Result<TraceRead, NoMemory>
    ensures { IfOk result (λ r. answer_view r ≡ reading_by_parts (parts_of design.now) obligations.now bytes.now) }
{
    match Value::from_slice(alloc, bytes) {
        Ok(value) => judged_data(alloc, &value, design, obligations),
        Err(error) if error.is_memory() => Err(AllocError),
        Err(error) => no_document(alloc, &error),
    }
}

fn judged_data(
    alloc: Global,
    file: &Value,
    design: &Design,
    obligations: &[Obligation<'_>],
) -> Result<TraceRead, NoMemory>
    ensures { IfOk result (λ r. answer_view r ≡ judged_data (parts_of design.now) obligations.now (view file.now)) }
{
    let names = named(alloc, design)?;
    match first_fault(&names, file) {
        Some(fault) => refused(alloc, TraceRule::BadShape, fault),
        None => judged_name(alloc, file, design, obligations),
    }
}

fn judged_name(
    alloc: Global,
    file: &Value,
    design: &Design,
    obligations: &[Obligation<'_>],
) -> Result<TraceRead, NoMemory>
    ensures { IfOk result (λ r. answer_view r
        ≡ judged_name (parts_of design.now) obligations.now (view file.now) (read_under as_str (codes "obligation") (view file.now))) }
{
    let Some(name) = data::obligation_name(file) else {
        return refused(
            alloc,
            TraceRule::BadShape,
            Fault::key("obligation", "no text"),
        );
    };
    match obligation_place(obligations, name) {
        Some(place) => judged_place(alloc, file, design, obligations, place),
        None => refused_by(alloc, TraceRule::UnknownObligation, name.as_bytes()),
    }
}

/// The first obligation of the name.
fn obligation_place(obligations: &[Obligation<'_>], name: &str) -> Option<usize>
    ensures place { result ≡ obligation_place 0 obligations.now name.now }
    ensures within { IfSome result (λ k. k < length obligations.now) }
{
    for (place, obligation) in obligations.iter().enumerate() {
        if obligation.name.as_str() == name {
            return Some(place);
        }
    }
    None
}

fn judged_place(
    alloc: Global,
    file: &Value,
    design: &Design,
    obligations: &[Obligation<'_>],
    place: usize,
) -> Result<TraceRead, NoMemory>
    requires { place < length obligations.now }
    ensures { IfOk result (λ r. answer_view r ≡ judged_place (parts_of design.now) obligations.now (view file.now) (Some place)) }
{
    match first_missing(design, file, obligations[place].cycles) {
        Some(fault) => refused(alloc, TraceRule::MissingValue, fault),
        None => trace_given(alloc, file, design, place),
    }
}

fn trace_given(
    alloc: Global,
    file: &Value,
    design: &Design,
    place: usize,
) -> Result<TraceRead, NoMemory>
    ensures { IfOk result (λ r. answer_view r
        ≡ gives place (registers_given (parts_of design.now) (view file.now)) (cycles_given (parts_of design.now) (view file.now))) }
{
    let registers = registers_given(alloc, design, file)?;
    let inputs = cycles_given(alloc, design, file)?;
    Ok(TraceRead::Trace(FileTrace {
        obligation: place,
        registers,
        inputs,
    }))
}

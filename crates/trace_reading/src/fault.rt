//! What is wrong with a trace file, and in which place.

ghost use Rattle.std.specs.Prelude.{◌≡◌, IfOk};
ghost use Rattle.trace_reading.specs.Reading.{answer_view, is_refused};
ghost use Rattle.trace_reading.specs.Rule.{rule_view};

use crate::outcome::TraceRead;
use crate::refusal::{TraceRefusal, TraceRule};
use ila_file::Note;
use serde_json::Error;
use std::alloc::Global;
use wb_terms::NoMemory;

/// What is wrong with a trace file: where it stands, and what it is.
#[derive(Clone, Copy)]
pub(crate) struct Fault<'a> {
    /// A key of the file.
    key: &'a str,
    /// The cycle, from 0, in the list under the key.
    cycle: Option<usize>,
    /// The name of a register or an input.
    name: &'a str,
    what: &'static str,
}

impl<'a> Fault<'a> {
    /// What stands under a key of the file.
    pub(crate) fn key(key: &'a str, what: &'static str) -> Fault<'a> {
        Fault {
            key,
            cycle: None,
            name: "",
            what,
        }
    }

    /// What stands for a register.
    pub(crate) fn register(name: &'a str, what: &'static str) -> Fault<'a> {
        Fault {
            key: "registers",
            cycle: None,
            name,
            what,
        }
    }

    /// What stands for an input in a cycle, or for a cycle where the name is empty.
    pub(crate) fn input(cycle: usize, name: &'a str, what: &'static str) -> Fault<'a> {
        Fault {
            key: "inputs",
            cycle: Some(cycle),
            name,
            what,
        }
    }
}

/// The refusal by a rule, with the note of what is wrong.
pub(crate) fn refused(
    alloc: Global,
    rule: TraceRule,
    fault: Fault<'_>,
) -> Result<TraceRead, NoMemory>
    ensures { IfOk result (λ r. answer_view r ≡ is_refused (rule_view rule)) }
{
    let text = text_of(alloc, fault)?;
    refused_by(alloc, rule, text.as_bytes())
}

/// The refusal by a rule, with a note.
pub(crate) fn refused_by(alloc: Global, rule: TraceRule, text: &[u8]) -> Result<TraceRead, NoMemory>
    ensures { IfOk result (λ r. answer_view r ≡ is_refused (rule_view rule)) }
{
    let note = Note::new(alloc, text)?;
    Ok(TraceRead::Refused(TraceRefusal { rule, note }))
}

/// The text of a note, as `inputs[2] go: missing`.
fn text_of(alloc: Global, fault: Fault<'_>) -> Result<String, NoMemory> {
    let Fault {
        key,
        cycle,
        name,
        what,
    } = fault;
    match cycle {
        Some(cycle) => format!(in alloc; "{key}[{cycle}] {name}: {what}"),
        None => format!(in alloc; "{key} {name}: {what}"),
    }
}

/// The refusal of bytes that are no JSON document, with the line and the column (from 1 on) at which the reader stopped, where it
/// knows them.
pub(crate) fn no_document(alloc: Global, error: &Error) -> Result<TraceRead, NoMemory>
    ensures { IfOk result (λ r. answer_view r ≡ is_refused (rule_view TraceRule.BadJson)) }
{
    let line = error.line();
    if line == 0 {
        return refused_by(alloc, TraceRule::BadJson, b"not JSON");
    }
    let column = error.column();
    let text = format!(in alloc; "not JSON: line {line} column {column}")?;
    refused_by(alloc, TraceRule::BadJson, text.as_bytes())
}

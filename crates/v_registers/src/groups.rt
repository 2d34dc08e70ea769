//! Spans by their names.

ghost use Rattle.std.specs.Prelude.{◌≡◌, ℕ, List, false, IfOk, OnOk};
ghost use Rattle.wb_values.specs.Value.{same_name};
ghost use Rattle.v_hier.specs.Tables.{under_name};
ghost use Rattle.verilog_designs.specs.Reads.{or_in};
ghost use Rattle.v_flow.specs.Spans.{bits_of, bits_in};
ghost use Rattle.v_registers.specs.Groups.{spans_under, bits_under};

use crate::NoMemory;
use std::alloc::Global;
use std::collections::BTreeMap;
use v_flow::span::Span;

/// The spans under a name, taken out of the table.
fn taken<'s>(
    alloc: Global,
    table: &mut BTreeMap<&'s str, Vec<Span<'s>>>,
    name: &'s str,
) -> Vec<Span<'s>>
    ensures spans { result.items ≡ spans_under table.old name.now }
    ensures others { (q : List ℕ) → same_name name.now q ≡ false → under_name table.new q ≡ under_name table.old q }
{
    match table.remove(name) {
        Some(spans) => spans,
        None => Vec::new(alloc),
    }
}

/// Adds a span.
fn add_span<'s>(
    alloc: Global,
    table: &mut BTreeMap<&'s str, Vec<Span<'s>>>,
    span: Span<'s>,
) -> Result<(), NoMemory>
    ensures { OnOk result (bits_under table.new ≡ or_in (bits_under table.old) (bits_of span.entry)) }
{
    let mut spans = taken(alloc, table, span.name);
    spans.push(span)?;
    table.insert(span.name, spans)?;
    Ok(())
}

/// The spans of a list by their names.
pub(crate) fn grouped<'s>(
    alloc: Global,
    spans: &[Span<'s>],
) -> Result<BTreeMap<&'s str, Vec<Span<'s>>>, NoMemory>
    ensures { IfOk result (λ t. bits_under t ≡ bits_in spans.now) }
{
    let mut table = BTreeMap::new(alloc);
    for span in spans {
        add_span(alloc, &mut table, *span)?;
    }
    Ok(table)
}

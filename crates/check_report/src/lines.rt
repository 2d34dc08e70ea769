//! The lines of a report.

ghost use Rattle.std.specs.Prelude.{◌≡◌, ◌++◌, [], ◌∷◌, map, length, codes, OnOk, string_bytes};
ghost use Rattle.reports.specs.Report.{trace_text, unknown_text};
ghost use Rattle.v_design.specs.Seen.{parts_of};
ghost use Rattle.trace_texts.specs.Told.{AreNamesOf};
ghost use Rattle.check_report.specs.Lines.{trace_by, verdict_line, verdict_lines_by, cover_line, cover_lines_by};

use itoa::Buffer;
use obligation_check::{Finding, NoMemory, RunValues};
use obligation_lists::Obligation;
use std::alloc::Global;
use trace_texts::{TraceNames, append_trace};
use v_design::Design;

/// Appends that the budget is spent, and ends the line.
fn append_unknown(out: &mut Vec<u8>, budget: u64) -> Result<(), NoMemory>
    ensures { OnOk result (out.new.items ≡ out.old.items ++ (unknown_text budget ++ 10 ∷ [])) }
{
    let mut buffer = Buffer::new();
    out.extend_from_slice(b" unknown ")?;
    out.extend_from_slice(buffer.format(budget).as_bytes())?;
    out.push(b'\n')?;
    Ok(())
}

/// Appends what is said of an obligation that values break, and ends the line.
fn append_failed(
    alloc: Global,
    out: &mut Vec<u8>,
    design: &Design,
    names: &TraceNames,
    obligation: &str,
    values: &RunValues,
) -> Result<(), NoMemory>
    requires { AreNamesOf (parts_of design.now) names.now }
    ensures { OnOk result (out.new.items ≡ out.old.items
        ++ (codes " failed " ++ trace_text (trace_by (parts_of design.now) obligation.now values.now) ++ 10 ∷ [])) }
{
    out.extend_from_slice(b" failed ")?;
    let registers = values.registers.as_slice();
    let inputs = values.inputs.as_slice();
    append_trace(alloc, out, design, names, obligation, registers, inputs)?;
    out.push(b'\n')?;
    Ok(())
}

/// Appends the line of an obligation: proved, failed with the trace of what breaks it, or unknown with the budget.
fn append_verdict(
    alloc: Global,
    out: &mut Vec<u8>,
    design: &Design,
    names: &TraceNames,
    obligation: &str,
    finding: &Finding,
    budget: u64,
) -> Result<(), NoMemory>
    requires { AreNamesOf (parts_of design.now) names.now }
    ensures { OnOk result (out.new.items ≡ out.old.items ++ verdict_line (parts_of design.now) budget obligation.now finding.now) }
{
    out.extend_from_slice(obligation.as_bytes())?;
    match finding {
        Finding::Holds => {
            out.extend_from_slice(b" proved\n")?;
            Ok(())
        }
        Finding::Breaks(values) => {
            append_failed(alloc, out, design, names, obligation, values)?;
            Ok(())
        }
        Finding::Spent(_) => {
            append_unknown(out, budget)?;
            Ok(())
        }
    }
}

/// Appends a line for each obligation.
pub(crate) fn append_verdicts(
    alloc: Global,
    out: &mut Vec<u8>,
    design: &Design,
    names: &TraceNames,
    obligations: &[Obligation<'_>],
    findings: &[Finding],
    budget: u64,
) -> Result<(), NoMemory>
    requires names { AreNamesOf (parts_of design.now) names.now }
    requires count { length findings.now ≡ length obligations.now }
    ensures { OnOk result (out.new.items ≡ out.old.items
        ++ verdict_lines_by (parts_of design.now) budget obligations.now findings.now) }
{
    for (index, obligation) in obligations.iter().enumerate() {
        let name = obligation.name.as_str();
        append_verdict(alloc, out, design, names, name, &findings[index], budget)?;
    }
    Ok(())
}

/// Appends an instruction's line: whether it has a whole command, or that this is unknown within the budget.
fn append_cover(
    out: &mut Vec<u8>,
    name: &str,
    finding: &Finding,
    budget: u64,
) -> Result<(), NoMemory>
    ensures { OnOk result (out.new.items ≡ out.old.items ++ cover_line budget name.now finding.now) }
{
    out.extend_from_slice(name.as_bytes())?;
    match finding {
        Finding::Holds => {
            out.extend_from_slice(b" no\n")?;
            Ok(())
        }
        Finding::Breaks(_) => {
            out.extend_from_slice(b" yes\n")?;
            Ok(())
        }
        Finding::Spent(_) => append_unknown(out, budget),
    }
}

/// Appends a line for each name of a cover.
pub(crate) fn append_covers(
    out: &mut Vec<u8>,
    names: &[String],
    findings: &[Finding],
    budget: u64,
) -> Result<(), NoMemory>
    requires { length findings.now ≡ length names.now }
    ensures { OnOk result (out.new.items ≡ out.old.items ++ cover_lines_by budget (map string_bytes names.now) findings.now) }
{
    for (index, name) in names.iter().enumerate() {
        append_cover(out, name.as_str(), &findings[index], budget)?;
    }
    Ok(())
}

//! A table of rows, line by line. The head of the table says what kinds there are. Empty lines and those that begin with `#` are skipped.

use crate::claims::add_claim;
use crate::deep::add_counted;
use crate::expansions::add_expansion;
use crate::formulas::{add_formula, add_solved, add_truths, add_under};
use crate::gates::add_gates;
use crate::logs::{add_checked, add_log};
use crate::operators::add_tried;
use crate::sheet::Sheet;
use crate::values::{add_stored, add_value};
use crate::words::add_word;
use std::alloc::{AllocError, Global};

/// What stands before and after the first mark; nothing after it where there is none.
pub fn halves<'t>(text: &'t str, mark: &str) -> (&'t str, &'t str) {
    text.split_once(mark).unwrap_or((text, ""))
}

/// A line for each row that comes out otherwise, and how many rows there are.
pub fn told_of_rows(alloc: Global, text: &str) -> Result<String, AllocError> {
    let mut told = Sheet::new(alloc);
    let mut rows: u128 = 0;
    let mut differ: u128 = 0;
    for line in text.lines() {
        if line.is_empty() || line.starts_with("#") {
            continue;
        }
        rows = rows.saturating_add(1);
        if !is_right(alloc, line, &mut told) {
            differ = differ.saturating_add(1);
        }
    }
    told.add_number(alloc, rows);
    told.add(" rows, ");
    told.add_number(alloc, differ);
    told.add(" differ");
    told.into_text()
}

/// Whether a row comes out as it says. What is found otherwise is told.
fn is_right(alloc: Global, line: &str, told: &mut Sheet) -> bool {
    let (row, wanted) = halves(line, " => ");
    let (kind, text) = halves(row, " ");
    let mut found = Sheet::new(alloc);
    add_found(alloc, kind, text, &mut found);
    if found.is(wanted) {
        return true;
    }
    told.add(line);
    told.add(": ");
    told.add(found.text());
    told.add("\n");
    false
}

/// Adds what is found for a row of this kind.
fn add_found(alloc: Global, kind: &str, text: &str, out: &mut Sheet) {
    match kind {
        "word" => add_word(alloc, text, out),
        "claim" => add_claim(alloc, text, out),
        "expansion" => add_expansion(alloc, text, out),
        "gates" => add_gates(alloc, out),
        "term" => add_value(alloc, text, out),
        "stored" => add_stored(alloc, text, out),
        "long" => add_counted(alloc, text, out),
        _ => add_of_formulas(alloc, kind, text, out),
    }
}

/// Adds what is found for a row of formulas, or of an operator.
fn add_of_formulas(alloc: Global, kind: &str, text: &str, out: &mut Sheet) {
    match kind {
        "formula" => add_formula(alloc, text, out),
        "under" => add_under(alloc, text, out),
        "value" => add_truths(alloc, text, out),
        "log" | "step" => add_log(alloc, kind, text, out),
        "check" => add_checked(alloc, text, out),
        "solve" => add_solved(alloc, text, out),
        _ => add_tried(alloc, kind, text, out),
    }
}

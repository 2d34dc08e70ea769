//! A table of rows, line by line: `KIND TEXT => WANTED`. What is found for the TEXT by this kind of test is WANTED. The head of the table
//! says what kinds there are. Empty lines and those that begin with `#` are skipped.

use crate::files::{add_cuts, add_of_files, files_of};
use crate::lexing::size;
use crate::reading::{add_number_row, add_system};
use crate::sheet::Sheet;
use std::alloc::{AllocError, Global};

/// What stands before and after the first mark; nothing after it where there is none.
pub fn halves<'t>(text: &'t str, mark: &str) -> (&'t str, &'t str) {
    text.split_once(mark).unwrap_or((text, ""))
}

/// A line for each row that comes out otherwise, and how many rows there are.
pub fn told_of_rows(alloc: Global, text: &str) -> Result<String, AllocError> {
    let mut told = Sheet::new(alloc);
    let mut rows: u128 = 0;
    let mut differ: u128 = 0;
    for line in text.lines() {
        if line.is_empty() || line.starts_with("#") {
            continue;
        }
        rows = rows.saturating_add(1);
        if !is_right(alloc, line, &mut told) {
            differ = differ.saturating_add(1);
        }
    }
    told.add_number(alloc, "", rows);
    told.add_number(alloc, " rows, ", differ);
    told.add(" differ");
    told.into_text(alloc)
}

/// What stands before and after the arrow of a line. A line without one wants what nothing is.
fn sides(line: &str) -> (&str, &str) {
    match line.split_once(" =>") {
        Some((left, right)) => (left, right.strip_prefix(" ").unwrap_or(right)),
        None => (line, "a row has an arrow"),
    }
}

/// Whether a row comes out as it says. What is found otherwise is told.
fn is_right(alloc: Global, line: &str, told: &mut Sheet) -> bool {
    let (row, right) = sides(line);
    let mut wanted = Sheet::new(alloc);
    wanted.add_unescaped(right);
    let mut found = Sheet::new(alloc);
    add_found(alloc, row, &mut found);
    if found.is(wanted.bytes()) {
        return true;
    }
    told.add(row);
    told.add(": ");
    told.add_bytes(found.bytes());
    told.add("\n");
    false
}

/// Adds what is found for a row: `KIND TEXT`.
fn add_found(alloc: Global, row: &str, out: &mut Sheet) {
    let (kind, text) = halves(row, " ");
    match kind {
        "number" => add_number_row(alloc, text, out),
        "system" => add_system(alloc, text, out),
        "size" => out.add(size(text)),
        "cuts" => add_cuts(alloc, &files_of(alloc, text), out),
        _ => add_of_files(alloc, kind, &files_of(alloc, text), out),
    }
}

//! A table of rows, line by line:
//!
//! | line | meaning |
//! |---|---|
//! | `model TEXT` | the model file of the rows that follow |
//! | `with OLD => NEW` | in it the first OLD is changed into NEW, for the next row alone |
//! | `KIND TEXT => WANTED` | a row: what is found for the TEXT by this kind of test is WANTED |
//!
//! Empty lines and those that begin with `#` are skipped. In TEXT and WANTED `\n`, `\r` and `\t` stand for these bytes, and `\x` for one
//! that is in no text.

use crate::files::{add_first_answer, add_of_data, add_prefixes};
use crate::models::add_of_file;
use crate::sheet::Sheet;
use std::alloc::{AllocError, Global};

/// What stands before and after the first mark; nothing after it where there is none.
pub fn halves<'t>(text: &'t str, mark: &str) -> (&'t str, &'t str) {
    text.split_once(mark).unwrap_or((text, ""))
}

/// A row, its model file, and what is changed in this for it.
#[derive(Clone, Copy)]
struct Row<'t> {
    model: &'t str,
    old: &'t str,
    new: &'t str,
    kind: &'t str,
    text: &'t str,
    wanted: &'t str,
}

/// What stands before and after the arrow of a line. A line without one wants what nothing is.
fn sides(line: &str) -> (&str, &str) {
    match line.split_once(" =>") {
        Some((left, right)) => (left, right.strip_prefix(" ").unwrap_or(right)),
        None => (line, "a row has an arrow"),
    }
}

/// What is known after a line: a row, or, with no kind, what the next one has.
fn next<'t>(before: Row<'t>, line: &'t str) -> Row<'t> {
    if let Some(model) = line.strip_prefix("model ") {
        return Row {
            kind: "",
            model,
            ..before
        };
    }
    let (left, right) = sides(line);
    let (kind, text) = halves(left, " ");
    if kind == "with" {
        return Row {
            kind: "",
            old: text,
            new: right,
            ..before
        };
    }
    Row {
        kind,
        text,
        wanted: right,
        ..before
    }
}

/// A line for each row that comes out otherwise, and how many rows there are.
pub fn told_of_rows(alloc: Global, text: &str) -> Result<String, AllocError> {
    let mut told = Sheet::new(alloc);
    let mut rows: u128 = 0;
    let mut differ: u128 = 0;
    let mut row = Row {
        model: "",
        old: "",
        new: "",
        kind: "",
        text: "",
        wanted: "",
    };
    for line in text.lines() {
        if line.is_empty() || line.starts_with("#") {
            continue;
        }
        row = next(row, line);
        if row.kind.is_empty() {
            continue;
        }
        rows = rows.saturating_add(1);
        if !is_right(alloc, row, &mut told) {
            differ = differ.saturating_add(1);
        }
        row.old = "";
        row.new = "";
    }
    told.add_number(alloc, "", rows);
    told.add_number(alloc, " rows, ", differ);
    told.add(" differ");
    told.into_text(alloc)
}

/// Adds the model file of a row.
fn add_model(row: Row<'_>, out: &mut Sheet) {
    match row.model.split_once(row.old) {
        Some((before, after)) => {
            out.add(before);
            out.add(row.new);
            out.add(after);
        }
        None => out.add("this row changes nothing"),
    }
}

/// Whether a row comes out as it says. What is found otherwise is told.
fn is_right(alloc: Global, row: Row<'_>, told: &mut Sheet) -> bool {
    let mut model = Sheet::new(alloc);
    add_model(row, &mut model);
    let mut text = Sheet::new(alloc);
    text.add_unescaped(row.text);
    let mut wanted = Sheet::new(alloc);
    wanted.add_unescaped(row.wanted);
    let mut found = Sheet::new(alloc);
    add_found(alloc, row, model.bytes(), text.bytes(), &mut found);
    if found.is(wanted.bytes()) {
        return true;
    }
    told.add(row.kind);
    told.add(" ");
    told.add(row.text);
    told.add(": ");
    told.add_bytes(found.bytes());
    told.add("\n");
    false
}

/// Adds what is found for a row with this model file and these bytes of its own.
fn add_found(alloc: Global, row: Row<'_>, model: &[u8], text: &[u8], out: &mut Sheet) {
    let own = if text.is_empty() { model } else { text };
    match row.kind {
        "read" => add_first_answer(alloc, own, out),
        "prefixes" => add_prefixes(alloc, model, out),
        "nested" => add_nested(alloc, row.text, out),
        "note" => add_of_file(alloc, own, row.kind, row.text, text, out),
        "shape" | "key" | "rule" | "outline" => add_of_data(alloc, model, row.kind, out),
        _ => add_of_file(alloc, model, row.kind, row.text, text, out),
    }
}

/// Adds what so many empty lists answer, each but the last within the one before.
fn add_nested(alloc: Global, depth: &str, out: &mut Sheet) {
    let depth = depth.parse::<u32>().unwrap_or(0);
    let mut lists = Sheet::new(alloc);
    lists.add_times("[", depth);
    lists.add_times("]", depth);
    add_first_answer(alloc, lists.bytes(), out);
}

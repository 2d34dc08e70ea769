//! A table of rows, line by line:
//!
//! | line | meaning |
//! |---|---|
//! | `file NAME` | a file of this name; it replaces an earlier one. The lines of the file follow at once: |
//! | `\|TEXT` | one more line of that file |
//! | `!TEXT` | more text of that file, without a line feed |
//! | `repeat COUNT TEXT` | as much text, COUNT times, with its number from 0 on in place of each `#` |
//! | `words WORD..` | the words of the command, after the program's name; `wordless` is a command without that either |
//! | `in NAME`, then `-OLD`, `+NEW` once or more | in this file the first OLD is changed into NEW, for the next row alone |
//! | `>TEXT` | one more line of what the next row writes, whole; `<TEXT` is text of it without a line feed |
//! | `fails NUMBER` | the next row's read with this number, from 1, fails |
//! | `keeps COUNT` | the next row's write fails, and keeps so many bytes |
//! | `asked COUNT` | the next row asks for so many files |
//! | `spent COUNT BUDGET` | the next row shows of so many formulas that so many lemmas were spent on each |
//! | `=STATUS TEXT` | a row: the call ends with this status, and its text begins or ends with TEXT, or is what `>` and `<` lines say |
//! | `ask LINE => ANSWER` | a row: what the words of this line, apart by one blank, ask for; `ask => ANSWER` is of no words at all |
//!
//! Empty lines and those that begin with `#` are skipped. In OLD, NEW and TEXT `¶` stands for a line feed, `␍` for a carriage return, `␠` for
//! a blank, and in a file `⊘` for a byte that is in no text.

use crate::commands::add_wrong;
use crate::requests::add_answer;
use crate::sheet::Sheet;
use std::alloc::{AllocError, Global};

/// What stands before and after the first mark; nothing after it where there is none.
pub fn halves<'t>(text: &'t str, mark: &str) -> (&'t str, &'t str) {
    text.split_once(mark).unwrap_or((text, ""))
}

/// What is known where a row stands. What a row alone changes and wants is empty where the table does not say it.
#[derive(Clone, Copy)]
pub struct Row<'l> {
    /// The lines before it.
    pub before: &'l [&'l str],
    /// The words of the command.
    pub words: &'l str,
    pub is_wordless: bool,
    /// The name of the file that is changed, and the lines from the first change on.
    pub changed: &'l str,
    pub changes: &'l [&'l str],
    /// The lines from the first on that say what is written.
    pub expected: &'l [&'l str],
    pub failing: &'l str,
    pub kept: &'l str,
    pub asked: &'l str,
    pub spent: &'l str,
}

/// What is known before the first line.
fn before_all<'l>(lines: &'l [&'l str]) -> Row<'l> {
    Row {
        before: &lines[..0],
        words: "",
        is_wordless: true,
        changed: "",
        changes: &lines[..0],
        expected: &lines[..0],
        failing: "",
        kept: "",
        asked: "",
        spent: "",
    }
}

/// What kind of line one is.
#[derive(Clone, Copy)]
enum Line {
    /// It says nothing by itself.
    Skipped,
    /// It says something of the rows after it.
    Demand,
    /// It is a row, or no line of a table.
    Row,
}

fn kind_of(line: &str) -> Line {
    match line.as_bytes() {
        [] | [b'#' | b'|' | b'!' | b'-' | b'+', ..] => Line::Skipped,
        [b'>' | b'<', ..] => Line::Demand,
        _ => match halves(line, " ").0 {
            "file" | "repeat" => Line::Skipped,
            "words" | "wordless" | "in" | "fails" | "keeps" | "asked" | "spent" => Line::Demand,
            _ => Line::Row,
        },
    }
}

/// What is known after a line that says something, which stands first of the lines from here on.
fn with_demand<'l>(row: Row<'l>, line: &'l str, lines: &'l [&'l str]) -> Row<'l> {
    let (kind, text) = halves(line, " ");
    match kind {
        "words" => Row {
            words: text,
            is_wordless: false,
            ..row
        },
        "wordless" => Row {
            is_wordless: true,
            ..row
        },
        "in" => Row {
            changed: text,
            changes: lines,
            ..row
        },
        "fails" => Row {
            failing: text,
            ..row
        },
        "keeps" => Row { kept: text, ..row },
        "asked" => Row { asked: text, ..row },
        "spent" => Row { spent: text, ..row },
        _ if row.expected.is_empty() => Row {
            expected: lines,
            ..row
        },
        _ => row,
    }
}

/// What is known where a row stands behind these lines.
fn behind<'l>(row: Row<'l>, before: &'l [&'l str]) -> Row<'l> {
    Row { before, ..row }
}

/// What is known after a row.
fn after_row(row: Row<'_>) -> Row<'_> {
    Row {
        changed: "",
        changes: &[],
        expected: &[],
        failing: "",
        kept: "",
        asked: "",
        spent: "",
        ..row
    }
}

/// The lines of a text.
fn lines_of(alloc: Global, text: &str) -> Result<Vec<&str>, AllocError> {
    let mut lines = Vec::new(alloc);
    for line in text.lines() {
        lines.push(line)?;
    }
    Ok(lines)
}

/// A line for each row that comes out otherwise, and how many rows there are.
pub fn told_of_rows(alloc: Global, text: &str) -> Result<String, AllocError> {
    let lines = lines_of(alloc, text)?;
    let mut told = Sheet::new(alloc);
    add_told(alloc, &lines, &mut told);
    told.into_text()
}

/// Adds the same for the lines of a table.
fn add_told<'l>(alloc: Global, lines: &'l [&'l str], told: &mut Sheet) {
    let mut rows: u128 = 0;
    let mut differ: u128 = 0;
    let mut row = before_all(lines);
    for place in 0..lines.len() {
        let line = lines[place];
        match kind_of(line) {
            Line::Skipped => {}
            Line::Demand => row = with_demand(row, line, &lines[place..]),
            Line::Row => {
                rows = rows.saturating_add(1);
                if !is_right(alloc, behind(row, &lines[..place]), line, told) {
                    differ = differ.saturating_add(1);
                }
                row = after_row(row);
            }
        }
    }
    told.add_number(alloc, "", rows);
    told.add_number(alloc, " rows, ", differ);
    told.add(" differ");
}

/// Whether a row comes out as it says. What is found otherwise is told, with the number of its line.
fn is_right(alloc: Global, row: Row<'_>, line: &str, told: &mut Sheet) -> bool {
    let mut found = Sheet::new(alloc);
    match line.strip_prefix("=") {
        Some(text) => add_wrong(alloc, row, text, &mut found),
        None => add_otherwise(alloc, line, &mut found),
    }
    if found.is("") {
        return true;
    }
    told.add_number(alloc, "line ", (row.before.len() as u128).saturating_add(1));
    told.add(": ");
    told.add(found.text());
    told.add("\n");
    false
}

/// Adds what the words of a line ask for, where it is not what the row wants.
fn add_otherwise(alloc: Global, line: &str, out: &mut Sheet) {
    let (left, right) = halves(line, " => ");
    let mut wanted = Sheet::new(alloc);
    wanted.add_unmarked(right);
    let mut found = Sheet::new(alloc);
    add_found(alloc, left, &mut found);
    if !found.is(wanted.text()) {
        out.add("found ");
        out.add(found.text());
    }
}

/// Adds what the words of a line ask for.
fn add_found(alloc: Global, left: &str, out: &mut Sheet) {
    match halves(left, " ") {
        ("ask", text) => add_answer(alloc, text, out),
        _ => out.add("is no line of a table"),
    }
}

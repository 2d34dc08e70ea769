//! Rows of commands: what the top call writes, and how it ends.

use crate::contents::contents;
use crate::rows::{Row, halves};
use crate::sheet::Sheet;
use crate::spent::is_spent;
use std::alloc::Global;
use wb_outside::{MemShelf, MemSink};
use wb_top::{Ended, Spent, workbench};

/// Room for the longest text that a row writes.
const ROOM: u64 = 65_536;

/// A number, or one that nothing has.
fn number(text: &str) -> usize {
    text.parse::<usize>().unwrap_or(usize::MAX)
}

/// A shelf with the files of a row. Nothing where no memory is left.
fn shelf_of(alloc: Global, row: Row<'_>) -> Option<MemShelf> {
    let mut failing = Vec::new(alloc);
    if let Ok(read) = row.failing.parse::<u64>() {
        let _kept = failing.push(read).is_ok();
    }
    MemShelf::new(alloc, contents(alloc, row), failing).ok()
}

/// A sink whose first write fails, where the row says how many bytes are kept of it. Nothing where no memory is left.
fn sink_of(alloc: Global, row: Row<'_>) -> Option<MemSink> {
    let mut failing = Vec::new(alloc);
    if let Ok(kept) = row.kept.parse::<u64>() {
        let _kept = failing.push((1, kept)).is_ok();
    }
    MemSink::new(alloc, ROOM, failing).ok()
}

/// Adds a word. It is wanting where no memory is left for it.
fn add_word(alloc: Global, word: &str, words: &mut Vec<String>) {
    if let Ok(word) = String::from_str(alloc, word) {
        let _kept = words.push(word).is_ok();
    }
}

/// The words of a row's command, after the program's name.
fn words_of(alloc: Global, row: Row<'_>) -> Vec<String> {
    let mut words = Vec::new(alloc);
    if row.is_wordless {
        return words;
    }
    add_word(alloc, "wb", &mut words);
    for word in row.words.split_whitespace() {
        add_word(alloc, word, &mut words);
    }
    words
}

/// The text that the lines of a row want, up to the row itself.
fn expected(alloc: Global, lines: &[&str]) -> Sheet {
    let mut text = Sheet::new(alloc);
    for line in lines {
        if let Some(piece) = line.strip_prefix(">") {
            text.add_unmarked(piece);
            text.add("\n");
        } else if let Some(piece) = line.strip_prefix("<") {
            text.add_unmarked(piece);
        } else if line.starts_with("=") {
            return text;
        }
    }
    text
}

/// Whether a text is what a row wants.
fn is_wanted(alloc: Global, row: Row<'_>, wanted: &str, text: &[u8]) -> bool {
    if !row.expected.is_empty() {
        return text == expected(alloc, row.expected).text().as_bytes();
    }
    let mut side = Sheet::new(alloc);
    side.add_unmarked(wanted);
    text.starts_with(side.text().as_bytes()) || text.ends_with(side.text().as_bytes())
}

/// Whether what a row says of lemmas that are spent is so: `COUNT BUDGET`, or nothing.
fn are_spent(alloc: Global, ended: &Ended, text: &str) -> bool {
    if text.is_empty() {
        return true;
    }
    let (count, budget) = halves(text, " ");
    match &ended.spent {
        Some(spent) => {
            spent.entries.len() == number(count)
                && are_each_spent(alloc, &spent.entries, number(budget))
        }
        None => number(count) == 0,
    }
}

/// Whether the log of each entry is spent on the budget.
fn are_each_spent(alloc: Global, entries: &[Spent], budget: usize) -> bool {
    for entry in entries {
        if !is_spent(alloc, &entry.formula.cnf, &entry.log, budget) {
            return false;
        }
    }
    true
}

/// Whether a row asks for as many files as it says, if it does.
fn is_asked(row: Row<'_>, count: usize) -> bool {
    row.asked.is_empty() || number(row.asked) == count
}

/// Adds how the command of a row ends, and what it writes, where that is not what the row says: `STATUS TEXT`.
pub fn add_wrong(alloc: Global, row: Row<'_>, line: &str, out: &mut Sheet) {
    let (Some(mut shelf), Some(mut sink)) = (shelf_of(alloc, row), sink_of(alloc, row)) else {
        return out.fail();
    };
    let ended = workbench(alloc, &words_of(alloc, row), &mut shelf, &mut sink);
    let (status, wanted) = halves(line, " ");
    let mut number = Sheet::new(alloc);
    number.add_number(alloc, "", u128::from(ended.status.number()));
    let is_right = number.is(status)
        && is_wanted(alloc, row, wanted, sink.bytes())
        && is_asked(row, shelf.names().len())
        && are_spent(alloc, &ended, row.spent);
    if !is_right {
        out.add("status ");
        out.add(number.text());
        out.add(": ");
        add_lossy(alloc, sink.bytes(), out);
    }
}

/// Adds bytes as a text.
fn add_lossy(alloc: Global, bytes: &[u8], out: &mut Sheet) {
    match String::from_utf8_lossy(alloc, bytes) {
        Ok(text) => out.add(&text),
        Err(_) => out.fail(),
    }
}

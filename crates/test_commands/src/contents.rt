//! The contents of a row's files: what the lines before the row say of a file, and what is changed in it.

use crate::rows::{Row, halves};
use crate::sheet::Sheet;
use std::alloc::Global;

/// The lines from the last on that begins a file of this name. Nothing where there is none.
fn lines_of<'l>(before: &'l [&'l str], name: &str) -> Option<&'l [&'l str]> {
    let mut found: Option<&'l [&'l str]> = None;
    for place in 0..before.len() {
        if before[place].strip_prefix("file ") == Some(name) {
            found = Some(&before[place + 1..]);
        }
    }
    found
}

/// Adds the text with a number in place of each `#`.
fn add_numbered(alloc: Global, text: &str, number: u32, out: &mut Sheet) {
    let mut pieces = text.split("#");
    out.add(pieces.next().unwrap_or(""));
    for piece in pieces {
        out.add_number(alloc, "", u128::from(number));
        out.add(piece);
    }
}

/// Adds copies of a text: `COUNT TEXT`.
fn add_copies(alloc: Global, line: &str, out: &mut Sheet) {
    let (count, text) = halves(line, " ");
    let mut piece = Sheet::new(alloc);
    piece.add_unmarked(text);
    for number in 0..count.parse::<u32>().unwrap_or(0) {
        add_numbered(alloc, piece.text(), number, out);
    }
}

/// Adds the text of a file, up to the first line that is none of it.
fn add_file(alloc: Global, lines: &[&str], out: &mut Sheet) {
    for line in lines {
        if let Some(text) = line.strip_prefix("|") {
            out.add(text);
            out.add("\n");
        } else if let Some(text) = line.strip_prefix("!") {
            out.add(text);
        } else if let Some(copies) = line.strip_prefix("repeat ") {
            add_copies(alloc, copies, out);
        } else {
            return;
        }
    }
}

/// The text with its first `old` changed into `new`.
fn changed_once(alloc: Global, text: &str, old: &str, new: &str) -> Sheet {
    let mut mark = Sheet::new(alloc);
    mark.add_unmarked(old);
    let mut whole = Sheet::new(alloc);
    match text.split_once(mark.text()) {
        Some((before, after)) => {
            whole.add(before);
            whole.add_unmarked(new);
            whole.add(after);
        }
        None => whole.add("this row changes nothing"),
    }
    whole
}

/// What the line before this place says is changed.
fn old_before<'l>(lines: &[&'l str], place: usize) -> &'l str {
    match lines.get(place.saturating_sub(1)) {
        Some(line) => line.strip_prefix("-").unwrap_or(""),
        None => "",
    }
}

/// The text with the changes of lines made, one after the other, up to the first line after the head that is none.
fn changed(alloc: Global, text: Sheet, lines: &[&str]) -> Sheet {
    let mut whole = text;
    for place in 0..lines.len() {
        let line = lines[place];
        if let Some(new) = line.strip_prefix("+") {
            whole = changed_once(alloc, whole.text(), old_before(lines, place), new);
        } else if !line.starts_with("-") && !line.starts_with("in ") {
            return whole;
        }
    }
    whole
}

/// The bytes of a file's text, in which `⊘` stands for a byte that is in no text. One for which no memory is left is wanting.
fn bytes_of(alloc: Global, text: &str) -> Vec<u8> {
    let mut bytes = Vec::new(alloc);
    let mut before: &[u8] = b"";
    for piece in text.split("⊘") {
        let _marked = bytes.extend_from_slice(before).is_ok();
        let _kept = bytes.extend_from_slice(piece.as_bytes()).is_ok();
        before = b"\xff";
    }
    bytes
}

/// The bytes of the file of a name whose lines these are, with the changes of the row.
fn content_of(alloc: Global, row: Row<'_>, name: &str, lines: &[&str]) -> Vec<u8> {
    let mut text = Sheet::new(alloc);
    add_file(alloc, lines, &mut text);
    if row.changed == name {
        text = changed(alloc, text, row.changes);
    }
    bytes_of(alloc, text.text())
}

/// Adds the file that a word names, where there is one. It is wanting where no memory is left for it.
fn add_named(alloc: Global, row: Row<'_>, name: &str, files: &mut Vec<(String, Vec<u8>)>) {
    let Some(lines) = lines_of(row.before, name) else {
        return;
    };
    if let Ok(text) = String::from_str(alloc, name) {
        let _kept = files
            .push((text, content_of(alloc, row, name, lines)))
            .is_ok();
    }
}

/// The files that the words of a row name, by themselves or after `=`, with the changes of the row.
pub fn contents(alloc: Global, row: Row<'_>) -> Vec<(String, Vec<u8>)> {
    let mut files = Vec::new(alloc);
    for word in row.words.split_whitespace() {
        let (option, value) = halves(word, "=");
        let name = if value.is_empty() { option } else { value };
        add_named(alloc, row, name, &mut files);
    }
    files
}

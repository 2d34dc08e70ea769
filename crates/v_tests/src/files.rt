//! The files of a row, and what is found in them. `␜` stands between two files. In a file `⟨COUNT PIECE⟩` stands for so many copies of the
//! piece; in `⟨FROM..TO PIECE⟩` the copies are numbered, and in each `@` stands for its number and `#` for the next.

use crate::lexing::{add_joined, add_mark, add_note, add_note_of_tokens, kind_name};
use crate::printing::add_printed_twice;
use crate::reading::add_read;
use crate::rows::halves;
use crate::sheet::Sheet;
use std::alloc::Global;
use v_lex::{LexStop, tokens};
use v_token::token::Token;

fn number(text: &str) -> u32 {
    text.parse::<u32>().unwrap_or(0)
}

/// Adds a piece with its number.
fn add_numbered(alloc: Global, piece: &[u8], place: u32, file: &mut Sheet) {
    for byte in piece {
        match *byte {
            b'@' => file.add_number(alloc, "", u128::from(place)),
            b'#' => file.add_number(alloc, "", u128::from(place.saturating_add(1))),
            other => file.add_bytes(&[other]),
        }
    }
}

/// Adds copies of a piece: `COUNT PIECE` or `FROM..TO PIECE`.
fn add_copies(alloc: Global, copies: &str, file: &mut Sheet) {
    let (numbers, text) = halves(copies, " ");
    let mut piece = Sheet::new(alloc);
    piece.add_unescaped(text);
    let (from, to) = halves(numbers, "..");
    if to.is_empty() {
        for _ in 0..number(from) {
            file.add_bytes(piece.bytes());
        }
    }
    for place in number(from)..number(to) {
        add_numbered(alloc, piece.bytes(), place, file);
    }
}

fn file_of(alloc: Global, text: &str) -> Vec<u8> {
    let (before, rest) = halves(text, "⟨");
    let (copies, after) = halves(rest, "⟩");
    let mut file = Sheet::new(alloc);
    file.add_unescaped(before);
    add_copies(alloc, copies, &mut file);
    file.add_unescaped(after);
    file.into_bytes()
}

/// The files of a text. One for which no memory is left is wanting.
pub fn files_of(alloc: Global, text: &str) -> Vec<Vec<u8>> {
    let mut files = Vec::new(alloc);
    for file in text.split('␜') {
        let _kept = files.push(file_of(alloc, file)).is_ok();
    }
    files
}

/// Adds what is found in files.
pub fn add_of_files(alloc: Global, kind: &str, files: &[Vec<u8>], out: &mut Sheet) {
    match kind {
        "prints" | "reprints" => add_printed_twice(alloc, kind, files, out),
        _ => match tokens(alloc, files) {
            Ok(tokens) => add_of_tokens(&tokens, alloc, kind, files, out),
            Err(stop) => add_of_stop(alloc, kind, &stop, out),
        },
    }
}

/// Adds what is found of files that have tokens.
fn add_of_tokens(
    tokens: &[Token<'_>],
    alloc: Global,
    kind: &str,
    files: &[Vec<u8>],
    out: &mut Sheet,
) {
    match kind {
        "tokens" => add_joined(tokens, "|", out),
        "lexical" => add_joined(tokens, " ", out),
        "mark" => add_mark(tokens, alloc, out),
        "note" => add_note_of_tokens(tokens, alloc, files, out),
        "kind" => out.add("read"),
        _ => add_read(tokens, alloc, kind, out),
    }
}

/// Adds what is found of files that have none.
fn add_of_stop(alloc: Global, kind: &str, stop: &LexStop, out: &mut Sheet) {
    let LexStop::Refused(refusal) = stop else {
        return out.fail();
    };
    match kind {
        "note" => add_note(alloc, &refusal.note, out),
        "tokens" | "lexical" | "kind" | "file" => out.add(kind_name(refusal.kind)),
        _ => out.add("no tokens"),
    }
}

/// Adds the kind that refuses a file, or that it has a tree.
fn add_kind(alloc: Global, bytes: &[u8], out: &mut Sheet) {
    let Ok(file) = Vec::from_slice(alloc, bytes) else {
        return out.fail();
    };
    let mut files = Vec::new(alloc);
    let _kept = files.push(file).is_ok();
    add_of_files(alloc, "file", &files, out);
}

/// Adds what each file is answered that begins a file, is shorter and is not empty.
pub fn add_cuts(alloc: Global, files: &[Vec<u8>], out: &mut Sheet) {
    let [file] = files else {
        return out.add("not one file");
    };
    let mut answer = Sheet::new(alloc);
    add_kind(alloc, &file[..1.min(file.len())], &mut answer);
    for end in 1..file.len() {
        let mut found = Sheet::new(alloc);
        add_kind(alloc, &file[..end], &mut found);
        if !found.is(answer.bytes()) {
            return out.add("several answers");
        }
    }
    out.add_bytes(answer.bytes());
}

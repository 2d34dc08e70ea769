//! Texts with their tokens or the kind of their refusal.

use crate::sheet::Sheet;
use std::alloc::Global;
use v_lex::{LexKind, Note, note_behind};
use v_parse::{ParseStop, parse};
use v_token::token::{Token, TokenKind};

/// The bytes of a token.
const TOKEN_SIZE: usize = std::mem::size_of::<Token<'static>>();

/// The name of a kind of refusal.
pub fn kind_name(kind: LexKind) -> &'static str {
    match kind {
        LexKind::NotText => "V1",
        LexKind::BadToken => "V2",
        LexKind::BadDirective => "V3",
        LexKind::Unsupported => "V4",
        LexKind::TooDeep => "V5",
    }
}

/// Adds the tokens with a mark between them.
pub fn add_joined(tokens: &[Token<'_>], mark: &str, out: &mut Sheet) {
    let mut before = "";
    for token in tokens {
        out.add(before);
        out.add(token.text);
        before = mark;
    }
}

/// Adds the mark that a text of one token is.
pub fn add_mark(tokens: &[Token<'_>], alloc: Global, out: &mut Sheet) {
    let [token] = tokens else {
        return out.add("is not one token");
    };
    let TokenKind::Mark(mark) = token.kind else {
        return out.add("is no mark");
    };
    match format!(in alloc; "{mark:?}") {
        Ok(text) => out.add(&text),
        Err(_) => out.fail(),
    }
}

/// Adds the file and the text of a note.
pub fn add_note(alloc: Global, note: &Note, out: &mut Sheet) {
    out.add_number(alloc, "file ", u128::from(note.file));
    out.add(" ");
    out.add_bytes(note.as_bytes());
}

/// Adds the note on the token with which no source goes on, or that there is none such.
pub fn add_note_of_tokens(tokens: &[Token<'_>], alloc: Global, files: &[Vec<u8>], out: &mut Sheet) {
    match parse(alloc, tokens) {
        Ok(tree) => {
            out.add("read");
            drop(tree);
        }
        Err(ParseStop::Refused(left)) => {
            let count = tokens.len().saturating_sub(left);
            match note_behind(alloc, files, tokens, count) {
                Some(note) => add_note(alloc, &note, out),
                None => out.fail(),
            }
        }
        Err(ParseStop::NoMemory) => out.fail(),
    }
}

/// Whether a token takes so many bytes at most.
pub fn size(text: &str) -> &'static str {
    match text.parse::<usize>() {
        Ok(most) if TOKEN_SIZE <= most => "fits",
        _ => "is larger",
    }
}

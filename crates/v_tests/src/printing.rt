//! Sources that are printed, and what is printed when that is read again.

use crate::sheet::Sheet;
use std::alloc::Global;
use v_lex::tokens;
use v_parse::parse;
use v_print_source::print::print;
use v_token::token::Token;

/// Adds what is printed of the tree of tokens, or that they have none.
fn add_printed_of(tokens: &[Token<'_>], alloc: Global, out: &mut Sheet) {
    match parse(alloc, tokens) {
        Ok(tree) => {
            match print(alloc, &tree) {
                Ok(text) => out.add(&text),
                Err(_) => out.fail(),
            }
            drop(tree);
        }
        Err(_) => out.add("no tree"),
    }
}

/// What is printed of the tree of files, or that they have no tokens or no tree.
fn printed(alloc: Global, files: &[Vec<u8>]) -> Sheet {
    let mut out = Sheet::new(alloc);
    match tokens(alloc, files) {
        Ok(tokens) => add_printed_of(&tokens, alloc, &mut out),
        Err(_) => out.add("no tokens"),
    }
    out
}

/// What is printed when a text is read.
fn printed_again(alloc: Global, text: &[u8]) -> Sheet {
    let mut files = Vec::new(alloc);
    if let Ok(file) = Vec::from_slice(alloc, text) {
        let _kept = files.push(file).is_ok();
    }
    printed(alloc, &files)
}

/// Adds what is printed of files, or the first word of it, where it is printed so again when it is read.
pub fn add_printed_twice(alloc: Global, kind: &str, files: &[Vec<u8>], out: &mut Sheet) {
    let first = printed(alloc, files);
    if !printed_again(alloc, first.bytes()).is(first.bytes()) {
        return out.add("is printed otherwise again");
    }
    if kind == "prints" {
        out.add_bytes(first.bytes());
    } else if first.bytes().starts_with(b"module ".as_slice()) {
        out.add("module");
    }
}

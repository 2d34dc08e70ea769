//! Texts of modules, and which of their continuous assignments use an input: prints each row that differs, and how many rows there are.
#![tactic(auto)]

mod asked;
mod inputs;

use crate::asked::told;
use std::alloc::{AllocError, Global};
use std::{fs, io};
use v_hier::top_of;
use v_lex::tokens;
use v_parse::parse;
use v_syntax::module::Tree;
use v_token::token::Token;

fn main(rt: HostRuntime) -> io::Result<()> {
    let alloc = rt.alloc();
    let table = fs::read_to_string(&rt, "rows.txt")?;
    let mut rows: u64 = 0;
    let mut differing: u64 = 0;
    for line in table.as_str().lines() {
        let Some((text, wanted)) = line.split_once("\t") else {
            continue;
        };
        let found = answer(alloc, text)?;
        rows = rows.saturating_add(1);
        if found.as_str() != wanted {
            differing = differing.saturating_add(1);
            println!(rt; "{text}\n  {found}")?;
        }
    }
    println!(rt; "{rows} rows, {differing} differ")
}

/// Which values of continuous assignments of the text's module `t` use an input.
fn answer(alloc: Global, text: &str) -> Result<String, AllocError> {
    let files = vec![in alloc; Vec::from_slice(alloc, text.as_bytes())?]?;
    match tokens(alloc, &files) {
        Ok(tokens) => answer_of_tokens(alloc, &tokens),
        Err(_) => String::from_str(alloc, "unread"),
    }
}

fn answer_of_tokens(alloc: Global, tokens: &[Token<'_>]) -> Result<String, AllocError> {
    match parse(alloc, tokens) {
        Ok(tree) => answer_of_tree(alloc, &tree),
        Err(_) => String::from_str(alloc, "unread"),
    }
}

fn answer_of_tree(alloc: Global, tree: &Tree<'_>) -> Result<String, AllocError> {
    match top_of(tree, "t") {
        Some(within) => told(alloc, within),
        None => String::from_str(alloc, "no top"),
    }
}

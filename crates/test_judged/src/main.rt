//! Texts of designs with the kind by which each is refused, if it is. Prints each row that differs, and how many rows there are.
#![tactic(auto)]

ghost use Rattle.std.specs.Prelude.{◌≡◌, ℕ, List, Ok};
ghost use Rattle.verilog_text.specs.Text.{tokens_in};
ghost use Rattle.verilog_text.specs.Grammar.{IsTreeOf};
ghost use Rattle.v_token.specs.View.{tokens_of};
ghost use Rattle.v_syntax.specs.Source.{source_of};

use designs_of_texts::laws::trees_are_of_texts;
use std::alloc::{AllocError, Global};
use std::{fs, io};
use v_judged::{DesignKind, design_refusal};
use v_lex::tokens;
use v_parse::parse;
use v_syntax::module::Tree;
use v_token::token::Token;

fn main(rt: HostRuntime) -> io::Result<()> {
    let alloc = rt.alloc();
    let table = fs::read_to_string(&rt, "rows.txt")?;
    let mut rows: u64 = 0;
    let mut differing: u64 = 0;
    for line in table.as_str().lines() {
        let Some((text, wanted)) = line.split_once("\t") else {
            continue;
        };
        let found = answer(alloc, text)?;
        rows = rows.saturating_add(1);
        if found.as_str() != wanted {
            differing = differing.saturating_add(1);
            println!(rt; "{text}\n  {found}")?;
        }
    }
    println!(rt; "{rows} rows, {differing} differ")
}

/// By which kind the design is refused whose top is the text's module `t`, with the clock `c`.
fn answer(alloc: Global, text: &str) -> Result<String, AllocError> {
    let files = vec![in alloc; Vec::from_slice(alloc, text.as_bytes())?]?;
    match tokens(alloc, &files) {
        Ok(tokens) => answer_of_tokens(alloc, &tokens),
        Err(_) => String::from_str(alloc, "unread"),
    }
}

/// The same of the tokens of some files.
fn answer_of_tokens(alloc: Global, tokens: &[Token<'_>]) -> Result<String, AllocError>
    requires { (files : List (List ℕ)) × (tokens_in files ≡ Ok (tokens_of tokens.now)) }
{
    match parse(alloc, tokens) {
        Ok(tree) => answer_of_tree(alloc, &tree),
        Err(_) => String::from_str(alloc, "unread"),
    }
}

/// The same of the tree of some files.
fn answer_of_tree(alloc: Global, tree: &Tree<'_>) -> Result<String, AllocError>
    requires { (files : List (List ℕ)) × IsTreeOf files (source_of tree.now) }
{
    trees_are_of_texts();
    let kind = design_refusal(alloc, tree, "t", "c")?;
    String::from_str(alloc, word_of(kind))
}

fn word_of(kind: Option<DesignKind>) -> &'static str {
    match kind {
        None => "accepted",
        Some(DesignKind::NoTop) => "NoTop",
        Some(DesignKind::Undeclared) => "Undeclared",
        Some(DesignKind::DuplicateName) => "DuplicateName",
        Some(DesignKind::BadHierarchy) => "BadHierarchy",
        Some(DesignKind::HasXz) => "HasXz",
        Some(DesignKind::BadPort) => "BadPort",
        Some(DesignKind::BadConstant) => "BadConstant",
        Some(DesignKind::WidthOver128) => "WidthOver128",
        Some(DesignKind::BadSelect) => "BadSelect",
        Some(DesignKind::MemoryUse) => "MemoryUse",
        Some(DesignKind::ClockAsData) => "ClockAsData",
        Some(DesignKind::BadEventList) => "BadEventList",
        Some(DesignKind::BlockingInClocked) => "BlockingInClocked",
        Some(DesignKind::NonblockingInComb) => "NonblockingInComb",
        Some(DesignKind::Latch) => "Latch",
        Some(DesignKind::BadDriver) => "BadDriver",
        Some(DesignKind::Undriven) => "Undriven",
        Some(DesignKind::CombLoop) => "CombLoop",
    }
}

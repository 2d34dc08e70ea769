//! Where in the Verilog text a design breaks its rule.

use crate::stop::NoMemory;
use map_file::map_heads;
use rule_places::{RuleKind, broken_at};
use std::alloc::{AllocError, Global};
use v_judged::DesignKind;
use v_lex::{Note, note_behind, tokens};
use v_parse::parse;
use v_syntax::module::Tree;
use v_token::token::Token;

/// A kind as it is asked for.
fn rule_kind(kind: DesignKind) -> RuleKind {
    match kind {
        DesignKind::NoTop => RuleKind::NoTop,
        DesignKind::Undeclared => RuleKind::Undeclared,
        DesignKind::DuplicateName => RuleKind::DuplicateName,
        DesignKind::BadHierarchy => RuleKind::BadHierarchy,
        DesignKind::HasXz => RuleKind::HasXz,
        DesignKind::BadPort => RuleKind::BadPort,
        DesignKind::BadConstant => RuleKind::BadConstant,
        DesignKind::WidthOver128 => RuleKind::WidthOver128,
        DesignKind::BadSelect => RuleKind::BadSelect,
        DesignKind::MemoryUse => RuleKind::MemoryUse,
        DesignKind::ClockAsData => RuleKind::ClockAsData,
        DesignKind::BadEventList => RuleKind::BadEventList,
        DesignKind::BlockingInClocked => RuleKind::BlockingInClocked,
        DesignKind::NonblockingInComb => RuleKind::NonblockingInComb,
        DesignKind::Latch => RuleKind::Latch,
        DesignKind::BadDriver => RuleKind::BadDriver,
        DesignKind::Undriven => RuleKind::Undriven,
        DesignKind::CombLoop => RuleKind::CombLoop,
    }
}

/// The note that leads to the place at which a design with this top and this clock breaks the rule of a kind first, if it can be told. The
/// tree and the tokens are those of the files.
fn note_of_design<'s>(
    tree: &Tree<'s>,
    tokens: &[Token<'s>],
    alloc: Global,
    top: &str,
    clock: &str,
    designs: &[Vec<u8>],
    kind: DesignKind,
) -> Result<Option<Note>, NoMemory> {
    match broken_at(tree, tokens, alloc, top, clock, rule_kind(kind))? {
        Some(token) => match note_behind(alloc, designs, &[token], 0) {
            Some(note) => Ok(Some(note)),
            None => Err(AllocError),
        },
        None => Ok(None),
    }
}

/// The same of a design of these Verilog files. They are read once more.
pub(crate) fn note_in_files(
    alloc: Global,
    top: &str,
    clock: &str,
    designs: &[Vec<u8>],
    kind: DesignKind,
) -> Result<Option<Note>, NoMemory> {
    let Ok(tokens) = tokens(alloc, designs) else {
        return Ok(None);
    };
    let Ok(tree) = parse(alloc, &tokens) else {
        return Ok(None);
    };
    note_of_design(&tree, &tokens, alloc, top, clock, designs, kind)
}

/// The same of the design that a map file names, in these Verilog files. They are read once more.
pub(crate) fn note_of_case(
    alloc: Global,
    map_file: &[u8],
    designs: &[Vec<u8>],
    kind: DesignKind,
) -> Result<Option<Note>, NoMemory> {
    let Ok(heads) = map_heads(alloc, map_file) else {
        return Ok(None);
    };
    let map = heads.map();
    note_in_files(alloc, &map.top, &map.clock, designs, kind)
}

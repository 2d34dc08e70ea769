//! Texts of modules with the rules that they break, of those on digits, ports, constants, widths, selects and memories, on clocks as
//! data, on kinds of assignments and on drivers; texts of modules with bits that have no driver, and with combinational loops. Prints
//! each row that differs, and how many rows there are.
#![tactic(auto)]

mod drivers;
mod loops;

use crate::drivers::{two_drivers, undriven};
use crate::loops::looped;
use std::alloc::{AllocError, Global};
use std::collections::BTreeSet;
use std::{fs, io};
use v_assigned::has_bad_name;
use v_blocks::{first_blocking_in_clocked, first_nonblocking_in_combinational};
use v_constants::constants_of;
use v_hier::{has_clock_as_data, top_of};
use v_instances::interface::{Interfaces, interfaces_of};
use v_lex::tokens;
use v_modules::{first_rule, module_rule};
use v_parse::parse;
use v_ports::has_bad_port;
use v_scopes::{Constants, ModuleScope, declared_scope, module_scope, placed_scope};
use v_size::{Broken, Kind};
use v_syntax::module::{Module, Tree};
use v_token::token::Token;

fn main(rt: HostRuntime) -> io::Result<()> {
    let alloc = rt.alloc();
    let table = fs::read_to_string(&rt, "rows.txt")?;
    let mut rows: u64 = 0;
    let mut differing: u64 = 0;
    for line in table.as_str().lines() {
        let Some((text, wanted)) = line.split_once("\t") else {
            continue;
        };
        let found = answer(alloc, text)?;
        rows = rows.saturating_add(1);
        if found.as_str() != wanted {
            differing = differing.saturating_add(1);
            println!(rt; "{text}\n  {found}")?;
        }
    }
    println!(rt; "{rows} rows, {differing} differ")
}

/// The kinds that the text's module `t` breaks, where its clock is `c`.
fn answer(alloc: Global, text: &str) -> Result<String, AllocError> {
    let files = vec![in alloc; Vec::from_slice(alloc, text.as_bytes())?]?;
    match tokens(alloc, &files) {
        Ok(tokens) => answer_of_tokens(alloc, &tokens),
        Err(_) => String::from_str(alloc, "unread"),
    }
}

fn answer_of_tokens(alloc: Global, tokens: &[Token<'_>]) -> Result<String, AllocError> {
    match parse(alloc, tokens) {
        Ok(tree) => answer_of_tree(alloc, &tree),
        Err(_) => String::from_str(alloc, "unread"),
    }
}

fn answer_of_tree(alloc: Global, tree: &Tree<'_>) -> Result<String, AllocError> {
    match top_of(tree, "t") {
        Some(within) => kinds_of(alloc, tree, within),
        None => drivers_of(alloc, tree),
    }
}

/// Whether the text's module `u` reads a bit that has no driver.
fn drivers_of(alloc: Global, tree: &Tree<'_>) -> Result<String, AllocError> {
    let Some(within) = top_of(tree, "u") else {
        return loops_of(alloc, tree);
    };
    let names = module_scope(alloc, within)?;
    let kinds = [(undriven(alloc, &within.items, &names)?, " V23")];
    told(alloc, &kinds, None)
}

/// Whether the text's module `l` has a combinational loop.
fn loops_of(alloc: Global, tree: &Tree<'_>) -> Result<String, AllocError> {
    let Some(within) = top_of(tree, "l") else {
        return String::from_str(alloc, "no top");
    };
    match looped(alloc, within)? {
        Some(true) => String::from_str(alloc, "ok V24"),
        Some(false) => String::from_str(alloc, "ok"),
        None => String::from_str(alloc, "not asked"),
    }
}

/// The kinds, in their order, and the first of those on digits, constants, widths, selects and memories. The parameters of the module
/// have the values that it gives them.
fn kinds_of<'s>(alloc: Global, tree: &Tree<'s>, within: &Module<'s>) -> Result<String, AllocError> {
    let interfaces = interfaces_of(alloc, tree)?;
    let parameters = constants_of(alloc, within, &[])?;
    kinds_with(alloc, within, Constants { scope: &parameters }, &interfaces)
}

fn kinds_with<'s>(
    alloc: Global,
    within: &Module<'s>,
    constants: Constants<'_, 's>,
    interfaces: &Interfaces<'s>,
) -> Result<String, AllocError> {
    let broken = module_rule(alloc, within, constants, interfaces)?;
    let names = declared_scope(alloc, within, constants)?;
    let ports = has_bad_port(alloc, within, &names, interfaces)?;
    let scope = placed_scope(alloc, &names, constants.scope)?;
    let named = has_bad_name(&within.items, &names, &scope);
    kinds_by(alloc, within, broken, ports, named, &names)
}

/// Whether the clock `c` stands elsewhere than as an event.
fn clock_as_data(alloc: Global, within: &Module<'_>) -> Result<bool, AllocError> {
    let mut clocks = BTreeSet::new(alloc);
    clocks.insert("c")?;
    Ok(has_clock_as_data(alloc, within, &clocks))
}

fn kinds_by(
    alloc: Global,
    within: &Module<'_>,
    broken: Broken,
    ports: bool,
    named: bool,
    names: &ModuleScope<'_>,
) -> Result<String, AllocError> {
    let kinds = [
        (broken.has_xz, " V11"),
        (ports, " V12"),
        (broken.bad_constant, " V13"),
        (broken.width_over_128, " V14"),
        (broken.bad_select, " V15"),
        (broken.memory_use, " V16"),
        (clock_as_data(alloc, within)?, " V17"),
        (first_blocking_in_clocked(&within.items).is_some(), " V19"),
        (
            first_nonblocking_in_combinational(&within.items).is_some(),
            " V20",
        ),
        (named, " V22 name"),
        (two_drivers(alloc, &within.items, names)?, " V22 two"),
    ];
    told(alloc, &kinds, first_rule(broken))
}

/// The kinds whose rules are broken, and the first of some of them.
fn told(alloc: Global, kinds: &[(bool, &str)], first: Option<Kind>) -> Result<String, AllocError> {
    let mut text = String::from_str(alloc, "ok")?;
    for (is_broken, kind) in kinds {
        if *is_broken {
            text.push_str(kind)?;
        }
    }
    if let Some(kind) = first {
        text.push_str(", first ")?;
        text.push_str(word_of(kind))?;
    }
    Ok(text)
}

fn word_of(kind: Kind) -> &'static str {
    match kind {
        Kind::Undeclared => "V8",
        Kind::HasXz => "V11",
        Kind::BadConstant => "V13",
        Kind::WidthOver128 => "V14",
        Kind::BadSelect => "V15",
        Kind::MemoryUse => "V16",
    }
}

//! Texts of modules with the rules that their blocks break, of those on latches and on lists of events: prints each row that differs, and
//! how many rows there are.
#![tactic(auto)]

mod fit;
mod flow;

ghost use Rattle.std.specs.Prelude.{map};
ghost use Rattle.v_syntax.specs.Source.{item_of};
ghost use Rattle.v_value.specs.Scope.{scope_at};
ghost use Rattle.v_value.specs.Narrow.{HasNarrowObjects};
ghost use Rattle.v_paths.specs.Modules.{AreFitItems};

use crate::fit::{are_no_memories, items_fit};
use std::alloc::{AllocError, Global};
use std::collections::BTreeSet;
use std::{fs, io};
use v_hier::top_of;
use v_lex::tokens;
use v_narrow::are_objects_narrow;
use v_parse::parse;
use v_paths::{has_bad_event_list, has_latch};
use v_scopes::module_scope;
use v_size::Names;
use v_syntax::module::{Item, Module, Tree};
use v_token::token::Token;
use v_value::scope::Scope;

fn main(rt: HostRuntime) -> io::Result<()> {
    let alloc = rt.alloc();
    let table = fs::read_to_string(&rt, "rows.txt")?;
    let mut rows: u64 = 0;
    let mut differing: u64 = 0;
    for line in table.as_str().lines() {
        let Some((text, rest)) = line.split_once("\t") else {
            continue;
        };
        let (wanted, _) = rest.split_once("\t").unwrap_or((rest, ""));
        let found = answer(alloc, text)?;
        rows = rows.saturating_add(1);
        if found.as_str() != wanted {
            differing = differing.saturating_add(1);
            println!(rt; "{text}\n  {found}")?;
        }
    }
    println!(rt; "{rows} rows, {differing} differ")
}

/// The kinds that the text's module `t` breaks, where its clock is `c`.
fn answer(alloc: Global, text: &str) -> Result<String, AllocError> {
    let files = vec![in alloc; Vec::from_slice(alloc, text.as_bytes())?]?;
    match tokens(alloc, &files) {
        Ok(tokens) => answer_of_tokens(alloc, &tokens),
        Err(_) => String::from_str(alloc, "unread"),
    }
}

fn answer_of_tokens(alloc: Global, tokens: &[Token<'_>]) -> Result<String, AllocError> {
    match parse(alloc, tokens) {
        Ok(tree) => answer_of_tree(alloc, &tree),
        Err(_) => String::from_str(alloc, "unread"),
    }
}

fn answer_of_tree(alloc: Global, tree: &Tree<'_>) -> Result<String, AllocError> {
    match top_of(tree, "t") {
        Some(within) => answer_of_module(alloc, within),
        None => String::from_str(alloc, "no top"),
    }
}

fn answer_of_module(alloc: Global, within: &Module<'_>) -> Result<String, AllocError> {
    let declared = module_scope(alloc, within)?;
    let scope = declared.to_scope(alloc)?;
    answer_in(alloc, &within.items, &scope)
}

fn answer_in(alloc: Global, items: &[Item<'_>], scope: &Scope<'_>) -> Result<String, AllocError> {
    if !are_objects_narrow(scope) {
        return String::from_str(alloc, "wide");
    }
    if !are_no_memories(scope.declarations()) {
        return String::from_str(alloc, "memory");
    }
    let names = Names { scope };
    if !items_fit(items, names) {
        return String::from_str(alloc, "unfit");
    }
    kinds(alloc, items, scope)
}

/// Whether one of the items is a block with a bad list of events, or one with a latch.
fn kinds(alloc: Global, items: &[Item<'_>], scope: &Scope<'_>) -> Result<String, AllocError>
    requires objects { HasNarrowObjects (scope_at scope.now) }
    requires fit { AreFitItems (scope_at scope.now) (map item_of items.now) }
{
    let mut clocks = BTreeSet::new(alloc);
    clocks.insert("c")?;
    let bad = has_bad_event_list(alloc, items, scope, &clocks)?;
    let latched = has_latch(alloc, items, scope)?;
    words_of(alloc, bad, latched)
}

/// The kinds, in their order.
fn words_of(alloc: Global, bad: bool, latched: bool) -> Result<String, AllocError> {
    let words = match (bad, latched) {
        (false, false) => "ok",
        (false, true) => "V21",
        (true, false) => "V18",
        (true, true) => "V18 V21",
    };
    String::from_str(alloc, words)
}

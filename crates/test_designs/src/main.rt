//! Texts of designs whose scopes or refusals are known: prints each row that differs, and how many rows there are.
#![tactic(auto)]

mod names;

use names::flaws_of;
use std::alloc::{AllocError, Global};
use std::{fs, io};
use v_lex::tokens;
use v_parse::parse;
use v_scopes::{ModuleScope, ScopesKind, ScopesStop, scopes};
use v_syntax::module::{Direction, Tree};
use v_token::token::Token;
use v_value::scope::{Object, Scope};

fn main(rt: HostRuntime) -> io::Result<()> {
    let alloc = rt.alloc();
    let table = fs::read_to_string(&rt, "rows.txt")?;
    let mut rows: u64 = 0;
    let mut differing: u64 = 0;
    for line in table.as_str().lines() {
        let Some((text, wanted)) = line.split_once("\t") else {
            continue;
        };
        let found = answer(alloc, text, wanted.starts_with("names"))?;
        rows = rows.saturating_add(1);
        if found.as_str() != wanted {
            differing = differing.saturating_add(1);
            println!(rt; "{text}\n  {found}")?;
        }
    }
    println!(rt; "{rows} rows, {differing} differ")
}

/// The names of the text's module `t` with what they stand for, or the kind of the refusal, where its clock is `c`; or what is refused in
/// its names alone.
fn answer(alloc: Global, text: &str, names_alone: bool) -> Result<String, AllocError> {
    let files = vec![in alloc; Vec::from_slice(alloc, text.as_bytes())?]?;
    match tokens(alloc, &files) {
        Ok(tokens) => answer_of_tokens(alloc, &tokens, names_alone),
        Err(_) => String::from_str(alloc, "unread"),
    }
}

fn answer_of_tokens(
    alloc: Global,
    tokens: &[Token<'_>],
    names_alone: bool,
) -> Result<String, AllocError> {
    match parse(alloc, tokens) {
        Ok(tree) => answer_of_tree(alloc, &tree, names_alone),
        Err(_) => String::from_str(alloc, "unread"),
    }
}

fn answer_of_tree(alloc: Global, tree: &Tree<'_>, names_alone: bool) -> Result<String, AllocError> {
    if names_alone {
        return flaws_of(alloc, tree);
    }
    match scopes(alloc, tree, "t", "c") {
        Ok(scopes) => names_of(alloc, &scopes.top),
        Err(ScopesStop::Refused(refusal)) => String::from_str(alloc, kind_name(refusal.kind)),
        Err(ScopesStop::NoMemory) => String::from_str(alloc, "no memory"),
    }
}

/// The names in the order of their declarations.
fn names_of(alloc: Global, scope: &ModuleScope<'_>) -> Result<String, AllocError> {
    let list = scope.to_scope(alloc)?;
    let mut text = String::from_str(alloc, "ok")?;
    for declared in scope.declarations() {
        add_name(alloc, scope, &list, declared.name, &mut text)?;
    }
    Ok(text)
}

/// A name with what it stands for.
fn add_name(
    alloc: Global,
    scope: &ModuleScope<'_>,
    list: &Scope<'_>,
    name: &str,
    text: &mut String,
) -> Result<(), AllocError> {
    let object = scope.object(name);
    text.push_str(" ")?;
    if let Some(declared) = scope.find(name) {
        text.push_str(direction_name(declared.direction))?;
    }
    if object != list.object(name) {
        text.push_str("otherwise-listed:")?;
    }
    text.push_str(name)?;
    add_object(alloc, object, text)?;
    Ok(())
}

fn add_object(alloc: Global, object: Object, text: &mut String) -> Result<(), AllocError> {
    if !object.is_declared {
        text.push_str("?")?;
    }
    if object.signed {
        text.push_str(":signed")?;
    }
    if object.has_range {
        let range = format!(in alloc; "[{}:{}]", object.left, object.right)?;
        text.push_str(range.as_str())?;
    }
    if let Some((first, last)) = object.addresses {
        let addresses = format!(in alloc; "{first}:{last}")?;
        text.push_str("{")?;
        text.push_str(addresses.as_str())?;
        text.push_str("}")?;
    }
    Ok(())
}

fn direction_name(direction: Option<Direction>) -> &'static str {
    match direction {
        Some(Direction::Input) => "in:",
        Some(Direction::Output) => "out:",
        None => "",
    }
}

fn kind_name(kind: ScopesKind) -> &'static str {
    match kind {
        ScopesKind::NotYet => "N1",
        ScopesKind::NoTop => "V7",
        ScopesKind::Undeclared => "V8",
        ScopesKind::DuplicateName => "V9",
    }
}

//! Texts with their trees, or how many tokens are left where the reading stops.

use crate::sheet::Sheet;
use crate::shown_expressions::show as show_expression;
use crate::shown_statements::show as show_statement;
use std::alloc::Global;
use v_body::statement::statement;
use v_dotted::{OwnedToken, dotted_tokens, whole_expression};
use v_expr::number::number;
use v_expr::{ExpressionStop, expression, selects};
use v_parse::{ParseStop, parse};
use v_place::{left_at_first_wrong, left_at_first_wrong_in_expression};
use v_syntax::tree::{Expression, Statement};
use v_token::token::{Token, TokenKind};

fn token<'s>(kind: TokenKind, text: &'s str) -> Token<'s> {
    Token {
        kind,
        text,
        file: 0,
        start: 0,
    }
}

/// Adds a refusal by how many tokens are left, or, of a long text, that it is refused.
fn add_refused(alloc: Global, kind: &str, stop: ExpressionStop, out: &mut Sheet) {
    match stop {
        ExpressionStop::Refused(_) if kind == "expressions" || kind == "statements" => {
            out.add("refused")
        }
        ExpressionStop::Refused(left) => out.add_number(alloc, "refused ", left as u128),
        ExpressionStop::NoMemory => out.fail(),
    }
}

/// Adds how many tokens stand behind what was read, if any.
fn add_rest(alloc: Global, left: usize, out: &mut Sheet) {
    if left > 0 {
        out.add_number(alloc, " and ", left as u128);
        out.add(" more");
    }
}

/// Adds whether all of a long text was read.
fn add_whole(left: usize, out: &mut Sheet) {
    out.add(if left == 0 { "read" } else { "refused" });
}

/// Adds an expression.
fn add_shown_expression(tree: Expression<'_>, alloc: Global, out: &mut Sheet) {
    match Box::new(alloc, tree) {
        Ok(tree) => show_expression(&tree, out),
        Err(_) => out.fail(),
    }
}

/// Adds a statement.
fn add_shown_statement(tree: Statement<'_>, alloc: Global, out: &mut Sheet) {
    match Box::new(alloc, tree) {
        Ok(tree) => show_statement(&tree, out),
        Err(_) => out.fail(),
    }
}

/// Adds the expression that tokens begin with.
fn add_expression(tokens: &[Token<'_>], alloc: Global, kind: &str, out: &mut Sheet) {
    match expression(alloc, tokens) {
        Ok((tree, rest)) => {
            if kind == "expression" {
                add_shown_expression(tree, alloc, out);
                add_rest(alloc, rest.len(), out);
            } else {
                drop(tree);
                add_whole(rest.len(), out);
            }
        }
        Err(stop) => add_refused(alloc, kind, stop, out),
    }
}

/// Adds the statement that tokens begin with.
fn add_statement(tokens: &[Token<'_>], alloc: Global, kind: &str, out: &mut Sheet) {
    match statement(alloc, tokens) {
        Ok((tree, rest)) => {
            if kind == "statement" {
                add_shown_statement(tree, alloc, out);
                add_rest(alloc, rest.len(), out);
            } else {
                drop(tree);
                add_whole(rest.len(), out);
            }
        }
        Err(stop) => add_refused(alloc, kind, stop, out),
    }
}

/// Adds what the name of a system function, by itself, is read as.
pub fn add_system(alloc: Global, text: &str, out: &mut Sheet) {
    add_expression(&[token(TokenKind::System, text)], alloc, "system", out);
}

fn add_left(alloc: Global, left: usize, out: &mut Sheet) {
    out.add_number(alloc, "", left as u128);
    out.add(" left");
}

/// Adds how many tokens are left behind the selects that tokens begin with.
fn add_selects(tokens: &[Token<'_>], alloc: Global, kind: &str, out: &mut Sheet) {
    match selects(alloc, tokens) {
        Ok((tree, rest)) => {
            add_left(alloc, rest.len(), out);
            drop(tree);
        }
        Err(stop) => add_refused(alloc, kind, stop, out),
    }
}

/// Adds how many tokens are left at the first that is wrong, in a source or in an expression.
fn add_wrong(tokens: &[Token<'_>], alloc: Global, kind: &str, out: &mut Sheet) {
    let found = match kind {
        "wrong" => left_at_first_wrong(alloc, tokens),
        _ => left_at_first_wrong_in_expression(alloc, tokens),
    };
    match found {
        Ok(left) => add_left(alloc, left, out),
        Err(_) => out.fail(),
    }
}

/// Adds a number: its size, if any, and what stands from the quote on.
pub fn add_number_row(alloc: Global, text: &str, out: &mut Sheet) {
    let Some((size, _)) = text.split_once("'") else {
        return add_number_of(&[token(TokenKind::Decimal, text)], alloc, out);
    };
    let based = token(TokenKind::Based, text.strip_prefix(size).unwrap_or(text));
    if size.is_empty() {
        add_number_of(&[based], alloc, out)
    } else {
        add_number_of(&[token(TokenKind::Decimal, size), based], alloc, out)
    }
}

fn add_number_of(tokens: &[Token<'_>], alloc: Global, out: &mut Sheet) {
    match number(tokens) {
        Some((number, [])) => match format!(in alloc; "{number:?}") {
            Ok(text) => out.add(&text),
            Err(_) => out.fail(),
        },
        _ => out.add("is no number"),
    }
}

/// Adds the value and the width of tokens with dotted names, where they are a number.
fn add_dotted(tokens: &[Token<'_>], alloc: Global, out: &mut Sheet) {
    match dotted_tokens(alloc, tokens) {
        Ok(joined) => add_dotted_number(&joined, alloc, out),
        Err(_) => out.add("no tokens"),
    }
}

fn add_dotted_number(tokens: &[OwnedToken], alloc: Global, out: &mut Sheet) {
    match whole_expression(alloc, tokens) {
        Ok(Expression::Number(number)) => {
            out.add_number(alloc, "", number.value);
            out.add_number(alloc, " in ", u128::from(number.width));
            out.add(" bits");
        }
        Ok(tree) => {
            drop(tree);
            out.add("no number");
        }
        Err(_) => out.add("no expression"),
    }
}

/// Adds the kind that refuses tokens as a source, or that they have a tree.
fn add_source(tokens: &[Token<'_>], alloc: Global, out: &mut Sheet) {
    match parse(alloc, tokens) {
        Ok(tree) => {
            out.add("tree");
            drop(tree);
        }
        Err(ParseStop::Refused(_)) => out.add("V6"),
        Err(ParseStop::NoMemory) => out.fail(),
    }
}

/// Adds what tokens are as this kind of row reads them.
pub fn add_read(tokens: &[Token<'_>], alloc: Global, kind: &str, out: &mut Sheet) {
    match kind {
        "expression" | "expressions" => add_expression(tokens, alloc, kind, out),
        "statement" | "statements" => add_statement(tokens, alloc, kind, out),
        "selects" => add_selects(tokens, alloc, kind, out),
        "wrong" | "wrong_in_expression" => add_wrong(tokens, alloc, kind, out),
        "dotted" => add_dotted(tokens, alloc, out),
        "file" => add_source(tokens, alloc, out),
        _ => out.add("is no row"),
    }
}

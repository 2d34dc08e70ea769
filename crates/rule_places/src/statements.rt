//! Statements, laid out.

use crate::expressions::{Way, add_assignment, add_expression, add_parts};
use crate::full::is_full;
use crate::layout::Layout;
use crate::piece::{NO_NAME, What};
use crate::rules::{At, Stance};
use crate::scopes::Scopes;
use v_syntax::tree::{Arm, CaseItem, CaseKind, Expression, Statement};

/// Adds what is no name: where branches begin or end.
fn mark(out: &mut Layout<'_>, what: What, flag: bool, at: At) {
    out.add(what, NO_NAME, 0, flag, at.site);
}

/// Begins a choice by this value.
fn begin_case<'s>(value: &Expression<'s>, scopes: Scopes<'_, 's>, at: At, out: &mut Layout<'s>) {
    mark(out, What::Choice, false, at);
    add_expression(value, scopes, at, out);
}

/// Ends a choice by this value among these items.
fn end_case<'s>(
    value: &Expression<'s>,
    items: &[CaseItem<'s>],
    scopes: Scopes<'_, 's>,
    kind: CaseKind,
    at: At,
    out: &mut Layout<'s>,
) {
    let flag = is_full(value, items, scopes.names, kind);
    mark(out, What::EndChoice, flag, at);
}

/// Adds a statement.
#[cycle(statement)]
pub(crate) fn add_statement<'s>(
    statement: &Statement<'s>,
    scopes: Scopes<'_, 's>,
    at: At,
    out: &mut Layout<'s>,
) {
    match statement {
        Statement::Empty => {}
        Statement::Blocking(target, value) => {
            add_assignment(target, value, scopes, Way::Blocking, at, out);
        }
        Statement::Nonblocking(target, value) => {
            add_assignment(target, value, scopes, Way::Nonblocking, at, out);
        }
        Statement::If(arms, last) => {
            mark(out, What::Choice, false, at);
            add_arms(arms, scopes, at, out);
            if let Some(other) = last {
                add_branch(other, scopes, at, out);
            }
            mark(out, What::EndChoice, last.is_some(), at);
        }
        Statement::Case(kind, value, items) => {
            begin_case(value, scopes, at, out);
            add_items(items, scopes, stance_of(*kind), at, out);
            end_case(value, items, scopes, *kind, at, out);
        }
        Statement::Block(label, statements) => {
            if label.is_some() {
                out.pass();
            }
            add_statements(statements, scopes, at, out);
        }
    }
}

/// What is asked of an item of a case.
fn stance_of(kind: CaseKind) -> Stance {
    match kind {
        CaseKind::Exact => Stance::Plain,
        CaseKind::Wild => Stance::WildLabel,
    }
}

#[cycle(statement)]
fn add_statements<'s>(
    statements: &[Statement<'s>],
    scopes: Scopes<'_, 's>,
    at: At,
    out: &mut Layout<'s>,
) {
    for statement in statements {
        add_statement(statement, scopes, at, out);
    }
}

/// Adds a statement as a branch.
#[cycle(statement)]
fn add_branch<'s>(statement: &Statement<'s>, scopes: Scopes<'_, 's>, at: At, out: &mut Layout<'s>) {
    mark(out, What::Branch, false, at);
    add_statement(statement, scopes, at, out);
    mark(out, What::EndBranch, false, at);
}

#[cycle(statement)]
fn add_arms<'s>(arms: &[Arm<'s>], scopes: Scopes<'_, 's>, at: At, out: &mut Layout<'s>) {
    for arm in arms {
        add_expression(&arm.condition, scopes, at, out);
        add_branch(&arm.statement, scopes, at, out);
    }
}

#[cycle(statement)]
fn add_items<'s>(
    items: &[CaseItem<'s>],
    scopes: Scopes<'_, 's>,
    stance: Stance,
    at: At,
    out: &mut Layout<'s>,
) {
    for item in items {
        match item {
            CaseItem::Values(values, statement) => {
                add_parts(values, scopes, at.with(stance), out);
                add_branch(statement, scopes, at, out);
            }
            CaseItem::Default(statement) => add_branch(statement, scopes, at, out),
        }
    }
}

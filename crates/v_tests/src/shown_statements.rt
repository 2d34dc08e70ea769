//! Statements as text for the tests: brackets round each form, with a mark for each part.

use crate::sheet::Sheet;
use v_syntax::tree::{Arm, CaseItem, CaseKind, Statement};

#[cycle(showing)]
fn arms(arms: &Vec<Arm<'_>>, out: &mut Sheet) {
    for arm in arms {
        out.add("?");
        show(&arm.statement, out);
    }
}

#[cycle(showing)]
fn statements(statements: &Vec<Statement<'_>>, out: &mut Sheet) {
    for statement in statements {
        show(statement, out);
    }
}

#[cycle(showing)]
fn item(item: &CaseItem<'_>, out: &mut Sheet) {
    match item {
        CaseItem::Values(values, statement) => {
            out.add_times(",", values.len());
            show(statement, out);
        }
        CaseItem::Default(statement) => {
            out.add("*");
            show(statement, out);
        }
    }
}

#[cycle(showing)]
fn items(items: &Vec<CaseItem<'_>>, out: &mut Sheet) {
    for each in items {
        item(each, out);
    }
}

/// What stands before the parts of a statement.
fn begin(statement: &Statement<'_>, out: &mut Sheet) {
    match statement {
        Statement::Empty => out.add(";"),
        Statement::Blocking(_, _) => out.add("="),
        Statement::Nonblocking(_, _) => out.add("<="),
        Statement::If(_, _) => out.add("("),
        Statement::Case(CaseKind::Exact, _, _) => out.add("{"),
        Statement::Case(CaseKind::Wild, _, _) => out.add("z{"),
        Statement::Block(None, _) => out.add("["),
        Statement::Block(Some(name), _) => {
            out.add("[");
            out.add(name);
        }
    }
}

/// What stands behind the parts of a statement.
fn end(statement: &Statement<'_>) -> &'static str {
    match statement {
        Statement::If(_, _) => ")",
        Statement::Case(_, _, _) => "}",
        Statement::Block(_, _) => "]",
        _ => "",
    }
}

/// `?` for each condition of an `if`, `:` for what stands behind its last `else`, `,` for each value of an item, `*` for `default`.
#[cycle(showing)]
pub fn show(statement: &Statement<'_>, out: &mut Sheet) {
    begin(statement, out);
    match statement {
        Statement::If(list, last) => {
            arms(list, out);
            if let Some(last) = last {
                out.add(":");
                show(last, out);
            }
        }
        Statement::Case(_, _, list) => items(list, out),
        Statement::Block(_, list) => statements(list, out),
        _ => {}
    }
    out.add(end(statement));
}

//! Operators by claims: a row's words are no values of the names, or the operator does not have a value of them.

use crate::claims::add_known;
use crate::rows::halves;
use crate::sheet::Sheet;
use crate::stores::{large, small};
use std::alloc::Global;

/// How many lemmas a claim may take.
const BUDGET: u64 = 100_000;

/// An operator on words of a width, the words that it is given, and the value that it is to have. Those that choose take a condition, which
/// is false for `else` alone.
#[derive(Clone, Copy)]
struct Row<'t> {
    width: &'t str,
    operator: &'t str,
    x: &'t str,
    y: &'t str,
    value: &'t str,
}

fn row_of<'t>(width: &'t str, text: &'t str) -> Row<'t> {
    let (operator, rest) = halves(text, " ");
    let (x, rest) = halves(rest, " ");
    let (y, value) = halves(rest, " ");
    Row {
        width,
        operator,
        x,
        y,
        value,
    }
}

/// Adds the term of the row's operator on the names.
fn add_operator(alloc: Global, row: Row<'_>, out: &mut Sheet) {
    match row.operator {
        "if" | "else" => out.add("ite c a b"),
        "zext" => out.add("zext 128 a"),
        "sext" => out.add("sext 128 a"),
        "top" => {
            let top = u128::from(small(row.width).saturating_sub(1));
            out.add("extract ");
            out.add_number(alloc, top);
            out.add(" ");
            out.add_number(alloc, top);
            out.add(" a");
        }
        _ => {
            out.add(row.operator);
            out.add(" a b");
        }
    }
}

/// The values of the names of a row, as they are told.
fn condition(row: Row<'_>) -> &'static str {
    if row.operator == "else" {
        "false"
    } else {
        "true"
    }
}

/// The store whose last term is the claim that the names do not have the row's values, or its operator does not have this value of them.
fn store(alloc: Global, row: Row<'_>, value: u128) -> Sheet {
    let mut out = Sheet::new(alloc);
    out.add(row.width);
    out.add(" ");
    out.add(row.width);
    out.add(" bool; ");
    add_operator(alloc, row, &mut out);
    out.add("; like d ");
    out.add_number(alloc, value);
    out.add("; eq d e; like a ");
    out.add(row.x);
    out.add("; eq a g; like b ");
    out.add(row.y);
    out.add("; eq b i; truth ");
    out.add(condition(row));
    out.add("; eq c k; and f h; and j l; and m n; not o");
    out
}

/// What is found of a row of which all is right: the values break the claim with the operator's value, and none that with another.
fn wanted(row: Row<'_>, alloc: Global) -> Sheet {
    let mut out = Sheet::new(alloc);
    out.add("breaks ");
    out.add(row.x);
    out.add(" ");
    out.add(row.y);
    out.add(" ");
    out.add(condition(row));
    out.add(", ");
    out.add(row.value);
    out.add("; holds");
    out
}

/// Adds what is found of a row, `OPERATOR X Y VALUE` on words of a width, where something is not right.
pub fn add_tried(alloc: Global, width: &str, text: &str, out: &mut Sheet) {
    let row = row_of(width, text);
    let value = large(row.value);
    let mut found = Sheet::new(alloc);
    add_known(alloc, BUDGET, store(alloc, row, value).text(), &mut found);
    found.add("; ");
    add_known(
        alloc,
        BUDGET,
        store(alloc, row, value ^ 1).text(),
        &mut found,
    );
    if !found.is(wanted(row, alloc).text()) {
        out.add(found.text());
    }
}

//! Terms with memories, whose words become names of their own.

use crate::sheet::Sheet;
use crate::stores::store_of;
use ob_mem::{Expanded, expand};
use std::alloc::Global;
use wb_terms::{NameId, Sort, TermId};

/// Adds how many terms and names there are, the last name, and the address of each word with the place of its name.
fn add_expanded(alloc: Global, expanded: &Expanded, out: &mut Sheet) {
    out.add_number(alloc, u128::from(expanded.terms.len()));
    out.add(" terms, ");
    let names = expanded.terms.name_count();
    out.add_number(alloc, u128::from(names));
    out.add(" names, the last ");
    if names == 5 {
        out.add(expanded.terms.name(NameId(4)));
    }
    out.add(", words");
    for word in &expanded.list {
        out.add(" ");
        out.add_number(alloc, u128::from(word.address));
        out.add(":");
        out.add_number(alloc, word.name.0 as u128);
    }
}

/// Adds what the last term of a store becomes.
pub fn add_expansion(alloc: Global, text: &str, out: &mut Sheet) {
    let terms = match store_of(alloc, text) {
        Ok(terms) => terms,
        Err(told) => return out.add(told),
    };
    let count = terms.len();
    if count == 0 {
        return out.add("is no claim");
    }
    let id = TermId((count - 1) as usize);
    let Sort::Truth = terms.sort(id) else {
        return out.add("is no claim");
    };
    match expand(alloc, &terms, id) {
        Ok(expanded) => add_expanded(alloc, &expanded, out),
        Err(_) => out.add("no memory"),
    }
}

//! What is known of a claim, a term of truth sort, by its formula, the solver and the checker. Each word of a memory becomes a name first.

ghost use Rattle.std.specs.Prelude.{◌<◌, length};
ghost use Rattle.wb_terms.specs.Environment.{Fits};

use crate::rows::halves;
use crate::sheet::Sheet;
use crate::stores::{small, store_of};
use ob_mem::expand;
use sat_settle::{Settled, settle};
use std::alloc::Global;
use wb_terms::{Env, Node, Scratch, Sort, TermId, Terms, Value, eval};

fn add_word_or_truth(alloc: Global, value: &Value, out: &mut Sheet) {
    match value {
        Value::Truth(true) => out.add(" true"),
        Value::Truth(false) => out.add(" false"),
        Value::Number(number) => {
            out.add(" ");
            out.add_number(alloc, *number);
        }
        Value::Words(_) => out.add(" words"),
    }
}

/// The first term that is no name, or one that there never is.
fn first_term(terms: &Terms) -> TermId {
    for place in 0..terms.len() as usize {
        match *terms.node(TermId(place)) {
            Node::Name(_) => {}
            _ => return TermId(place),
        }
    }
    TermId(usize::MAX)
}

/// Adds the values of the names, and the number of the first term that is no name under them.
fn add_values(alloc: Global, terms: &Terms, env: &Env, out: &mut Sheet)
    requires fits { Fits terms.now env.now }
{
    out.add("breaks");
    for value in &env.values {
        add_word_or_truth(alloc, value, out);
    }
    let Ok(mut scratch) = Scratch::new(alloc, terms) else {
        return out.add(" no memory");
    };
    let first = first_term(terms);
    if first.0 as u64 >= terms.len() {
        return out.add(" no term");
    }
    out.add(", ");
    out.add_number(alloc, eval(terms, env, &mut scratch, first));
}

/// Adds what is known of a claim with a budget of lemmas: `holds`, `spent`, or `breaks` with the values.
fn add_settled(alloc: Global, terms: &Terms, claim: TermId, budget: u64, out: &mut Sheet)
    requires claim { claim.0 < length terms.now.nodes }
    requires budget { 0 < budget }
{
    let Sort::Truth = terms.sort(claim) else {
        return out.add("is no claim");
    };
    let Ok(expanded) = expand(alloc, terms, claim) else {
        return out.add("no memory");
    };
    let Ok(found) = settle(alloc, &expanded.terms, expanded.goal, budget) else {
        return out.add("no memory");
    };
    match &found {
        Settled::Breaks(env) => add_values(alloc, &expanded.terms, env, out),
        Settled::Holds(_) => out.add("holds"),
        Settled::Spent(_, _) => out.add("spent"),
    }
}

/// Adds what is known of the last term of a store.
pub fn add_known(alloc: Global, budget: u64, text: &str, out: &mut Sheet) {
    let terms = match store_of(alloc, text) {
        Ok(terms) => terms,
        Err(told) => return out.add(told),
    };
    let count = terms.len();
    if count == 0 || budget == 0 {
        return out.add("is no claim");
    }
    add_settled(alloc, &terms, TermId((count - 1) as usize), budget, out);
}

/// Adds what is known of a claim: `BUDGET STORE`.
pub fn add_claim(alloc: Global, text: &str, out: &mut Sheet) {
    let (budget, store) = halves(text, " ");
    add_known(alloc, u64::from(small(budget)), store, out);
}

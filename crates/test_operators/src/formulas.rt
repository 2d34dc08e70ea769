//! Formulas as rows write them: literals as in DIMACS, each clause ended by 0. And assignments, as digits 0 and 1, one for each variable.

ghost use Rattle.std.specs.Prelude.{◌<◌};

use crate::rows::halves;
use crate::sheet::Sheet;
use sat_base::{Assignment, Clause, Cnf, Lit};
use sat_solve::{Answer, solve};
use std::alloc::Global;
use std::mem;

/// A number of a row, or the greatest.
pub fn count(word: &str) -> u64 {
    word.parse::<u64>().unwrap_or(u64::MAX)
}

/// The variable that DIMACS writes as this number, also the greatest.
fn variable(digits: &str) -> Option<u64> {
    match digits.parse::<u128>() {
        Ok(number) => u64::try_from(number.wrapping_sub(1)).ok(),
        Err(_) => None,
    }
}

/// The literal that DIMACS writes so.
pub fn literal(word: &str) -> Option<Lit> {
    let negative = word.starts_with('-');
    match variable(word.trim_start_matches('-')) {
        Some(var) => Some(Lit { var, negative }),
        None => None,
    }
}

/// Adds a literal to a clause. Gives whether the word is one, and memory was left for it.
fn is_added(clause: &mut Clause, word: &str) -> bool {
    match literal(word) {
        Some(lit) => clause.push(lit).is_ok(),
        None => false,
    }
}

/// The clauses of a text. Nothing where a word is no literal, the last clause is not ended, or no memory is left.
fn clauses(alloc: Global, text: &str) -> Option<Vec<Clause>> {
    let mut clauses = Vec::new(alloc);
    let mut clause = Clause::new(alloc);
    for word in text.split_whitespace() {
        let is_taken = if word == "0" {
            clauses
                .push(mem::replace(&mut clause, Clause::new(alloc)))
                .is_ok()
        } else {
            is_added(&mut clause, word)
        };
        if !is_taken {
            return None;
        }
    }
    if clause.is_empty() {
        Some(clauses)
    } else {
        None
    }
}

/// The formula of a text over so many variables.
pub fn formula(alloc: Global, vars: &str, text: &str) -> Option<Cnf> {
    Cnf::new(count(vars), clauses(alloc, text)?).ok()
}

/// Adds a truth value.
fn add_truth(truth: bool, out: &mut Sheet) {
    out.add(if truth { "true" } else { "false" });
}

/// Adds how many variables, clauses and literals a formula has.
fn add_counts(alloc: Global, formula: &Cnf, out: &mut Sheet) {
    let mut literals: u64 = 0;
    for clause in formula.clauses() {
        literals = literals.saturating_add(clause.len() as u64);
    }
    out.add_number(alloc, u128::from(formula.vars()));
    out.add(" variables, ");
    out.add_number(alloc, formula.clauses().len() as u128);
    out.add(" clauses, ");
    out.add_number(alloc, u128::from(literals));
    out.add(" literals");
}

/// Adds what a formula has, or the first clause with another variable: `VARS FORMULA`.
pub fn add_formula(alloc: Global, text: &str, out: &mut Sheet) {
    let (vars, rest) = halves(text, " ");
    let Some(clauses) = clauses(alloc, rest) else {
        return out.add("no clauses");
    };
    match Cnf::new(count(vars), clauses) {
        Ok(formula) => add_counts(alloc, &formula, out),
        Err(unknown) => {
            out.add("unknown in ");
            out.add_number(alloc, u128::from(unknown.clause));
        }
    }
}

/// The assignment of digits; of none is `-`. A value for which no memory is left is wanting.
fn assignment(alloc: Global, digits: &str) -> Assignment {
    let mut values = Vec::new(alloc);
    for digit in digits.as_bytes() {
        if *digit != b'-' {
            let _kept = values.push(*digit == b'1').is_ok();
        }
    }
    Assignment::from_vec(values)
}

/// Adds the truth of a formula under values: `VALUES VARS FORMULA`.
pub fn add_under(alloc: Global, text: &str, out: &mut Sheet) {
    let (digits, rest) = halves(text, " ");
    let (vars, rest) = halves(rest, " ");
    let values = assignment(alloc, digits);
    match formula(alloc, vars, rest) {
        Some(formula) => add_truth(values.satisfies(&formula), out),
        None => out.add("no formula"),
    }
}

/// Adds the truth of a literal and of its negation under values, and how many these are: `VALUES LITERAL`.
pub fn add_truths(alloc: Global, text: &str, out: &mut Sheet) {
    let (digits, word) = halves(text, " ");
    let values = assignment(alloc, digits);
    let Some(lit) = literal(word) else {
        return out.add("no literal");
    };
    add_truth(values.value(lit), out);
    out.add(" ");
    add_truth(values.value(lit.negated()), out);
    out.add(" of ");
    out.add_number(alloc, values.as_slice().len() as u128);
}

/// Adds what the solver answers: `model`, `refuted` or `spent`, or that it finds no memory.
fn add_answer(alloc: Global, formula: &Cnf, budget: u64, out: &mut Sheet)
    requires { 0 < budget }
{
    match solve(alloc, formula, budget) {
        Ok(Answer::Model(_)) => out.add("model"),
        Ok(Answer::Refuted(_)) => out.add("refuted"),
        Ok(Answer::Spent(_)) => out.add("spent"),
        Err(_) => out.add("memory"),
    }
}

/// Adds the solver's answer to a formula with a budget of lemmas: `VARS BUDGET FORMULA`.
pub fn add_solved(alloc: Global, text: &str, out: &mut Sheet) {
    let (vars, rest) = halves(text, " ");
    let (digits, rest) = halves(rest, " ");
    let budget = count(digits);
    if budget == 0 {
        return out.add("no budget");
    }
    match formula(alloc, vars, rest) {
        Some(formula) => add_answer(alloc, &formula, budget, out),
        None => out.add("no formula"),
    }
}

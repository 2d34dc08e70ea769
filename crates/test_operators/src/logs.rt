//! Logs as rows write them: steps with `;` between them, each its literals, `by`, and its hints.
ghost use Rattle.std.specs.Prelude.{◌<◌, length};

use crate::formulas::{count, formula, literal};
use crate::rows::halves;
use crate::sheet::Sheet;
use sat_base::{Clause, Cnf, Hints, Lemma, Lit, Log};
use sat_check::{Checker, Verdict};
use std::alloc::Global;

/// The literals of a text. Nothing where a word is none, or no memory is left.
fn lits(alloc: Global, text: &str) -> Option<Clause> {
    let mut lits = Vec::new(alloc);
    for word in text.split_whitespace() {
        if lits.push(literal(word)?).is_err() {
            return None;
        }
    }
    Some(Clause::from_vec(lits))
}

/// The numbers of a text. Nothing where no memory is left.
fn hints(alloc: Global, text: &str) -> Option<Hints> {
    let mut hints = Hints::new(alloc);
    for word in text.split_whitespace() {
        if hints.push(count(word)).is_err() {
            return None;
        }
    }
    Some(hints)
}

fn step(alloc: Global, text: &str) -> Option<Lemma> {
    let (before, after) = halves(text, "by");
    let lits = lits(alloc, before)?;
    let hints = hints(alloc, after)?;
    Some(Lemma { lits, hints })
}

/// The log of a text, step by step. Nothing where a step has no literals or hints, or no memory is left.
fn log(alloc: Global, text: &str) -> Option<Log> {
    let mut log = Log::new(alloc);
    if text.is_empty() {
        return Some(log);
    }
    for piece in text.split(';') {
        if log.push(step(alloc, piece)?).is_err() {
            return None;
        }
    }
    Some(log)
}

/// The log of one step, made of lists.
fn log_of_lists(alloc: Global, text: &str) -> Option<Log> {
    let lemma = step(alloc, text)?;
    let hints = Hints::from_vec(Vec::from_slice(alloc, lemma.hints.as_slice()).ok()?);
    let lits = lemma.lits;
    let mut log = Log::new(alloc);
    if log.push(Lemma { lits, hints }).is_err() {
        return None;
    }
    Some(log)
}

fn add_lit(alloc: Global, lit: Lit, out: &mut Sheet) {
    out.add(if lit.negative { "-" } else { "" });
    out.add_number(alloc, u128::from(lit.var).saturating_add(1));
    out.add(" ");
}

fn add_step(alloc: Global, log: &Log, step: usize, out: &mut Sheet)
    requires { step < length log.now }
{
    let Ok(lits) = log.lits(alloc, step) else {
        return out.add("no memory");
    };
    for lit in lits.as_slice() {
        add_lit(alloc, *lit, out);
    }
    out.add("by");
    for hint in log.hints(step) {
        out.add(" ");
        out.add_number(alloc, u128::from(*hint));
    }
}

/// Adds how many steps a log has, and the steps.
pub fn add_log(alloc: Global, kind: &str, text: &str, out: &mut Sheet) {
    let found = if kind == "step" {
        log_of_lists(alloc, text)
    } else {
        log(alloc, text)
    };
    let Some(log) = found else {
        return out.add("no log");
    };
    out.add_number(alloc, log.len() as u128);
    for step in 0..log.len() {
        out.add("; ");
        add_step(alloc, &log, step, out);
    }
}

/// Adds a verdict: `yes`, or the number of a step.
fn add_verdict(alloc: Global, verdict: Verdict, out: &mut Sheet) {
    match verdict {
        Verdict::Yes => out.add("yes"),
        Verdict::No(step) => out.add_number(alloc, u128::from(step)),
    }
}

/// Adds what a checker says of a log, twice.
fn add_verdicts(alloc: Global, formula: &Cnf, log: &Log, out: &mut Sheet) {
    let Ok(mut checker) = Checker::new(alloc, formula, log) else {
        return out.add("no memory");
    };
    add_verdict(alloc, checker.check(formula, log), out);
    out.add(" ");
    add_verdict(alloc, checker.check(formula, log), out);
}

/// Adds what the checker says of a log, twice: `VARS FORMULA | LOG`.
pub fn add_checked(alloc: Global, text: &str, out: &mut Sheet) {
    let (vars, rest) = halves(text, " ");
    let (before, after) = halves(rest, "|");
    match (formula(alloc, vars, before), log(alloc, after.trim())) {
        (Some(formula), Some(log)) => add_verdicts(alloc, &formula, &log, out),
        _ => out.add("no formula, or no log"),
    }
}

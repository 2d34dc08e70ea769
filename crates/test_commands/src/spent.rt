//! Whether a log shows that a budget was spent, by the plain definition: each lemma follows by its hints, and is new.

use sat_base::{Clause, Cnf, Lit, Log, NoMemory};
use std::alloc::Global;

/// The literals of each lemma of a log.
fn lemmas_of(alloc: Global, log: &Log) -> Result<Vec<Clause>, NoMemory> {
    let mut lemmas = Vec::new(alloc);
    for step in 0..log.len() {
        lemmas.push(log.lits(alloc, step)?)?;
    }
    Ok(lemmas)
}

/// The clause or the lemma with this number that stands before a step.
fn earlier<'a>(
    formula: &'a Cnf,
    lemmas: &'a [Clause],
    step: usize,
    number: u64,
) -> Option<&'a [Lit]> {
    if let Some(clause) = formula.clauses().get(number as usize) {
        return Some(clause.as_slice());
    }
    let place = number.saturating_sub(formula.clauses().len() as u64) as usize;
    if place >= step {
        return None;
    }
    match lemmas.get(place) {
        Some(lemma) => Some(lemma.as_slice()),
        None => None,
    }
}

/// What is not false of a clause.
#[derive(Clone, Copy)]
enum Open {
    Nothing,
    One(Lit),
    Several,
}

/// What is not false of a clause, where these literals are.
fn left_open(clause: &[Lit], false_ones: &[Lit]) -> Open {
    let mut found = Open::Nothing;
    for literal in clause {
        if false_ones.contains(literal) {
            continue;
        }
        match found {
            Open::Nothing => found = Open::One(*literal),
            _ => return Open::Several,
        }
    }
    found
}

/// Whether a lemma follows by its hints: each but the last names an earlier clause with exactly one literal that is not false, which
/// so becomes true; the last names one whose literals are all false.
fn follows(
    alloc: Global,
    formula: &Cnf,
    lemmas: &[Clause],
    step: usize,
    lits: &[Lit],
    hints: &[u32],
) -> bool {
    let Ok(mut false_ones) = Vec::from_slice(alloc, lits) else {
        return false;
    };
    let mut hints_left = hints.len();
    for hint in hints {
        hints_left = hints_left.saturating_sub(1);
        let Some(clause) = earlier(formula, lemmas, step, *hint as u64) else {
            return false;
        };
        match left_open(clause, &false_ones) {
            Open::Nothing => return hints_left == 0,
            Open::One(last) => {
                let negated = last.negated();
                if false_ones.contains(&negated) || false_ones.push(negated).is_err() {
                    return false;
                }
            }
            Open::Several => return false,
        }
    }
    false
}

/// Takes the negation of each literal as false that unit propagation makes true, in one pass over the earlier clauses. Gives whether that
/// neither fails nor makes this literal true.
fn is_open_after(
    formula: &Cnf,
    lemmas: &[Clause],
    step: usize,
    own: Lit,
    false_ones: &mut Vec<Lit>,
) -> bool {
    for number in 0..formula.clauses().len().saturating_add(step) {
        let Some(clause) = earlier(formula, lemmas, step, number as u64) else {
            return false;
        };
        match left_open(clause, false_ones) {
            Open::Nothing => return false,
            Open::One(last) => {
                let negated = last.negated();
                if last == own {
                    return false;
                }
                if !false_ones.contains(&negated) && false_ones.push(negated).is_err() {
                    return false;
                }
            }
            Open::Several => {}
        }
    }
    true
}

/// Whether unit propagation from the negations of the lemma's other literals neither fails nor makes this one true.
fn is_new_by(
    alloc: Global,
    formula: &Cnf,
    lemmas: &[Clause],
    step: usize,
    lits: &[Lit],
    own: Lit,
) -> bool {
    let mut false_ones = Vec::new(alloc);
    for literal in lits {
        if *literal != own && false_ones.push(*literal).is_err() {
            return false;
        }
    }
    for _pass in 0..formula.clauses().len().saturating_add(step) {
        if !is_open_after(formula, lemmas, step, own, &mut false_ones) {
            return false;
        }
    }
    true
}

/// Whether a lemma is over the formula's variables, none of them twice, follows, and is new.
fn is_spent_step(
    alloc: Global,
    formula: &Cnf,
    lemmas: &[Clause],
    step: usize,
    lits: &[Lit],
    hints: &[u32],
) -> bool {
    let mut vars = Vec::new(alloc);
    let mut is_new = false;
    for literal in lits {
        if literal.var >= formula.vars()
            || vars.contains(&literal.var)
            || vars.push(literal.var).is_err()
        {
            return false;
        }
        is_new = is_new_by(alloc, formula, lemmas, step, lits, *literal) || is_new;
    }
    is_new && follows(alloc, formula, lemmas, step, lits, hints)
}

/// Whether a log is spent on a budget: so many lemmas, each of which follows and is new.
pub fn is_spent(alloc: Global, formula: &Cnf, log: &Log, budget: usize) -> bool {
    let Ok(lemmas) = lemmas_of(alloc, log) else {
        return false;
    };
    for step in 0..log.len() {
        let Some(lemma) = lemmas.get(step) else {
            return false;
        };
        let lits = lemma.as_slice();
        if !is_spent_step(
            alloc,
            formula,
            lemmas.as_slice(),
            step,
            lits,
            log.hints(step),
        ) {
            return false;
        }
    }
    log.len() == budget
}

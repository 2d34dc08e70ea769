//! The solver: propagates until nothing more follows, decides a variable, and at a conflict learns a
//! lemma and goes back to where that forces a literal.
ghost use Rattle.std.specs.Prelude.{◌≡◌, ℕ, ◌<◌, ◌≤◌, [], IfOk, MatchOption, IsSome, None};
ghost use Rattle.sat_solve.specs.Trail.{sign_at};
ghost use Rattle.sat_solve.specs.State.{IsState};
ghost use Rattle.sat_solve.specs.Search.{IsSearch};
ghost use Rattle.sat_solve.specs.RightAnswer.{IsRightAnswer};

use crate::clauses::hold;
use crate::learning::{back_up, explain, learn};
use crate::order::Order;
use crate::pace::Pace;
use crate::trail::{Entry, Trail};
use crate::watches::{Watches, load, propagate};
use sat_base::{Assignment, Cnf, Lit, Log, NoMemory};
use std::alloc::Global;

/// What the solver found out about a formula.
#[derive(Debug, Drop)]
pub enum Answer {
    /// An assignment that satisfies the formula, with one value for each variable.
    Model(Assignment),
    /// A log that refutes the formula. Its last lemma is the empty one, behind at most `budget`
    /// others.
    Refuted(Log),
    /// A log of `budget` lemmas, each of which follows and is new to unit propagation: the budget
    /// is spent. Propagation over the formula and all of them, from nothing, does not fail.
    Spent(Log),
}

/// Looks for a model or a refutation of the formula (conflict-driven learning, as LRAT checks it
/// without RAT steps; nothing is forgotten). It learns at most `budget` lemmas, which is above 0,
/// besides the empty one. Among its memory are about a hundred bytes for each of the formula's
/// variables: where that or more is wanting, it answers `NoMemory`.
pub fn solve(alloc: Global, cnf: &Cnf, budget: u64) -> Result<Answer, NoMemory>
    requires { 0 < budget }
    ensures { IfOk result (IsRightAnswer cnf.now budget) }
{
    let mut log = Log::new(alloc);
    let mut trail = start(alloc, cnf)?;
    let (watches, found) = load(alloc, cnf, &mut trail)?;
    let mut order = Order::new(alloc, cnf.vars())?;
    match found {
        Some(conflict) => {
            let arena = hold(alloc, cnf)?;
            let lesson = explain(alloc, cnf, &log, &arena, &trail, conflict, 0, &mut order)?;
            log.push(lesson.lemma)?;
            Ok(Answer::Refuted(log))
        }
        None => search(alloc, cnf, budget, watches, trail, order),
    }
}

// The trail to begin with. To look at the clauses tells the proof that they are over the formula's
// variables.
fn start(alloc: Global, cnf: &Cnf) -> Result<Trail, NoMemory>
    ensures state { IfOk result (IsState cnf.now []) }
    ensures empty { IfOk result (λ t. t.entries ≡ []) }
{
    let _ = cnf.clauses();
    Trail::new(alloc, cnf.vars())
}

// The search itself, from a log without lemmas.
fn search(
    alloc: Global,
    cnf: &Cnf,
    budget: u64,
    mut watches: Watches,
    mut trail: Trail,
    mut order: Order,
) -> Result<Answer, NoMemory>
    requires { IsSearch cnf.now [] trail watches.pairs watches.lists watches.head }
    ensures { IfOk result (IsRightAnswer cnf.now budget) }
{
    let arena = hold(alloc, cnf)?;
    let mut log = Log::new(alloc);
    let mut pace = Pace::new();
    let mut base = 0;
    loop {
        match propagate(alloc, cnf, &log, &arena, &mut watches, &mut trail)? {
            Some(conflict) => {
                let lesson = explain(alloc, cnf, &log, &arena, &trail, conflict, base, &mut order)?;
                if lesson.lemma.lits.is_empty() {
                    log.push(lesson.lemma)?;
                    return Ok(Answer::Refuted(log));
                }
                if log.len() as u64 == budget {
                    return Ok(Answer::Spent(log));
                }
                learn(cnf, &mut log, &mut watches, &mut trail, &mut order, lesson)?;
            }
            None => {
                if pace.is_due(log.len() as u64, order.is_restless()) {
                    restart(cnf, &log, &mut watches, &mut trail, &mut order, base);
                } else {
                    match decide(&trail, &mut order) {
                        None => return Ok(Answer::Model(trail.assignment(alloc)?)),
                        Some(lit) => {
                            base = base_of(&trail, base);
                            trail.push(Entry { lit, reason: None })?;
                        }
                    }
                }
            }
        }
    }
}

// How many entries are older than the first decision, once another has been made.
fn base_of(trail: &Trail, base: usize) -> usize {
    if trail.level() == 0 {
        trail.len()
    } else {
        base
    }
}

// The literal to decide next, if a variable has no value.
fn decide(trail: &Trail, order: &mut Order) -> Option<Lit>
    ensures { MatchOption result
        ((v : ℕ) → v < trail.now.vars → IsSome (sign_at trail.now.entries v))
        (λ l. (l.var < trail.now.vars) × (sign_at trail.now.entries l.var ≡ None)) }
{
    for _ in 0..trail.vars() {
        match order.next() {
            None => break,
            Some(var) => {
                if var < trail.vars() && trail.sign(var).is_none() {
                    return Some(order.literal(var));
                }
            }
        }
    }
    match trail.lowest_unassigned() {
        None => None,
        Some(var) => Some(order.literal(var)),
    }
}

// The score of the first variable that has no value.
fn open_score(trail: &Trail, order: &mut Order) -> f64 {
    for _ in 0..trail.vars() {
        match order.first() {
            None => break,
            Some(var) => {
                if var < trail.vars() && trail.sign(var).is_none() {
                    return order.score(var);
                }
                let _ = order.next();
            }
        }
    }
    0.0
}

// How many entries a restart keeps, of which `base` are older than the first decision: those from the first on whose
// decisions would be made again.
fn reused(trail: &Trail, order: &mut Order, base: usize) -> usize {
    let score = open_score(trail, order);
    let count = trail.len();
    for place in base..count {
        let entry = trail.newest(count - 1 - place);
        if entry.reason.is_none() && order.score(entry.lit.var) <= score {
            return place;
        }
    }
    count
}

// Goes back to below a decision that would not be made again, if there is one. The first comes after `base` entries.
fn restart(
    cnf: &Cnf,
    log: &Log,
    watches: &mut Watches,
    trail: &mut Trail,
    order: &mut Order,
    base: usize,
)
    requires { IsSearch cnf.now log.now trail.old watches.old.pairs watches.old.lists watches.old.head }
    ensures { IsSearch cnf.now log.now trail.new watches.new.pairs watches.new.lists watches.new.head }
{
    let keep = reused(trail, order, base);
    let count = trail.len();
    if keep < count && trail.newest(count - 1 - keep).reason.is_none() {
        back_up(watches, trail, order, count - keep);
    }
}

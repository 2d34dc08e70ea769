//! Learning: the lemma that a conflict teaches, the hints by which it follows, and the way back.
ghost use Rattle.std.specs.Prelude.{◌≡◌, ◌≢◌, ℕ, ◌+◌, ◌^◌, ◌<◌, ◌≤◌, [], ◌∷◌, length, map, drop, IfOk, OnOk, slice_get, Some, None, reverse};
ghost use Rattle.sat_base.specs.Formula.{IsClauseOver};
ghost use Rattle.sat_base.specs.Log.{HasEachVariableOnce};
ghost use Rattle.sat_base.specs.Propagation.{Follows};
ghost use Rattle.sat_solve.specs.State.{known_clauses, IsState};
ghost use Rattle.sat_solve.specs.Found.{IsConflictAt};
ghost use Rattle.sat_solve.specs.Decisions.{IsUndecided, IsBelowLevel};
ghost use Rattle.sat_solve.specs.Walk.{IsWalked, AreUnmarked};
ghost use Rattle.sat_solve.specs.Search.{IsSearch};
ghost use Rattle.sat_solve.specs.Lesson.{IsTaught, IsLesson, IsForcedFrom, IsDescended};

use crate::arena::Arena;
use crate::clauses::clause;
use crate::minimizing::Minimizer;
use crate::order::Order;
use crate::trail::{Entry, Trail};
use crate::walk::{Walk, begin, below_level, keep, step, walk_all, walk_to_point};
use crate::watches::{Watches, add};
use sat_base::{Clause, Cnf, Hints, Lemma, Lit, Log, NoMemory};
use std::alloc::Global;

/// A lemma, and the place in the trail from which on it forces its first literal.
#[derive(Drop)]
pub struct Lesson {
    pub lemma: Lemma,
    pub back: usize,
}

/// What a conflict teaches: its first unique implication point, without what the rest implies.
/// `base` is how many entries are taken to be older than all decisions.
pub fn explain(
    alloc: Global,
    cnf: &Cnf,
    log: &Log,
    arena: &Arena,
    trail: &Trail,
    conflict: u64,
    base: usize,
    order: &mut Order,
) -> Result<Lesson, NoMemory>
    requires state { IsState cnf.now log.now trail.now }
    requires holding { arena.now ≡ cnf.now.clauses }
    requires conflict { IsConflictAt (known_clauses cnf.now log.now) trail.now.entries conflict }
    ensures known { IfOk result (λ s. IsClauseOver trail.now.vars s.lemma.lits) }
    ensures once { IfOk result (λ s. HasEachVariableOnce s.lemma.lits) }
    ensures follows { IfOk result (λ s. Follows (known_clauses cnf.now log.now) s.lemma.lits s.lemma.hints) }
    ensures undecided { IfOk result (λ s. IsUndecided trail.now.entries 0 (length trail.now.entries) → s.lemma.lits ≡ []) }
    ensures taught { IfOk result (λ s. IsTaught (known_clauses cnf.now log.now) trail.now.entries s.lemma.lits s.back) }
{
    let mut walk = begin(alloc, cnf, log, arena, trail, conflict)?;
    match below_level(trail) {
        None => {
            walk_all(cnf, log, arena, trail, &mut walk)?;
            Ok(finish(walk, 0))
        }
        Some(start) => {
            let point = walk_to_point(cnf, log, arena, trail, &mut walk, start)?;
            keep_point(cnf, log, trail, &mut walk, point, start)?;
            bump(order, walk.seen.as_slice());
            let back = walk_below(alloc, cnf, log, arena, trail, &mut walk, start, base)?;
            bump_reasons(cnf, log, arena, trail, order, walk.lits.as_slice());
            weigh(trail, order, walk.lits.as_slice());
            Ok(finish(walk, back))
        }
    }
}

// The variables have had a part in a lemma.
fn bump(order: &mut Order, seen: &[u64]) {
    for var in seen {
        order.bump(*var);
    }
}

// The variables in the reasons of the lemma's literals have had a part in it too.
fn bump_reasons(cnf: &Cnf, log: &Log, arena: &Arena, trail: &Trail, order: &mut Order, lits: &[Lit])
    requires state { IsState cnf.now log.now trail.now }
    requires holding { arena.now ≡ cnf.now.clauses }
{
    for lit in lits {
        match trail.reason(lit.var) {
            None => {}
            Some(reason) => {
                for code in clause(cnf, log, arena, reason) {
                    order.bump((*code / 2) as u64);
                }
            }
        }
    }
}

// How many levels the literals of the lemma are of.
fn weigh(trail: &Trail, order: &mut Order, lits: &[Lit]) {
    for lit in lits {
        order.meet(trail.level_of(lit.var));
    }
    order.end_lemma();
}

// What the walk has gathered at its end.
fn finish(walk: Walk, back: usize) -> Lesson
    ensures lits { result.lemma.lits ≡ walk.lits.items }
    ensures hints { result.lemma.hints ≡ reverse walk.numbers.items }
    ensures back { result.back ≡ back }
{
    let Walk {
        marks: _,
        lits,
        mut numbers,
        seen: _,
    } = walk;
    numbers.reverse();
    Lesson {
        lemma: Lemma {
            lits: Clause::from_vec(lits),
            hints: Hints::from_vec(numbers),
        },
        back,
    }
}

// Takes the opposite of the unique implication point into the lemma, and goes on below the level.
fn keep_point(
    cnf: &Cnf,
    log: &Log,
    trail: &Trail,
    walk: &mut Walk,
    point: usize,
    start: usize,
) -> Result<(), NoMemory>
    requires state { IsState cnf.now log.now trail.now }
    requires level { IsBelowLevel trail.now.entries start }
    requires point { point < start }
    requires walked { IsWalked (known_clauses cnf.now log.now) trail.now.entries trail.now.vars point walk.old.marks walk.old.lits.items walk.old.numbers.items }
    requires lits { walk.old.lits.items ≡ [] }
    requires alone { AreUnmarked trail.now.entries walk.old.marks (point + 1) start }
    ensures walked { OnOk result (IsWalked (known_clauses cnf.now log.now) trail.now.entries trail.now.vars start walk.new.marks walk.new.lits.items walk.new.numbers.items) }
    ensures point { OnOk result (IsForcedFrom trail.now.entries start start start walk.new.lits.items) }
{
    keep(cnf, log, trail, walk, point)?;
    Ok(())
}

// Goes on from below the last decision to the end. Gives the place from which on the lemma forces its
// first literal.
fn walk_below(
    alloc: Global,
    cnf: &Cnf,
    log: &Log,
    arena: &Arena,
    trail: &Trail,
    walk: &mut Walk,
    start: usize,
    base: usize,
) -> Result<usize, NoMemory>
    requires state { IsState cnf.now log.now trail.now }
    requires holding { arena.now ≡ cnf.now.clauses }
    requires start { start ≤ length trail.now.entries }
    requires walked { IsWalked (known_clauses cnf.now log.now) trail.now.entries trail.now.vars start walk.old.marks walk.old.lits.items walk.old.numbers.items }
    requires point { IsForcedFrom trail.now.entries start start start walk.old.lits.items }
    ensures known { IfOk result (λ back. IsClauseOver trail.now.vars walk.new.lits.items) }
    ensures once { IfOk result (λ back. HasEachVariableOnce walk.new.lits.items) }
    ensures follows { IfOk result (λ back. Follows (known_clauses cnf.now log.now) walk.new.lits.items (reverse walk.new.numbers.items)) }
    ensures point { IfOk result (λ back. IsForcedFrom trail.now.entries start back (length trail.now.entries) walk.new.lits.items) }
{
    let mut minimizer = Minimizer::new(alloc, trail.vars(), base)?;
    let mut back = start;
    for k in start..trail.len() {
        if walk.lits.len() > 1 && walk.marks.is_empty() {
            return Ok(back);
        }
        let var = trail.newest(k).lit.var;
        let implied = walk.marks.contains(var)
            && minimizer.is_implied(cnf, log, arena, trail, &walk.marks, var);
        step(cnf, log, arena, trail, walk, k, implied)?;
        back = lowered(cnf, log, trail, walk, k, start, back);
    }
    Ok(back)
}

// The place from which on the lemma forces its first literal, once the walk has gone over place `k`:
// while there is no other literal, a decision is undone.
fn lowered(
    cnf: &Cnf,
    log: &Log,
    trail: &Trail,
    walk: &Walk,
    k: usize,
    start: usize,
    back: usize,
) -> usize
    requires state { IsState cnf.now log.now trail.now }
    requires place { k < length trail.now.entries }
    requires fits { k + 1 < 2 ^ 64 }
    requires point { IsDescended trail.now.entries start back k walk.now.lits.items }
    ensures point { IsForcedFrom trail.now.entries start result (k + 1) walk.now.lits.items }
    ensures within { result ≤ k + 1 }
{
    if walk.lits.len() > 1 {
        return back;
    }
    match trail.newest(k).reason {
        None => k + 1,
        Some(_) => back,
    }
}

/// Adds the lemma to the log, goes back to where it forces its first literal, and puts that on the
/// trail.
pub fn learn(
    cnf: &Cnf,
    log: &mut Log,
    watches: &mut Watches,
    trail: &mut Trail,
    order: &mut Order,
    lesson: Lesson,
) -> Result<(), NoMemory>
    requires search { IsSearch cnf.now log.old trail.old watches.old.pairs watches.old.lists watches.old.head }
    requires known { IsClauseOver trail.old.vars lesson.lemma.lits }
    requires once { HasEachVariableOnce lesson.lemma.lits }
    requires follows { Follows (known_clauses cnf.now log.old) lesson.lemma.lits lesson.lemma.hints }
    requires taught { IsLesson (known_clauses cnf.now log.old) trail.old.entries lesson.lemma.lits lesson.back }
    ensures search { OnOk result (IsSearch cnf.now log.new trail.new watches.new.pairs watches.new.lists watches.new.head) }
    ensures longer { OnOk result (length log.new ≡ length log.old + 1) }
{
    let number = (cnf.clauses().len() + log.len()) as u64;
    if number == u64::MAX {
        return Err(NoMemory);
    }
    let lits = lesson.lemma.lits.as_slice();
    let first = lits[0];
    let second = if lits.len() > 1 { lits[1] } else { first };
    back_up(watches, trail, order, lesson.back);
    trail.push(Entry {
        lit: first,
        reason: Some(number),
    })?;
    add(watches, first, second)?;
    log.push(lesson.lemma)?;
    Ok(())
}

/// Takes this many entries off.
pub fn back_up(watches: &mut Watches, trail: &mut Trail, order: &mut Order, count: usize)
    ensures trail { trail.new ≡ record { vars = trail.old.vars; entries = drop count trail.old.entries } }
    ensures watches { watches.new ≡ record { pairs = watches.old.pairs; lists = watches.old.lists; head = length (drop count trail.old.entries) } }
{
    for _ in 0..count {
        match trail.pop() {
            Some(entry) => order.release(entry.lit),
            None => {}
        }
    }
    watches.head = trail.len();
}

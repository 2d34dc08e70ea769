//! The walk back over the trail from a conflict: it gathers the literals of a lemma, and the hints by
//! which the lemma follows.
ghost use Rattle.std.specs.Prelude.{◌≡◌, ℕ, ◌+◌, ◌<◌, ◌≤◌, [], ◌∷◌, ◌++◌, ◌⊎◌, ◌/◌, length, map, IfOk, OnOk, Some, None, IsSome, MatchOption, slice_get, slice_index_or, drop, Bool, true, false};
ghost use Rattle.sat_base.specs.Literal.{negation};
ghost use Rattle.sat_solve.specs.declared.trail.Entry.{Entry};
ghost use Rattle.sat_solve.specs.State.{known_clauses, IsState};
ghost use Rattle.sat_solve.specs.Found.{IsConflictAt};
ghost use Rattle.sat_solve.specs.Decisions.{IsUndecided, IsBelowLevel};
ghost use Rattle.sat_solve.specs.Walk.{IsWalked, AreUnmarked};

use crate::arena::Arena;
use crate::clauses::clause;
use crate::marks::Marks;
use crate::trail::Trail;
use sat_base::{Cnf, Lit, Log, NoMemory};
use std::alloc::Global;

/// What a walk has gathered: the variables that it still has to look at, the literals of the lemma,
/// and the numbers of the clauses that lead to the conflict, the last one first. The variables that
/// were to be looked at once are listed too; they have had a part in the lemma.
#[derive(Drop)]
pub struct Walk {
    pub marks: Marks,
    pub lits: Vec<Lit>,
    pub numbers: Vec<u64>,
    pub seen: Vec<u64>,
}

/// The walk at the conflict.
pub fn begin(
    alloc: Global,
    cnf: &Cnf,
    log: &Log,
    arena: &Arena,
    trail: &Trail,
    conflict: u64,
) -> Result<Walk, NoMemory>
    requires state { IsState cnf.now log.now trail.now }
    requires holding { arena.now ≡ cnf.now.clauses }
    requires conflict { IsConflictAt (known_clauses cnf.now log.now) trail.now.entries conflict }
    ensures walked { IfOk result (λ w. IsWalked (known_clauses cnf.now log.now) trail.now.entries trail.now.vars 0 w.marks w.lits.items w.numbers.items) }
    ensures lits { IfOk result (λ w. w.lits.items ≡ []) }
{
    let mut marks = Marks::new(alloc, trail.vars() as usize)?;
    let mut numbers = Vec::new(alloc);
    let mut seen = Vec::new(alloc);
    mark(&mut marks, &mut seen, clause(cnf, log, arena, conflict))?;
    numbers.push(conflict)?;
    Ok(Walk {
        marks,
        lits: Vec::new(alloc),
        numbers,
        seen,
    })
}

// Marks the variables of the codes, and lists those that were not marked.
fn mark(marks: &mut Marks, seen: &mut Vec<u64>, codes: &[u32]) -> Result<(), NoMemory>
    requires { (k : ℕ) → k < length codes.now → slice_index_or codes.now k 0 / 2 < length marks.old }
    ensures sized { OnOk result (length marks.new ≡ length marks.old) }
    ensures kept { OnOk result ((v : ℕ) → slice_index_or marks.old v false ≡ true → slice_index_or marks.new v false ≡ true) }
    ensures all { OnOk result ((k : ℕ) → k < length codes.now → slice_index_or marks.new (slice_index_or codes.now k 0 / 2) false ≡ true) }
{
    for code in codes {
        let var = (*code / 2) as u64;
        if !marks.contains(var) {
            marks.insert(var);
            seen.push(var)?;
        }
    }
    Ok(())
}

/// Goes on over the entry at place `k`, whose opposite goes into the lemma.
pub fn keep(cnf: &Cnf, log: &Log, trail: &Trail, walk: &mut Walk, k: usize) -> Result<(), NoMemory>
    requires state { IsState cnf.now log.now trail.now }
    requires place { k < length trail.now.entries }
    requires walked { IsWalked (known_clauses cnf.now log.now) trail.now.entries trail.now.vars k walk.old.marks walk.old.lits.items walk.old.numbers.items }
    ensures walked { OnOk result (IsWalked (known_clauses cnf.now log.now) trail.now.entries trail.now.vars (k + 1) walk.new.marks walk.new.lits.items walk.new.numbers.items) }
    ensures lits { OnOk result ((e : Entry) → slice_get trail.now.entries k ≡ Some e → walk.new.lits.items ≡ walk.old.lits.items ++ negation e.lit ∷ []) }
    ensures marks { OnOk result ((v : ℕ) → slice_index_or walk.new.marks v false ≡ true → slice_index_or walk.old.marks v false ≡ true) }
{
    let lit = trail.newest(k).lit;
    walk.marks.remove(lit.var);
    walk.lits.push(lit.negated())?;
    Ok(())
}

/// Goes on over the entry at place `k`, whose reason is the clause of this number: this is a hint, and
/// its other literals are looked at further on.
pub fn expand(
    cnf: &Cnf,
    log: &Log,
    arena: &Arena,
    trail: &Trail,
    walk: &mut Walk,
    k: usize,
    reason: u64,
) -> Result<(), NoMemory>
    requires state { IsState cnf.now log.now trail.now }
    requires holding { arena.now ≡ cnf.now.clauses }
    requires reason { (e : Entry) × (slice_get trail.now.entries k ≡ Some e) × (e.reason ≡ Some reason) }
    requires walked { IsWalked (known_clauses cnf.now log.now) trail.now.entries trail.now.vars k walk.old.marks walk.old.lits.items walk.old.numbers.items }
    ensures walked { OnOk result (IsWalked (known_clauses cnf.now log.now) trail.now.entries trail.now.vars (k + 1) walk.new.marks walk.new.lits.items walk.new.numbers.items) }
    ensures lits { OnOk result (walk.new.lits.items ≡ walk.old.lits.items) }
{
    let codes = clause(cnf, log, arena, reason);
    mark(&mut walk.marks, &mut walk.seen, codes)?;
    walk.marks.remove(trail.newest(k).lit.var);
    walk.numbers.push(reason)?;
    Ok(())
}

/// Goes on over the entry at place `k`. Where it is looked at, either its reason is a hint, if it has
/// one and is taken for `implied`, or its opposite goes into the lemma.
pub fn step(
    cnf: &Cnf,
    log: &Log,
    arena: &Arena,
    trail: &Trail,
    walk: &mut Walk,
    k: usize,
    implied: bool,
) -> Result<(), NoMemory>
    requires state { IsState cnf.now log.now trail.now }
    requires holding { arena.now ≡ cnf.now.clauses }
    requires place { k < length trail.now.entries }
    requires walked { IsWalked (known_clauses cnf.now log.now) trail.now.entries trail.now.vars k walk.old.marks walk.old.lits.items walk.old.numbers.items }
    ensures walked { OnOk result (IsWalked (known_clauses cnf.now log.now) trail.now.entries trail.now.vars (k + 1) walk.new.marks walk.new.lits.items walk.new.numbers.items) }
    ensures lits { OnOk result ((e : Entry) → slice_get trail.now.entries k ≡ Some e → (walk.new.lits.items ≡ walk.old.lits.items) ⊎ (walk.new.lits.items ≡ walk.old.lits.items ++ negation e.lit ∷ [])) }
    ensures implied { OnOk result ((e : Entry) → slice_get trail.now.entries k ≡ Some e → IsSome e.reason → implied ≡ true → walk.new.lits.items ≡ walk.old.lits.items) }
{
    let entry = trail.newest(k);
    if !walk.marks.contains(entry.lit.var) {
        return Ok(());
    }
    match entry.reason {
        None => keep(cnf, log, trail, walk, k),
        Some(reason) => {
            if implied {
                expand(cnf, log, arena, trail, walk, k, reason)
            } else {
                keep(cnf, log, trail, walk, k)
            }
        }
    }
}

/// The place right below the last decision.
pub fn below_level(trail: &Trail) -> Option<usize>
    ensures { MatchOption result (IsUndecided trail.now.entries 0 (length trail.now.entries)) (IsBelowLevel trail.now.entries) }
{
    for k in 0..trail.len() {
        if trail.newest(k).reason.is_none() {
            return Some(k + 1);
        }
    }
    None
}

/// Where there is no decision, all that is looked at has a reason, and the lemma stays empty.
pub fn walk_all(
    cnf: &Cnf,
    log: &Log,
    arena: &Arena,
    trail: &Trail,
    walk: &mut Walk,
) -> Result<(), NoMemory>
    requires state { IsState cnf.now log.now trail.now }
    requires holding { arena.now ≡ cnf.now.clauses }
    requires undecided { IsUndecided trail.now.entries 0 (length trail.now.entries) }
    requires walked { IsWalked (known_clauses cnf.now log.now) trail.now.entries trail.now.vars 0 walk.old.marks walk.old.lits.items walk.old.numbers.items }
    requires lits { walk.old.lits.items ≡ [] }
    ensures walked { OnOk result (IsWalked (known_clauses cnf.now log.now) trail.now.entries trail.now.vars (length trail.now.entries) walk.new.marks walk.new.lits.items walk.new.numbers.items) }
    ensures lits { OnOk result (walk.new.lits.items ≡ []) }
{
    for k in 0..trail.len() {
        step(cnf, log, arena, trail, walk, k, true)?;
    }
    Ok(())
}

// Whether no entry from place `from` on, up to `to`, is looked at.
fn are_unmarked(trail: &Trail, marks: &Marks, from: usize, to: usize) -> bool
    requires marks { length marks.now ≡ trail.now.vars }
    requires places { to ≤ length trail.now.entries }
    ensures { result ≡ true → AreUnmarked trail.now.entries marks.now from to }
{
    for k in from..to {
        if marks.contains(trail.newest(k).lit.var) {
            return false;
        }
    }
    true
}

/// Goes on to the first unique implication point: the place of the entry of the last level that alone
/// is still looked at. The decision is the last that may be one; it stands right before `start`.
pub fn walk_to_point(
    cnf: &Cnf,
    log: &Log,
    arena: &Arena,
    trail: &Trail,
    walk: &mut Walk,
    start: usize,
) -> Result<usize, NoMemory>
    requires state { IsState cnf.now log.now trail.now }
    requires holding { arena.now ≡ cnf.now.clauses }
    requires level { IsBelowLevel trail.now.entries start }
    requires walked { IsWalked (known_clauses cnf.now log.now) trail.now.entries trail.now.vars 0 walk.old.marks walk.old.lits.items walk.old.numbers.items }
    requires lits { walk.old.lits.items ≡ [] }
    ensures walked { IfOk result (λ k. IsWalked (known_clauses cnf.now log.now) trail.now.entries trail.now.vars k walk.new.marks walk.new.lits.items walk.new.numbers.items) }
    ensures lits { IfOk result (λ k. walk.new.lits.items ≡ []) }
    ensures place { IfOk result (λ k. k < start) }
    ensures alone { IfOk result (λ k. AreUnmarked trail.now.entries walk.new.marks (k + 1) start) }
{
    for k in 0..start - 1 {
        if walk.marks.contains(trail.newest(k).lit.var)
            && are_unmarked(trail, &walk.marks, k + 1, start)
        {
            return Ok(k);
        }
        step(cnf, log, arena, trail, walk, k, true)?;
    }
    Ok(start - 1)
}

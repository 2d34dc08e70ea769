//! Unit propagation by watched literals.
ghost use Rattle.std.specs.Prelude.{true, false, ◌≡◌, ◌≢◌, ℕ, ◌+◌, ◌-◌, ◌*◌, ◌^◌, ◌<◌, ◌≤◌, ◌⊎◌, [], ◌∷◌, ◌++◌, length, map, All, IfOk, OnOk, MatchOption, Contains, Some, None, slice_get, slice_index_or};
ghost use Rattle.sat_solve.specs.Trail.{IsFalseIn, IsClosed};
ghost use Rattle.sat_solve.specs.State.{known_clauses, IsState};
ghost use Rattle.sat_solve.specs.Found.{IsConflictAt};
ghost use Rattle.sat_base.specs.Codes.{literal_of, code_of};
ghost use Rattle.sat_base.specs.declared.literals.Lit.{Lit};
ghost use Rattle.sat_solve.specs.Decisions.{IsUndecided};
ghost use Rattle.sat_solve.specs.Watches.{IsFitting, IsLooked, IsPairedAt, IsAdded};
ghost use Rattle.sat_solve.specs.Search.{held_of, IsSearch, IsNext, IsLoaded};

use crate::arena::Arena;
use crate::clauses::clause;
use crate::lists::{Lists, Watch};
use crate::pairs::{Pair, Pairs};
use crate::trail::{Entry, Trail, Truth};
use sat_base::{Cnf, Lit, Log, NoMemory, decode, encode};
use std::alloc::Global;

/// The watches of the clauses, and how many entries of the trail, the oldest first, have been gone over.
#[derive(Drop)]
pub struct Watches {
    pub pairs: Pairs,
    pub lists: Lists,
    pub head: usize,
}

/// What comes of a look at a clause: the watch stays in its list, with this blocker; it has moved to
/// another list; or all literals of the clause are false.
#[derive(Clone, Copy)]
pub enum Outcome {
    Stays(Watch),
    Moved,
    Falsified,
}

/// A literal that may be watched, and where it stands in its clause.
#[derive(Clone, Copy)]
pub struct Found {
    pub code: u32,
    pub at: u32,
}

// A literal besides `other` that is not false, between two places of a clause.
#[inline]
fn open_between(trail: &Trail, codes: &[u32], other: u32, begin: usize, end: usize) -> Option<Found>
    requires { end ≤ length codes.now }
    ensures { MatchOption result
        ((k : ℕ) → begin ≤ k → k < end → (slice_index_or codes.now k 0 ≡ other) ⊎ IsFalseIn trail.now.entries (literal_of (slice_index_or codes.now k 0)))
        (λ f. Contains codes.now f.code × (f.code ≢ other) × (¬ IsFalseIn trail.now.entries (literal_of f.code))) }
{
    for at in begin..end {
        let code = codes[at];
        match trail.truth(code) {
            Truth::False => {}
            _ => {
                if code != other {
                    return Some(Found {
                        code,
                        at: u32::try_from(at).unwrap_or(0),
                    });
                }
            }
        }
    }
    None
}

// A literal of the clause besides `other` that is not false. The search begins at `from`, where the last one
// ended: what stands before is mostly false still.
#[inline]
fn replacement(trail: &Trail, codes: &[u32], other: u32, from: u32) -> Option<Found>
    ensures { MatchOption result
        ((c : ℕ) → Contains codes.now c → (c ≡ other) ⊎ IsFalseIn trail.now.entries (literal_of c))
        (λ f. Contains codes.now f.code × (f.code ≢ other) × (¬ IsFalseIn trail.now.entries (literal_of f.code))) }
{
    let count = codes.len();
    let middle = count.min(from as usize);
    match open_between(trail, codes, other, middle, count) {
        Some(found) => Some(found),
        None => open_between(trail, codes, other, 0, middle),
    }
}

// Looks at the clause of a watch, since the literal of `code` at which it is watched is false.
fn look(
    cnf: &Cnf,
    log: &Log,
    arena: &Arena,
    watches: &mut Watches,
    trail: &mut Trail,
    code: u32,
    watch: Watch,
) -> Result<Outcome, NoMemory>
    requires state { IsState cnf.now log.now trail.old }
    requires holding { arena.now ≡ cnf.now.clauses }
    requires lits { map (λ h. h.lits) (held_of cnf.now log.now watches.old.pairs) ≡ known_clauses cnf.now log.now }
    requires sized { length watches.old.lists ≡ 2 * trail.old.vars }
    requires fitting { IsFitting (held_of cnf.now log.now watches.old.pairs) watch }
    requires paired { IsPairedAt (held_of cnf.now log.now watches.old.pairs) watch.clause }
    requires falsified { IsFalseIn trail.old.entries (literal_of code) }
    ensures state { OnOk result (IsState cnf.now log.now trail.new) }
    ensures looked { IfOk result (IsLooked trail.old.entries trail.new.entries (held_of cnf.now log.now watches.old.pairs) (held_of cnf.now log.now watches.new.pairs) watches.old.lists watches.new.lists code watch.clause) }
    ensures sized { OnOk result (length watches.new.pairs ≡ length watches.old.pairs) }
    ensures head { OnOk result (watches.new.head ≡ watches.old.head) }
{
    match trail.truth(watch.blocker) {
        Truth::True => return Ok(Outcome::Stays(watch)),
        _ => {}
    }
    let number = watch.clause as usize;
    let pair = watches.pairs.pair(number);
    let other = if pair.first == code {
        pair.second
    } else {
        pair.first
    };
    let stays = Watch {
        clause: watch.clause,
        blocker: other,
    };
    let truth = trail.truth(other);
    match truth {
        Truth::True => return Ok(Outcome::Stays(stays)),
        _ => {}
    }
    let codes = clause(cnf, log, arena, watch.clause as u64);
    let from = watches.pairs.from(number);
    match replacement(trail, codes, other, from) {
        Some(next) => {
            // A true literal need not be watched: it will do as the blocker.
            match trail.truth(next.code) {
                Truth::True => {
                    return Ok(Outcome::Stays(Watch {
                        clause: watch.clause,
                        blocker: next.code,
                    }));
                }
                _ => {}
            }
            watches.lists.push(next.code, stays)?;
            watches.pairs.watch_at(
                number,
                Pair {
                    first: other,
                    second: next.code,
                },
                next.at,
            );
            Ok(Outcome::Moved)
        }
        None => match truth {
            Truth::False => Ok(Outcome::Falsified),
            _ => {
                trail.push(Entry {
                    lit: decode(other),
                    reason: Some(watch.clause as u64),
                })?;
                Ok(Outcome::Stays(stays))
            }
        },
    }
}

// Goes over the clauses that are watched at the literal of this code, which the oldest entry that has
// not been gone over makes false, the last one first. Gives the number of a clause whose literals are
// all false, if it comes to one.
fn visit(
    alloc: Global,
    cnf: &Cnf,
    log: &Log,
    arena: &Arena,
    watches: &mut Watches,
    trail: &mut Trail,
    code: u32,
) -> Result<Option<u64>, NoMemory>
    requires search { IsSearch cnf.now log.now trail.old watches.old.pairs watches.old.lists watches.old.head }
    requires holding { arena.now ≡ cnf.now.clauses }
    requires next { IsNext trail.old.entries watches.old.head code }
    requires code { code < length watches.old.lists }
    ensures found { IfOk result (λ r. MatchOption r
        (IsSearch cnf.now log.now trail.new watches.new.pairs watches.new.lists (watches.new.head + 1))
        (λ n. IsSearch cnf.now log.now trail.new watches.new.pairs watches.new.lists watches.new.head
        × IsConflictAt (known_clauses cnf.now log.now) trail.new.entries n)) }
    ensures head { OnOk result (watches.new.head ≡ watches.old.head) }
    ensures grown { OnOk result (length trail.old.entries ≤ length trail.new.entries) }
{
    let mut list = watches.lists.take(alloc, code);
    let mut rest = list.len();
    while rest > 0 {
        rest -= 1;
        let watch = list[rest];
        match look(cnf, log, arena, watches, trail, code, watch)? {
            Outcome::Stays(stays) => list[rest] = stays,
            Outcome::Moved => {
                let _ = list.swap_remove(rest);
            }
            Outcome::Falsified => {
                watches.lists.put(code, list);
                return Ok(Some(watch.clause as u64));
            }
        }
    }
    watches.lists.put(code, list);
    Ok(None)
}

/// Propagates until nothing more follows. Gives the number of a clause whose literals are all false, if
/// it comes to one.
pub fn propagate(
    alloc: Global,
    cnf: &Cnf,
    log: &Log,
    arena: &Arena,
    watches: &mut Watches,
    trail: &mut Trail,
) -> Result<Option<u64>, NoMemory>
    requires search { IsSearch cnf.now log.now trail.old watches.old.pairs watches.old.lists watches.old.head }
    requires holding { arena.now ≡ cnf.now.clauses }
    ensures search { OnOk result (IsSearch cnf.now log.now trail.new watches.new.pairs watches.new.lists watches.new.head) }
    ensures grown { OnOk result (length trail.old.entries ≤ length trail.new.entries) }
    ensures found { IfOk result (λ r. MatchOption r
        (IsClosed (known_clauses cnf.now log.now) trail.new.entries × (watches.new.head ≡ length trail.new.entries))
        (IsConflictAt (known_clauses cnf.now log.now) trail.new.entries)) }
{
    while watches.head < trail.len() {
        let entry = trail.newest(trail.len() - 1 - watches.head);
        let code = encode(entry.lit.negated());
        match visit(alloc, cnf, log, arena, watches, trail, code)? {
            Some(number) => return Ok(Some(number)),
            None => watches.head += 1,
        }
    }
    Ok(None)
}

/// The watches of the formula's clauses. What clauses of one literal force is put on the trail. Where
/// such a literal is false already, or a clause is empty, gives the clause's number.
pub fn load(alloc: Global, cnf: &Cnf, trail: &mut Trail) -> Result<(Watches, Option<u64>), NoMemory>
    requires state { IsState cnf.now [] trail.old }
    requires empty { trail.old.entries ≡ [] }
    ensures found { IfOk result (λ r. MatchOption r.1
        (IsSearch cnf.now [] trail.new r.0.pairs r.0.lists r.0.head)
        (λ n. IsState cnf.now [] trail.new × IsConflictAt (known_clauses cnf.now []) trail.new.entries n)) }
    ensures undecided { OnOk result (IsUndecided trail.new.entries 0 (length trail.new.entries)) }
{
    // More variables would take more than 50 GiB.
    if cnf.vars() >= 1 << 31 {
        return Err(NoMemory);
    }
    let mut watches = Watches {
        pairs: Pairs::new(alloc),
        lists: Lists::new(alloc, 2 * cnf.vars() as usize)?,
        head: 0,
    };
    let count = cnf.clauses().len();
    for number in 0..count {
        if load_clause(cnf, &mut watches, trail, number as u64)? {
            return Ok((watches, Some(number as u64)));
        }
    }
    Ok((watches, None))
}

// Adds a clause of the formula. Says whether all its literals are false; then it is not added.
fn load_clause(
    cnf: &Cnf,
    watches: &mut Watches,
    trail: &mut Trail,
    number: u64,
) -> Result<bool, NoMemory>
    requires loaded { IsLoaded cnf.now trail.old watches.old.pairs watches.old.lists watches.old.head number }
    requires number { number < length cnf.now.clauses }
    ensures added { IfOk result (λ b. b ≡ false → IsLoaded cnf.now trail.new watches.new.pairs watches.new.lists watches.new.head (number + 1)) }
    ensures found { IfOk result (λ b. b ≡ true → IsState cnf.now [] trail.new × IsUndecided trail.new.entries 0 (length trail.new.entries) × IsConflictAt (known_clauses cnf.now []) trail.new.entries number) }
{
    let lits = cnf.clauses()[number as usize].as_slice();
    if lits.is_empty() {
        return Ok(true);
    }
    let first = lits[0];
    match other_literal(lits, first) {
        Some(second) => {
            add(watches, first, second)?;
            Ok(false)
        }
        None => match trail.sign(first.var) {
            Some(sign) => {
                if sign != first.negative {
                    return Ok(true);
                }
                add(watches, first, first)?;
                Ok(false)
            }
            None => {
                trail.push(Entry {
                    lit: first,
                    reason: Some(number),
                })?;
                add(watches, first, first)?;
                Ok(false)
            }
        },
    }
}

// A literal of the clause besides this one.
fn other_literal(lits: &[Lit], first: Lit) -> Option<Lit>
    ensures { MatchOption result ((x : Lit) → Contains lits.now x → x ≡ first) (λ y. Contains lits.now y × ¬ (y ≡ first)) }
{
    for lit in lits {
        if *lit != first {
            return Some(*lit);
        }
    }
    None
}

/// Adds a clause that is watched at these two literals, which are one where it has no other.
pub fn add(watches: &mut Watches, first: Lit, second: Lit) -> Result<(), NoMemory>
    requires few { length watches.old.lists ≤ 2 ^ 32 }
    requires first { 2 * first.var + 1 < length watches.old.lists }
    requires second { 2 * second.var + 1 < length watches.old.lists }
    ensures added { OnOk result (IsAdded watches.old.pairs watches.new.pairs watches.old.lists watches.new.lists first second) }
    ensures head { OnOk result (watches.new.head ≡ watches.old.head) }
{
    let number = watches.pairs.len();
    // More clauses would take more than 48 GiB.
    if number >= u32::MAX as usize {
        return Err(NoMemory);
    }
    let clause = number as u32;
    let pair = Pair {
        first: encode(first),
        second: encode(second),
    };
    watches.pairs.push(pair)?;
    let at_first = Watch {
        clause,
        blocker: pair.second,
    };
    watches.lists.push(pair.first, at_first)?;
    let at_second = Watch {
        clause,
        blocker: pair.first,
    };
    watches.lists.push(pair.second, at_second)?;
    Ok(())
}

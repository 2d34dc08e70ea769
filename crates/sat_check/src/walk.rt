//! The walk along the hints of one lemma, over literals by number.
ghost use Rattle.std.specs.Prelude.{◌≡◌, ℕ, ◌+◌, ◌^◌, ◌%◌, ◌<◌, ◌≤◌, ◌↔◌, List, [], Bool, false, length, take, map, All, IsTrue, MatchOption, slice_index_or, replicate};
ghost use Rattle.sat_base.specs.declared.literals.Lit.{Lit};
ghost use Rattle.sat_base.specs.Propagation.{IsConflictBy};
ghost use Rattle.sat_check.specs.Numbering.{opposite, IsNumbering};
ghost use Rattle.sat_check.specs.Walk.{IsLeft, IsForced, IsFalsified, Represents, ArePlaces};

use crate::arena::Arena;
use crate::marks::Marks;

/// What is left of a clause besides the marked literals: no literal, one, or several different ones.
#[derive(Clone, Copy)]
pub enum Left {
    Nothing,
    One(u32),
    Several,
}

/// The number of the literal of the same variable with the other sign.
#[inline]
pub fn opposite_of(literal: u32) -> u32
    ensures { result ≡ opposite literal }
{
    if literal % 2 == 0 {
        literal + 1
    } else {
        literal - 1
    }
}

/// What is left of the clause. A literal that stands twice counts once.
#[inline]
pub fn left_of(clause: &[u32], marks: &Marks) -> Left
    requires { All (λ x. x < length marks.now) clause.now }
    ensures { IsLeft marks.now clause.now result }
{
    let mut left = None;
    for literal in clause {
        if !marks.contains(*literal) {
            match left {
                None => left = Some(*literal),
                Some(other) => {
                    if other != *literal {
                        return Left::Several;
                    }
                }
            }
        }
    }
    match left {
        None => Left::Nothing,
        Some(literal) => Left::One(literal),
    }
}

/// The one literal that the clause of this number leaves, where its opposite is not marked either.
#[inline]
pub fn forced_by(clauses: &Arena, marks: &Marks, earlier: usize, hint: u32) -> Option<u32>
    requires earlier { earlier ≤ length clauses.now }
    requires places { ArePlaces (length marks.now) clauses.now }
    ensures { MatchOption result ((x : ℕ) → ¬ IsForced marks.now clauses.now earlier hint x)
        (IsForced marks.now clauses.now earlier hint) }
{
    if hint as usize >= earlier {
        return None;
    }
    match left_of(clauses.list(hint as usize), marks) {
        Left::One(literal) => {
            if marks.contains(opposite_of(literal)) {
                None
            } else {
                Some(literal)
            }
        }
        _ => None,
    }
}

/// Whether the clause of this number is an earlier one, and each of its literals is marked.
#[inline]
pub fn is_falsified(clauses: &Arena, marks: &Marks, earlier: usize, hint: u32) -> bool
    requires earlier { earlier ≤ length clauses.now }
    requires places { ArePlaces (length marks.now) clauses.now }
    ensures { IsTrue result ↔ IsFalsified marks.now clauses.now earlier hint }
{
    if hint as usize >= earlier {
        return false;
    }
    match left_of(clauses.list(hint as usize), marks) {
        Left::Nothing => true,
        _ => false,
    }
}

/// Marks the literals, where none was marked before.
pub fn mark_all(marks: &mut Marks, literals: &[u32])
    requires clean { marks.old ≡ replicate (length marks.old) false }
    requires range { All (λ x. x < length marks.old) literals.now }
    ensures marked { (at : ℕ → Lit) → IsNumbering (length marks.old) at → Represents at marks.new (map at literals.now) }
    ensures size { length marks.new ≡ length marks.old }
{
    for literal in literals {
        marks.insert(*literal);
    }
}

/// Walks along the hints, and says whether they lead to a conflict. The literals that are forced on the
/// way make their opposites marked.
pub fn leads_to_conflict(clauses: &Arena, marks: &mut Marks, earlier: usize, hints: &[u32]) -> bool
    requires earlier { earlier ≤ length clauses.now }
    requires places { ArePlaces (length marks.old) clauses.now }
    ensures decides { (at : ℕ → Lit) → IsNumbering (length marks.old) at
        → (falsified : List Lit) → Represents at marks.old falsified
        → IsTrue result ↔ IsConflictBy (map (map at) (take earlier clauses.now)) falsified hints.now }
    ensures size { length marks.new ≡ length marks.old }
{
    let Some((last, others)) = hints.split_last() else {
        return false;
    };
    for hint in others {
        match forced_by(clauses, marks, earlier, *hint) {
            None => return false,
            Some(literal) => marks.insert(opposite_of(literal)),
        }
    }
    is_falsified(clauses, marks, earlier, *last)
}

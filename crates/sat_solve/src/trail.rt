//! The trail: the literals that are true, in the order in which they became so, with their reasons.
ghost use Rattle.std.specs.Prelude.{◌≡◌, ℕ, ◌+◌, ◌*◌, ◌<◌, ◌≤◌, [], ◌∷◌, length, IfOk, OnOk, IfSome, IfNone, MatchOption, IsSome, slice_get, slice_index_or, not, Bool, false, true};
ghost use Rattle.sat_solve.specs.Trail.{sign_at};
ghost use Rattle.sat_base.specs.Codes.{literal_of};
ghost use Rattle.sat_solve.specs.Truth.{IsTruth, truth_by, with_pair};
ghost use Rattle.sat_solve.specs.Decisions.{IsReasonIn};

use sat_base::{Assignment, Lit, NoMemory};
use std::alloc::Global;
use std::marker::Model;

/// A literal that is true, and the number of the clause that propagated it. A decision has none.
#[derive(Clone, Copy)]
pub struct Entry {
    pub lit: Lit,
    pub reason: Option<u64>,
}

/// Whether a literal is true, false, or neither.
#[derive(Clone, Copy, PartialEq, Eq)]
pub enum Truth {
    True,
    False,
    Open,
}

// The truth of a literal that has a value.
#[inline]
fn truth_if(holds: bool) -> Truth
    ensures { result ≡ truth_by holds }
{
    if holds { Truth::True } else { Truth::False }
}

// Writes the truths of both literals of a variable.
#[inline]
fn write_pair(truths: &mut Vec<Truth>, var: usize, positive: Truth, negative: Truth)
    requires { 2 * var + 1 < length truths.old.items }
    ensures { truths.new.items ≡ with_pair truths.old.items var positive negative }
{
    truths[2 * var] = positive;
    truths[2 * var + 1] = negative;
}

// A place in the trail, counted from the oldest entry, which is 0, and the level there.
#[derive(Clone, Copy)]
struct Place {
    index: usize,
    level: u64,
}

fn set_place(places: &mut Vec<Place>, var: usize, place: Place) {
    if let Some(own) = places.get_mut(var) {
        *own = place;
    }
}

/// The literals that are true, none of a variable twice. Contracts see the number of variables and
/// the entries, newest first.
#[derive(Drop)]
pub struct Trail {
    entries: Vec<Entry>,
    signs: Vec<Option<bool>>,
    // The truth of each literal, by its code: one load for each question.
    truths: Vec<Truth>,
    // How many of them are decisions, and where each variable stood when it last got a value. Nothing is proved of
    // these two.
    level: u64,
    places: Vec<Place>,
}

impl Model for Trail {
    ghost use Rattle.std.specs.Prelude.{length, reverse};
    ghost use Rattle.sat_solve.specs.Kept.{TrailView, IsKept};
    ghost use Rattle.sat_solve.specs.Truth.{AreTruths};

    ghost Value = { TrailView };

    ghost view = { λ t. record { vars = length t.signs.items; entries = reverse t.entries.items } };

    ghost invariant = { λ t. IsKept (reverse t.entries.items) t.signs.items × AreTruths (reverse t.entries.items) (length t.signs.items) t.truths.items };
}

impl Trail {
    /// The trail without entries, over the variables below `vars`.
    pub fn new(alloc: Global, vars: u64) -> Result<Self, NoMemory>
        ensures { IfOk result (λ t. t ≡ record { vars = vars; entries = [] }) }
    {
        if vars > u64::MAX / 2 {
            return Err(NoMemory);
        }
        Ok(Trail {
            entries: Vec::new(alloc),
            signs: vec![in alloc; None; vars as usize]?,
            truths: vec![in alloc; Truth::Open; 2 * vars as usize]?,
            level: 0,
            places: vec![in alloc; Place { index: 0, level: 0 }; vars as usize]?,
        })
    }

    /// The variables are those below this number.
    pub fn vars(&self) -> u64
        ensures { result ≡ self.now.vars }
    {
        self.signs.len() as u64
    }

    /// How many entries there are.
    pub fn len(&self) -> usize
        ensures value { result ≡ length self.now.entries }
        ensures small { length self.now.entries ≤ self.now.vars }
    {
        self.entries.len()
    }

    /// How many entries are taken to be decisions.
    pub fn level(&self) -> u64 {
        self.level
    }

    /// The entry of this number, counted from the newest, which is 0.
    pub fn newest(&self, k: usize) -> Entry
        requires { k < length self.now.entries }
        ensures value { slice_get self.now.entries k ≡ Some result }
        ensures known { result.lit.var < self.now.vars }
    {
        self.entries[self.entries.len() - 1 - k]
    }

    /// The sign of the literal of a variable that is true, if there is one.
    pub fn sign(&self, var: u64) -> Option<bool>
        ensures { result ≡ sign_at self.now.entries var }
    {
        match self.signs.get(var as usize) {
            Some(sign) => *sign,
            None => None,
        }
    }

    /// The truth of the literal of this code.
    #[inline]
    pub fn truth(&self, code: u32) -> Truth
        ensures { IsTruth self.now.entries (literal_of code) result }
    {
        match self.truths.get(code as usize) {
            Some(truth) => *truth,
            None => Truth::Open,
        }
    }

    /// Adds a literal whose variable has no value.
    pub fn push(&mut self, entry: Entry) -> Result<(), NoMemory>
        requires known { entry.lit.var < self.old.vars }
        requires fresh { sign_at self.old.entries entry.lit.var ≡ None }
        ensures after { OnOk result
            (self.new ≡ record { vars = self.old.vars; entries = entry ∷ self.old.entries }) }
        ensures small { OnOk result (length self.new.entries ≤ self.new.vars) }
    {
        let index = self.entries.len();
        self.entries.push(entry)?;
        let var = entry.lit.var as usize;
        self.signs[var] = Some(entry.lit.negative);
        let positive = truth_if(!entry.lit.negative);
        let negative = truth_if(entry.lit.negative);
        write_pair(&mut self.truths, var, positive, negative);
        self.level = self.level.wrapping_add(u64::from(entry.reason.is_none()));
        let level = self.level;
        set_place(&mut self.places, var, Place { index, level });
        Ok(())
    }

    /// Where the entry of a variable stands, counted from the oldest, which is 0: a guess that is to be
    /// checked.
    #[inline]
    pub fn place(&self, var: u64) -> usize {
        match self.places.get(var as usize) {
            Some(place) => place.index,
            None => 0,
        }
    }

    /// How many decisions there were when a variable last got a value.
    #[inline]
    pub fn level_of(&self, var: u64) -> u64 {
        match self.places.get(var as usize) {
            Some(place) => place.level,
            None => 0,
        }
    }

    /// The reason of the literal of a variable, if it has one.
    pub fn reason(&self, var: u64) -> Option<u64>
        ensures { IfSome result (IsReasonIn self.now.entries) }
    {
        let place = self.place(var);
        let count = self.len();
        if place >= count {
            return None;
        }
        let entry = self.newest(count - 1 - place);
        if entry.lit.var == var {
            entry.reason
        } else {
            None
        }
    }

    /// Takes the newest entry off.
    pub fn pop(&mut self) -> Option<Entry>
        ensures some { IfSome result
            (λ e. self.old ≡ record { vars = self.new.vars; entries = e ∷ self.new.entries }) }
        ensures none { IfNone result ((self.old.entries ≡ []) × (self.new ≡ self.old)) }
    {
        let entry = self.entries.pop()?;
        let var = entry.lit.var as usize;
        self.signs[var] = None;
        write_pair(&mut self.truths, var, Truth::Open, Truth::Open);
        self.level = self.level.wrapping_sub(u64::from(entry.reason.is_none()));
        Some(entry)
    }

    /// The lowest variable that has no value.
    pub fn lowest_unassigned(&self) -> Option<u64>
        ensures { MatchOption result
            ((v : ℕ) → v < self.now.vars → IsSome (sign_at self.now.entries v))
            (λ v. (v < self.now.vars) × (sign_at self.now.entries v ≡ None)
            × ((w : ℕ) → w < v → IsSome (sign_at self.now.entries w))) }
    {
        for (var, sign) in self.signs.iter().enumerate() {
            if sign.is_none() {
                return Some(var as u64);
            }
        }
        None
    }

    /// The truth values of all variables. One without a value is false.
    pub fn assignment(&self, alloc: Global) -> Result<Assignment, NoMemory>
        ensures length { IfOk result (λ a. length a ≡ self.now.vars) }
        ensures values { IfOk result (λ a. (v : ℕ) (b : Bool)
            → sign_at self.now.entries v ≡ Some b → slice_index_or a v false ≡ not b) }
    {
        let mut values = Vec::with_capacity(alloc, self.signs.len())?;
        for sign in &self.signs {
            values.push(*sign == Some(false))?;
        }
        Ok(Assignment::from_vec(values))
    }
}

//! The order in which variables are decided, and the signs that they get. No answer depends on it, so
//! nothing is proved of it but that it is safe: each place is looked up by `get`.
ghost use Rattle.std.specs.Prelude.{◌≡◌};

use sat_base::{Lit, NoMemory};
use std::alloc::Global;

// The scores are divided by this once one is greater.
const LARGEST: f64 = 1e100;

// What a part in a lemma counts, of what a part in the next one does: less at first, when much is still to be found out;
// and more with each RAMP lemmas, up to a greatest share.
const DECAY: f64 = 0.9;

const DECAY_STEP: f64 = 0.01;

const DECAY_MOST: f64 = 0.95;

const RAMP: u64 = 3000;

// The share of the last lemma in the two averages of the lemmas' levels, and how far the one of late has to be above the
// one of all for a restart.
const LATE: f64 = 0.03;

const ALL: f64 = 0.00001;

const MARGIN: f64 = 1.1;

/// The variables by the lemmas that they lately had a part in, in a binary heap, and the last sign of
/// each. It also keeps averages of how many levels the literals of a lemma are of: where those of late are many, the
/// search is in a bad part of the formula.
#[derive(Drop)]
pub struct Order {
    scores: Vec<f64>,
    // What a part in a lemma counts; more from lemma to lemma, by this.
    weight: f64,
    decay: f64,
    heap: Vec<u64>,
    // Where a variable stands in the heap, one more; 0 where it doesn't.
    places: Vec<usize>,
    negative: Vec<bool>,
    // How many lemmas have been learnt, and at how many each variable last had a part.
    lemmas: u64,
    parts: Vec<u64>,
    // At how many lemmas each level was last met, and how many levels this lemma has met.
    met: Vec<u64>,
    levels: f64,
    // The averages of late and of all, and the sums of their weights.
    late: f64,
    late_weight: f64,
    all: f64,
    all_weight: f64,
}

impl Order {
    /// The variables below `vars`, the lowest first, with negative signs.
    pub fn new(alloc: Global, vars: u64) -> Result<Self, NoMemory> {
        let count = vars as usize;
        let mut heap = Vec::with_capacity(alloc, count)?;
        let mut places = Vec::with_capacity(alloc, count)?;
        for var in 0..vars {
            heap.push(var)?;
            places.push((var as usize).wrapping_add(1))?;
        }
        Ok(Order {
            scores: vec![in alloc; 0.0; count]?,
            weight: 1.0,
            decay: DECAY,
            heap,
            places,
            negative: vec![in alloc; true; count]?,
            lemmas: 1,
            parts: vec![in alloc; 0; count]?,
            met: vec![in alloc; 0; count]?,
            levels: 0.0,
            late: 0.0,
            late_weight: 0.0,
            all: 0.0,
            all_weight: 0.0,
        })
    }

    /// The variable has a part in the lemma that is being learnt. It counts once.
    pub fn bump(&mut self, var: u64) {
        let lemmas = self.lemmas;
        if let Some(part) = self.parts.get_mut(var as usize) {
            if *part == lemmas {
                return;
            }
            *part = lemmas;
        }
        let score = self.score(var) + self.weight;
        if let Some(own) = self.scores.get_mut(var as usize) {
            *own = score;
        }
        if score > LARGEST {
            self.rescale();
        }
        let place = self.place(var);
        if place > 0 {
            self.sift_up(place - 1);
        }
    }

    /// The lemma that is being learnt has a literal of this level.
    pub fn meet(&mut self, level: u64) {
        let lemmas = self.lemmas;
        if let Some(met) = self.met.get_mut(level as usize) {
            if *met != lemmas {
                *met = lemmas;
                self.levels = self.levels + 1.0;
            }
        }
    }

    /// The lemma has been learnt: what comes later counts more.
    pub fn end_lemma(&mut self) {
        self.late = self.late + (self.levels - self.late) * LATE;
        self.late_weight = self.late_weight + (1.0 - self.late_weight) * LATE;
        self.all = self.all + (self.levels - self.all) * ALL;
        self.all_weight = self.all_weight + (1.0 - self.all_weight) * ALL;
        self.levels = 0.0;
        self.lemmas = self.lemmas.wrapping_add(1);
        self.weight = self.weight / self.decay;
        if self.lemmas % RAMP == 0 && self.decay < DECAY_MOST {
            self.decay = self.decay + DECAY_STEP;
        }
    }

    /// Whether the lemmas of late are of more levels than those before.
    pub fn is_restless(&self) -> bool {
        self.late * self.all_weight > MARGIN * self.all * self.late_weight
    }

    /// The literal is no longer true.
    pub fn release(&mut self, lit: Lit) {
        if let Some(negative) = self.negative.get_mut(lit.var as usize) {
            *negative = lit.negative;
        }
        if self.place(lit.var) == 0 {
            let end = self.heap.len();
            // There is room: each variable had its place at first.
            if self.heap.push(lit.var).is_ok() {
                self.put(end, lit.var);
                self.sift_up(end);
            }
        }
    }

    /// The first variable.
    pub fn first(&self) -> Option<u64> {
        self.at(0)
    }

    /// Takes the first variable off.
    pub fn next(&mut self) -> Option<u64> {
        let first = self.at(0)?;
        let last = self.heap.pop()?;
        if let Some(place) = self.places.get_mut(first as usize) {
            *place = 0;
        }
        if last != first {
            self.put(0, last);
            self.sift_down();
        }
        Some(first)
    }

    /// The literal that the variable is decided with.
    pub fn literal(&self, var: u64) -> Lit
        ensures { result.var ≡ var }
    {
        let negative = match self.negative.get(var as usize) {
            Some(negative) => *negative,
            None => true,
        };
        Lit { var, negative }
    }

    fn rescale(&mut self) {
        for score in self.scores.iter_mut() {
            *score = *score / LARGEST;
        }
        self.weight = self.weight / LARGEST;
    }

    /// How much the variable's parts in lemmas count.
    #[inline]
    pub fn score(&self, var: u64) -> f64 {
        match self.scores.get(var as usize) {
            Some(score) => *score,
            None => 0.0,
        }
    }

    #[inline]
    fn place(&self, var: u64) -> usize {
        match self.places.get(var as usize) {
            Some(place) => *place,
            None => 0,
        }
    }

    #[inline]
    fn at(&self, place: usize) -> Option<u64> {
        match self.heap.get(place) {
            Some(var) => Some(*var),
            None => None,
        }
    }

    // Puts the variable at a place of the heap.
    #[inline]
    fn put(&mut self, place: usize, var: u64) {
        if let Some(slot) = self.heap.get_mut(place) {
            *slot = var;
        }
        if let Some(own) = self.places.get_mut(var as usize) {
            *own = place.wrapping_add(1);
        }
    }

    // Moves the variable at a place up, over those with lower scores.
    fn sift_up(&mut self, from: usize) {
        let Some(var) = self.at(from) else {
            return;
        };
        let score = self.score(var);
        let mut place = from;
        while place > 0 {
            let above = (place - 1) / 2;
            let Some(other) = self.at(above) else {
                return;
            };
            if self.score(other) >= score {
                break;
            }
            self.put(place, other);
            place = above;
        }
        self.put(place, var);
    }

    // Moves the first variable down, under those with higher scores.
    fn sift_down(&mut self) {
        let Some(var) = self.at(0) else {
            return;
        };
        let score = self.score(var);
        let mut place: usize = 0;
        for _ in 0..64 {
            let left = place.wrapping_mul(2).wrapping_add(1);
            let Some(first) = self.at(left) else {
                break;
            };
            let right = left.wrapping_add(1);
            let second = self.at(right).unwrap_or(first);
            let (below, other) = if self.score(second) > self.score(first) {
                (right, second)
            } else {
                (left, first)
            };
            if score >= self.score(other) {
                break;
            }
            self.put(place, other);
            place = below;
        }
        self.put(place, var);
    }
}

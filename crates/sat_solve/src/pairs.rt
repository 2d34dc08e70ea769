//! The two literals at which each clause is watched.
ghost use Rattle.std.specs.Prelude.{◌≡◌, ◌<◌, [], ◌∷◌, ◌++◌, length, slice_get, slice_set, Some, OnOk};

use sat_base::NoMemory;
use std::alloc::Global;
use std::marker::Model;

/// The codes of the two literals at which a clause is watched.
#[derive(Clone, Copy)]
pub struct Pair {
    pub first: u32,
    pub second: u32,
}

// A pair; and where in the clause the search for another literal to watch goes on, of which nothing is proved.
#[derive(Clone, Copy)]
struct Slot {
    first: u32,
    second: u32,
    from: u32,
}

/// The pairs of the clauses by their numbers: of the formula's, then of the lemmas.
#[derive(Drop)]
pub struct Pairs {
    slots: Vec<Slot>,
}

impl Model for Pairs {
    ghost use Rattle.std.specs.Prelude.{List, map};
    ghost use Rattle.sat_solve.specs.declared.pairs.Pair.{Pair};
    ghost use Rattle.sat_solve.specs.Held.{pair_of};

    ghost Value = { List Pair };

    ghost view = { λ p. map pair_of p.slots.items };
}

impl Pairs {
    /// No pairs, which takes no memory.
    pub fn new(alloc: Global) -> Self
        ensures { result ≡ [] }
    {
        Pairs {
            slots: Vec::new(alloc),
        }
    }

    /// Adds the pair of a clause at the end.
    pub fn push(&mut self, pair: Pair) -> Result<(), NoMemory>
        ensures { OnOk result (self.new ≡ self.old ++ pair ∷ []) }
    {
        self.slots.push(Slot {
            first: pair.first,
            second: pair.second,
            from: 0,
        })?;
        Ok(())
    }

    /// How many pairs there are.
    pub fn len(&self) -> usize
        ensures { result ≡ length self.now }
    {
        self.slots.len()
    }

    /// The literals at which a clause is watched.
    #[inline]
    pub fn pair(&self, number: usize) -> Pair
        requires { number < length self.now }
        ensures { slice_get self.now number ≡ Some result }
    {
        let slot = self.slots[number];
        Pair {
            first: slot.first,
            second: slot.second,
        }
    }

    /// Where in the clause the search for another literal to watch goes on: a guess that is to be checked.
    #[inline]
    pub fn from(&self, number: usize) -> u32
        requires { number < length self.now }
    {
        self.slots[number].from
    }

    /// Has a clause watched at two other literals. The search for the next one goes on at `from`.
    #[inline]
    pub fn watch_at(&mut self, number: usize, pair: Pair, from: u32)
        requires { number < length self.old }
        ensures { self.new ≡ slice_set self.old number pair }
    {
        self.slots[number] = Slot {
            first: pair.first,
            second: pair.second,
            from,
        };
    }
}

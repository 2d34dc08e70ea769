//! A set of numbers below a bound, which is emptied in the time that its members take.
ghost use Rattle.std.specs.Prelude.{◌≡◌, ◌<◌, length, Bool, true, false, slice_index_or, slice_set, replicate, IfOk};

use sat_base::NoMemory;
use std::alloc::Global;
use std::marker::Model;

/// A set of numbers below a bound. Contracts see a list with a truth value for each number.
#[derive(Drop)]
pub struct Marks {
    marked: Vec<bool>,
    // The members are listed in the first `count` places.
    members: Vec<u32>,
    count: usize,
}

impl Model for Marks {
    ghost use Rattle.std.specs.Prelude.{List, Bool};
    ghost use Rattle.sat_check.specs.Marks.{ListsMembers};

    ghost Value = { List Bool };

    ghost view = { λ m. m.marked.items };

    ghost invariant = { λ m. ListsMembers m.marked.items m.members.items m.count };
}

impl Marks {
    /// The empty set of numbers below `bound`.
    pub fn new(alloc: Global, bound: usize) -> Result<Self, NoMemory>
        ensures { IfOk result (λ marks. marks ≡ replicate bound false) }
    {
        Ok(Marks {
            marked: vec![in alloc; false; bound]?,
            members: vec![in alloc; 0; bound]?,
            count: 0,
        })
    }

    /// Whether `number` is a member.
    #[inline]
    pub fn contains(&self, number: u32) -> bool
        requires { number < length self.now }
        ensures { result ≡ slice_index_or self.now number false }
    {
        self.marked[number as usize]
    }

    /// Makes `number` a member.
    #[inline]
    pub fn insert(&mut self, number: u32)
        requires { number < length self.old }
        ensures { self.new ≡ slice_set self.old number true }
    {
        if !self.marked[number as usize] {
            self.marked[number as usize] = true;
            self.members[self.count] = number;
            self.count += 1;
        }
    }

    /// Makes the set empty.
    pub fn clear(&mut self)
        ensures { self.new ≡ replicate (length self.old) false }
    {
        while self.count > 0 {
            self.count -= 1;
            self.marked[self.members[self.count] as usize] = false;
        }
    }
}

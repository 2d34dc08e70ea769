//! A set of variables that knows whether it is empty.
ghost use Rattle.std.specs.Prelude.{◌≡◌, ℕ, ◌<◌, length, true, false, slice_index_or, slice_set, replicate, IfOk};

use sat_base::NoMemory;
use std::alloc::Global;
use std::marker::Model;

/// A set of variables below a bound. Contracts see a list with a truth value for each variable.
#[derive(Drop)]
pub struct Marks {
    marked: Vec<bool>,
    count: usize,
}

impl Model for Marks {
    ghost use Rattle.std.specs.Prelude.{◌≡◌, List, Bool};
    ghost use Rattle.sat_solve.specs.Marks.{member_count};

    ghost Value = { List Bool };

    ghost view = { λ m. m.marked.items };

    ghost invariant = { λ m. m.count ≡ member_count m.marked.items };
}

impl Marks {
    /// The empty set of variables below `bound`.
    pub fn new(alloc: Global, bound: usize) -> Result<Self, NoMemory>
        ensures { IfOk result (λ marks. marks ≡ replicate bound false) }
    {
        Ok(Marks {
            marked: vec![in alloc; false; bound]?,
            count: 0,
        })
    }

    /// Whether the variable is a member.
    #[inline]
    pub fn contains(&self, var: u64) -> bool
        requires { var < length self.now }
        ensures { result ≡ slice_index_or self.now var false }
    {
        self.marked[var as usize]
    }

    /// Makes the variable a member.
    #[inline]
    pub fn insert(&mut self, var: u64)
        requires { var < length self.old }
        ensures { self.new ≡ slice_set self.old var true }
    {
        if !self.marked[var as usize] {
            self.marked[var as usize] = true;
            self.count += 1;
        }
    }

    /// Makes the variable no member.
    #[inline]
    pub fn remove(&mut self, var: u64)
        requires { var < length self.old }
        ensures { self.new ≡ slice_set self.old var false }
    {
        if self.marked[var as usize] {
            self.marked[var as usize] = false;
            self.count -= 1;
        }
    }

    /// Whether there is no member.
    #[inline]
    pub fn is_empty(&self) -> bool
        ensures { result ≡ true → (v : ℕ) → slice_index_or self.now v false ≡ false }
    {
        self.count == 0
    }
}

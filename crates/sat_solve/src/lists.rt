//! For each literal the list of the clauses that are watched at it.
ghost use Rattle.std.specs.Prelude.{◌≡◌, ◌<◌, [], ◌∷◌, ◌++◌, length, replicate, slice_index_or, slice_set, IfOk, OnOk};

use sat_base::NoMemory;
use std::alloc::Global;
use std::marker::Model;
use std::mem;

/// The number of a clause that is watched, and the code of one of its literals: where that is true,
/// the clause need not be looked at.
#[derive(Clone, Copy)]
pub struct Watch {
    pub clause: u32,
    pub blocker: u32,
}

/// A list of watches for each code. Contracts see the list of these lists.
#[derive(Drop)]
pub struct Lists {
    lists: Vec<Vec<Watch>>,
}

impl Model for Lists {
    ghost use Rattle.std.specs.Prelude.{List, map};
    ghost use Rattle.sat_solve.specs.declared.lists.Watch.{Watch};

    ghost Value = { List (List Watch) };

    ghost view = { λ l. map (λ v. v.items) l.lists.items };
}

impl Lists {
    /// An empty list for each code below `count`.
    pub fn new(alloc: Global, count: usize) -> Result<Self, NoMemory>
        ensures { IfOk result (λ l. l ≡ replicate count []) }
    {
        let mut lists = Vec::with_capacity(alloc, count)?;
        for _ in 0..count {
            lists.push(Vec::new(alloc))?;
        }
        Ok(Lists { lists })
    }

    /// How many lists there are.
    pub fn len(&self) -> usize
        ensures { result ≡ length self.now }
    {
        self.lists.len()
    }

    /// Adds a watch to the list of a code.
    #[inline]
    pub fn push(&mut self, code: u32, watch: Watch) -> Result<(), NoMemory>
        requires { code < length self.old }
        ensures { OnOk result (self.new ≡ slice_set self.old code (slice_index_or self.old code [] ++ watch ∷ [])) }
    {
        let list = &mut self.lists[code as usize];
        list.push(watch)?;
        Ok(())
    }

    /// Takes the list of a code out.
    #[inline]
    pub fn take(&mut self, alloc: Global, code: u32) -> Vec<Watch>
        requires { code < length self.old }
        ensures list { result.items ≡ slice_index_or self.old code [] }
        ensures rest { self.new ≡ slice_set self.old code [] }
    {
        mem::replace(&mut self.lists[code as usize], Vec::new(alloc))
    }

    /// Puts a list in the place of that of a code.
    #[inline]
    pub fn put(&mut self, code: u32, list: Vec<Watch>)
        requires { code < length self.old }
        ensures { self.new ≡ slice_set self.old code list.items }
    {
        self.lists[code as usize] = list;
    }
}

//! Copies of memories from one pool into another, so that what no memory uses any more can be let go.

ghost use Rattle.std.specs.Prelude.{◌≡◌, ◌<◌, suc, length, slice_set, IfOk};
ghost use Rattle.sparse_memories.specs.Nodes.{Nodes, words_at, IsTree};
ghost use Rattle.sparse_memories.specs.Memories.{IsMemory, words_of, Keeps};
ghost use Rattle.sparse_memories.specs.Copying.{AreCopies, copy_at};

use crate::NoMemory;
use crate::pool::{Memory, Pool};
use std::alloc::Global;
use std::marker::Model;

/// The link to the copy of a branch, and of which depth its tree is; depth 0 where there is none yet.
#[derive(Clone, Copy)]
pub(crate) struct Copied {
    pub(crate) depth: u32,
    pub(crate) link: u32,
}

/// Which branches of one pool have been copied into another, so that what memories share is copied once.
/// Contracts see what is known of each branch.
#[derive(Drop)]
pub struct Copies {
    branches: Vec<Copied>,
}

impl Model for Copies {
    ghost use Rattle.std.specs.Prelude.{List};
    ghost use Rattle.sparse_memories.specs.declared.copies.Copied.{Copied};

    ghost Value = { List Copied };

    ghost view = { λ c. c.branches.items };
}

impl Copies {
    /// No branch of the pool has been copied yet, into whichever other one.
    pub fn new(alloc: Global, from: &Pool) -> Result<Copies, NoMemory>
        ensures { IfOk result (λ copies. (to : Nodes) → AreCopies copies from.now.nodes to) }
    {
        let none = Copied { depth: 0, link: 0 };
        let branches = vec![in alloc; none; from.branch_count()]?;
        Ok(Copies { branches })
    }

    /// What is known of a branch.
    fn at(&self, link: u32) -> Copied
        requires { link < length self.now }
        ensures { result ≡ copy_at self.now link }
    {
        self.branches[link as usize]
    }

    /// Notes the copy of a branch.
    fn note(&mut self, link: u32, copy: Copied)
        requires { link < length self.old }
        ensures { self.new ≡ slice_set self.old link copy }
    {
        self.branches[link as usize] = copy;
    }
}

impl Pool {
    /// The copy in this pool of a memory of 2^depth words of another pool. What it shares with memories that were copied before, as the
    /// table of copies knows, is shared by the copies too.
    pub fn copy_of(
        &mut self,
        from: &Pool,
        copies: &mut Copies,
        depth: u32,
        memory: Memory,
    ) -> Result<Memory, NoMemory>
        requires memory { IsMemory from.now depth memory }
        requires copies { AreCopies copies.old from.now.nodes self.old.nodes }
        ensures memory { IfOk result (λ m. IsMemory self.new depth m) }
        ensures words { IfOk result (λ m. words_of self.new depth m ≡ words_of from.now depth memory) }
        ensures keeps { Keeps self.old self.new }
        ensures copies { AreCopies copies.new from.now.nodes self.new.nodes }
    {
        let link = self.copied(from, copies, depth, memory.0)?;
        Ok(Memory(link))
    }

    /// The link to the copy of the tree at a link of the other pool.
    fn copied(
        &mut self,
        from: &Pool,
        copies: &mut Copies,
        level: u32,
        link: u32,
    ) -> Result<u32, NoMemory>
        requires tree { IsTree from.now.nodes level link }
        requires copies { AreCopies copies.old from.now.nodes self.old.nodes }
        ensures tree { IfOk result (λ k. IsTree self.new.nodes level k) }
        ensures words { IfOk result (λ k. words_at self.new.nodes level k ≡ words_at from.now.nodes level link) }
        ensures keeps { Keeps self.old self.new }
        ensures copies { AreCopies copies.new from.now.nodes self.new.nodes }
    {
        if link == from.zeros().0 {
            return Ok(self.zeros().0);
        }
        if level == 0 {
            self.reserve(1)?;
            let zeros = self.zeros();
            return Ok(self.put_leaf(zeros.0, from.leaf(link)));
        }
        let copy = copies.at(link);
        if copy.depth == level {
            return Ok(copy.link);
        }
        let branch = from.branch(link);
        let lower = self.copied(from, copies, level - 1, branch.lower)?;
        let upper = self.copied(from, copies, level - 1, branch.upper)?;
        self.reserve(1)?;
        let zeros = self.zeros();
        let place = self.put_branch(zeros.0, lower, upper);
        copies.note(
            link,
            Copied {
                depth: level,
                link: place,
            },
        );
        Ok(place)
    }
}

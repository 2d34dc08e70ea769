//! Whether two memories have the same words.

ghost use Rattle.std.specs.Prelude.{◌≡◌, ◌↔◌, IsTrue};
ghost use Rattle.sparse_memories.specs.Nodes.{words_at, IsTree};
ghost use Rattle.sparse_memories.specs.Memories.{IsMemory, words_of};

use crate::pool::{Memory, Pool};

impl Pool {
    /// Whether two memories of 2^depth words are equal. What they share is not looked into.
    pub fn is_same(&self, depth: u32, first: Memory, second: Memory) -> bool
        requires first { IsMemory self.now depth first }
        requires second { IsMemory self.now depth second }
        ensures { IsTrue result ↔ (words_of self.now depth first ≡ words_of self.now depth second) }
    {
        self.are_same(depth, first.0, second.0)
    }

    /// Whether the words at two links are equal.
    fn are_same(&self, level: u32, first: u32, second: u32) -> bool
        requires first { IsTree self.now.nodes level first }
        requires second { IsTree self.now.nodes level second }
        ensures { IsTrue result ↔ (words_at self.now.nodes level first ≡ words_at self.now.nodes level second) }
    {
        if first == second {
            return true;
        }
        if level == 0 {
            return self.leaf(first) == self.leaf(second);
        }
        let x = self.branch(first);
        let y = self.branch(second);
        if !self.are_same(level - 1, x.lower, y.lower) {
            return false;
        }
        self.are_same(level - 1, x.upper, y.upper)
    }

    /// Whether a memory of this pool has the same words as one of another pool. Parts that are zeros in both are not looked into.
    pub fn is_same_as(&self, depth: u32, first: Memory, other: &Pool, second: Memory) -> bool
        requires first { IsMemory self.now depth first }
        requires second { IsMemory other.now depth second }
        ensures { IsTrue result ↔ (words_of self.now depth first ≡ words_of other.now depth second) }
    {
        self.are_same_as(depth, first.0, other, second.0)
    }

    /// Whether the words at a link are those at a link of another pool.
    fn are_same_as(&self, level: u32, first: u32, other: &Pool, second: u32) -> bool
        requires first { IsTree self.now.nodes level first }
        requires second { IsTree other.now.nodes level second }
        ensures { IsTrue result ↔ (words_at self.now.nodes level first ≡ words_at other.now.nodes level second) }
    {
        if first == self.zeros().0 && second == other.zeros().0 {
            return true;
        }
        if level == 0 {
            return self.leaf(first) == other.leaf(second);
        }
        let x = self.branch(first);
        let y = other.branch(second);
        if !self.are_same_as(level - 1, x.lower, other, y.lower) {
            return false;
        }
        self.are_same_as(level - 1, x.upper, other, y.upper)
    }
}

//! The words of a memory other than 0.

ghost use Rattle.std.specs.Prelude.{◌≡◌, ◌+◌, ◌≤◌, ◌^◌, ◌++◌, IfOk, OnOk};
ghost use Rattle.sparse_memories.specs.Nodes.{words_at, IsTree, set_words_from};
ghost use Rattle.sparse_memories.specs.Memories.{IsMemory, words_of};

use crate::NoMemory;
use crate::pool::{Memory, Pool};
use crate::words::power_of_two;
use std::alloc::Global;

/// A word other than 0, and where it stands.
#[derive(Clone, Copy)]
pub struct SetWord {
    pub address: u64,
    pub word: u128,
}

impl Pool {
    /// The words other than 0 of a memory of 2^depth words, by ascending address. It passes over parts that are all zeros.
    pub fn set_words(
        &self,
        alloc: Global,
        depth: u32,
        memory: Memory,
    ) -> Result<Vec<SetWord>, NoMemory>
        requires depth { depth ≤ 16 }
        requires memory { IsMemory self.now depth memory }
        ensures { IfOk result (λ found. found.items ≡ set_words_from 0 (words_of self.now depth memory)) }
    {
        let mut found = Vec::new(alloc);
        self.add_set_words(depth, memory.0, 0, &mut found)?;
        Ok(found)
    }

    /// Puts the words other than 0 at a link behind a list. The first word there has the address `first`.
    fn add_set_words(
        &self,
        level: u32,
        link: u32,
        first: u64,
        found: &mut Vec<SetWord>,
    ) -> Result<(), NoMemory>
        requires tree { IsTree self.now.nodes level link }
        requires first { first + 2 ^ level ≤ 2 ^ 16 }
        requires level { level ≤ 16 }
        ensures { OnOk result (found.new.items ≡ found.old.items ++ set_words_from first (words_at self.now.nodes level link)) }
    {
        if link == self.zeros().0 {
            return Ok(());
        }
        if level == 0 {
            let word = self.leaf(link);
            if word != 0 {
                found.push(SetWord {
                    address: first,
                    word,
                })?;
            }
            return Ok(());
        }
        let half = power_of_two(level - 1);
        let branch = self.branch(link);
        self.add_set_words(level - 1, branch.lower, first, found)?;
        self.add_set_words(level - 1, branch.upper, first + half, found)?;
        Ok(())
    }
}

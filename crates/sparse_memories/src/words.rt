//! The words of a memory: read, replaced, and taken from lists and into them.

ghost use Rattle.std.specs.Prelude.{◌≡◌, ◌+◌, ◌<◌, ◌≤◌, ◌^◌, ◌++◌, length, slice_index, slice_set, IfOk, OnOk};
ghost use Rattle.sparse_memories.specs.Nodes.{words_at, IsTree, zeros};
ghost use Rattle.sparse_memories.specs.Memories.{IsMemory, words_of, Keeps};

use crate::NoMemory;
use crate::pool::{Memory, Pool};
use std::alloc::Global;

/// 2 to this power.
pub(crate) fn power_of_two(exponent: u32) -> u64
    requires { exponent ≤ 16 }
    ensures { result ≡ 2 ^ exponent }
{
    1u64 << exponent
}

impl Pool {
    /// The word of a memory of 2^depth words at an address. It goes down the memory's tree once.
    pub fn load(&self, depth: u32, memory: Memory, address: u64) -> u128
        requires depth { depth ≤ 16 }
        requires memory { IsMemory self.now depth memory }
        requires address { address < 2 ^ depth }
        ensures { result ≡ slice_index (words_of self.now depth memory) address }
    {
        self.word_at(depth, memory.0, address)
    }

    /// The word at an address of the tree at a link.
    fn word_at(&self, level: u32, link: u32, address: u64) -> u128
        requires level { level ≤ 16 }
        requires tree { IsTree self.now.nodes level link }
        requires address { address < 2 ^ level }
        ensures { result ≡ slice_index (words_at self.now.nodes level link) address }
    {
        if level == 0 {
            return self.leaf(link);
        }
        let half = power_of_two(level - 1);
        let branch = self.branch(link);
        if address < half {
            return self.word_at(level - 1, branch.lower, address);
        }
        self.word_at(level - 1, branch.upper, address - half)
    }

    /// The memory with the word at an address replaced. The given one stays as it was, and shares with the new one what did not change.
    /// It takes at most depth + 1 nodes from the room that there is (`reserve`), and no memory. Where the word is there already, it is the
    /// same memory and takes nothing.
    pub fn store(&mut self, depth: u32, memory: Memory, address: u64, word: u128) -> Memory
        requires depth { depth ≤ 16 }
        requires memory { IsMemory self.old depth memory }
        requires address { address < 2 ^ depth }
        requires room { depth < self.old.room }
        ensures memory { IsMemory self.new depth result }
        ensures words { words_of self.new depth result ≡ slice_set (words_of self.old depth memory) address word }
        ensures keeps { Keeps self.old self.new }
        ensures room { self.old.room ≤ self.new.room + (depth + 1) }
        ensures same { slice_index (words_of self.old depth memory) address ≡ word → (result ≡ memory) × (self.new ≡ self.old) }
    {
        Memory(self.stored(depth, memory.0, address, word))
    }

    /// The link to the tree with the word at an address replaced.
    fn stored(&mut self, level: u32, link: u32, address: u64, word: u128) -> u32
        requires level { level ≤ 16 }
        requires tree { IsTree self.old.nodes level link }
        requires address { address < 2 ^ level }
        requires room { level < self.old.room }
        ensures tree { IsTree self.new.nodes level result }
        ensures words { words_at self.new.nodes level result ≡ slice_set (words_at self.old.nodes level link) address word }
        ensures keeps { Keeps self.old self.new }
        ensures room { self.old.room ≤ self.new.room + (level + 1) }
        ensures same { slice_index (words_at self.old.nodes level link) address ≡ word → (result ≡ link) × (self.new ≡ self.old) }
    {
        if level == 0 {
            return self.put_leaf(link, word);
        }
        let half = power_of_two(level - 1);
        let branch = self.branch(link);
        if address < half {
            let lower = self.stored(level - 1, branch.lower, address, word);
            return self.put_branch(link, lower, branch.upper);
        }
        let upper = self.stored(level - 1, branch.upper, address - half, word);
        self.put_branch(link, branch.lower, upper)
    }

    /// The memory of 2^depth words that has these words by ascending address. A part that is all zeros takes no node.
    pub fn from_words(&mut self, depth: u32, words: &[u128]) -> Result<Memory, NoMemory>
        requires depth { depth ≤ 16 }
        requires words { length words.now ≡ 2 ^ depth }
        ensures memory { IfOk result (λ m. IsMemory self.new depth m) }
        ensures words { IfOk result (λ m. words_of self.new depth m ≡ words.now) }
        ensures keeps { Keeps self.old self.new }
        ensures zeros { words.now ≡ zeros depth → self.new.nodes ≡ self.old.nodes }
    {
        let link = self.built(depth, words)?;
        Ok(Memory(link))
    }

    /// The link to a tree that has these words.
    fn built(&mut self, level: u32, words: &[u128]) -> Result<u32, NoMemory>
        requires level { level ≤ 16 }
        requires words { length words.now ≡ 2 ^ level }
        ensures tree { IfOk result (λ k. IsTree self.new.nodes level k) }
        ensures words { IfOk result (λ k. words_at self.new.nodes level k ≡ words.now) }
        ensures keeps { Keeps self.old self.new }
        ensures zeros { words.now ≡ zeros level → self.new.nodes ≡ self.old.nodes }
        ensures zero { words.now ≡ zeros level → IfOk result (λ k. k ≡ 0) }
    {
        if level == 0 {
            self.reserve(1)?;
            let zero = self.zero_link();
            return Ok(self.put_leaf(zero, words[0]));
        }
        let half = power_of_two(level - 1) as usize;
        let (first, second) = words.split_at(half);
        let lower = self.built(level - 1, first)?;
        let upper = self.built(level - 1, second)?;
        self.reserve(1)?;
        let zero = self.zero_link();
        Ok(self.put_branch(zero, lower, upper))
    }

    /// The words of a memory of 2^depth words by ascending address.
    pub fn words(&self, alloc: Global, depth: u32, memory: Memory) -> Result<Vec<u128>, NoMemory>
        requires depth { depth ≤ 16 }
        requires memory { IsMemory self.now depth memory }
        ensures words { IfOk result (λ words. words.items ≡ words_of self.now depth memory) }
        ensures length { IfOk result (λ words. length words.items ≡ 2 ^ depth) }
    {
        let mut words = Vec::with_capacity(alloc, power_of_two(depth) as usize)?;
        self.add_words(depth, memory.0, &mut words)?;
        Ok(words)
    }

    /// Puts the words at a link behind a list.
    fn add_words(&self, level: u32, link: u32, words: &mut Vec<u128>) -> Result<(), NoMemory>
        requires { IsTree self.now.nodes level link }
        ensures { OnOk result (words.new.items ≡ words.old.items ++ words_at self.now.nodes level link) }
    {
        if level == 0 {
            words.push(self.leaf(link))?;
            return Ok(());
        }
        let branch = self.branch(link);
        self.add_words(level - 1, branch.lower, words)?;
        self.add_words(level - 1, branch.upper, words)?;
        Ok(())
    }
}

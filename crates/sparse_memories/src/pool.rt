//! The pool of nodes, and one more branch or leaf in it.

ghost use Rattle.std.specs.Prelude.{◌≡◌, ◌+◌, ◌<◌, ◌≤◌, ℕ, suc, [], ◌∷◌, ◌++◌, length, slice_index, IfOk, OnOk, OnErr};
ghost use Rattle.sparse_memories.specs.Nodes.{branch_at, words_at, IsTree, zeros, HasZeros};
ghost use Rattle.sparse_memories.specs.Memories.{IsMemory, words_of, Keeps};

use crate::NoMemory;
use std::alloc::{AllocError, Global};
use std::marker::Model;

/// A memory of a pool: the link to its tree.
#[derive(Clone, Copy)]
pub struct Memory(pub(crate) u32);

/// The two halves of a part of a memory.
#[derive(Clone, Copy)]
pub(crate) struct Branch {
    pub(crate) lower: u32,
    pub(crate) upper: u32,
}

/// How many branches, and how many leaves, a pool has at most, since links have 32 bits.
const MOST_NODES: usize = 1 << 32;

/// The nodes of memories, which share what they have in common. Nodes are never changed.
/// Contracts see the nodes, and how many more of each kind find room in the memory that the pool has.
#[derive(Drop)]
pub struct Pool {
    pub(crate) branches: Vec<Branch>,
    pub(crate) leaves: Vec<u128>,
}

impl Model for Pool {
    ghost use Rattle.std.specs.Prelude.{◌≤◌, ◌^◌, ◌-◌, min, vec_len, vec_capacity};
    ghost use Rattle.sparse_memories.specs.Nodes.{Content, HasZeros};

    ghost Value = { Content };

    ghost view = { λ p. record { nodes = record { branches = p.branches.items; leaves = p.leaves.items }; room = min (min (vec_capacity p.branches) (2 ^ 32) - vec_len p.branches) (min (vec_capacity p.leaves) (2 ^ 32) - vec_len p.leaves) } };

    ghost invariant = { λ p. HasZeros (record { branches = p.branches.items; leaves = p.leaves.items }) };
}

impl Pool {
    /// A pool with no memory but zeros.
    pub fn new(alloc: Global) -> Result<Pool, NoMemory>
        ensures { IfOk result (λ pool. (d : ℕ) (m : Memory) → IsMemory pool d m → words_of pool d m ≡ zeros d) }
    {
        let branches = vec![in alloc; Branch { lower: 0, upper: 0 }; 1]?;
        let leaves = vec![in alloc; 0; 1]?;
        Ok(Pool { branches, leaves })
    }

    /// The memory that is all zeros, for addresses of any number of bits. It takes no node.
    pub fn zeros(&self) -> Memory
        ensures memory { (d : ℕ) → IsMemory self.now d result }
        ensures words { (d : ℕ) → words_of self.now d result ≡ zeros d }
    {
        Memory(self.zero_link())
    }

    /// Link 0, which leads to zeros at each depth.
    pub(crate) fn zero_link(&self) -> u32
        ensures link { result ≡ 0 }
        ensures zeros { HasZeros self.now.nodes }
    {
        let _ = &self.branches;
        0
    }

    /// For how many more nodes of each kind there is room.
    pub fn room(&self) -> usize
        ensures { result ≡ self.now.room }
    {
        let branches = self.branches.capacity().min(MOST_NODES);
        let leaves = self.leaves.capacity().min(MOST_NODES);
        let more_branches = branches.saturating_sub(self.branches.len());
        more_branches.min(leaves.saturating_sub(self.leaves.len()))
    }

    /// Makes room for so many more nodes of each kind. A store in a memory of 2^depth words takes at most depth + 1 of it.
    pub fn reserve(&mut self, count: usize) -> Result<(), NoMemory>
        ensures ok { OnOk result (count ≤ self.new.room) }
        ensures full { OnErr result (self.old.room < count) }
        ensures nodes { self.new.nodes ≡ self.old.nodes }
    {
        if count <= self.room() {
            return Ok(());
        }
        let most = MOST_NODES.saturating_sub(count);
        if most < self.branches.len() || most < self.leaves.len() {
            return Err(AllocError);
        }
        self.branches.reserve(count)?;
        self.leaves.reserve(count)?;
        Ok(())
    }

    /// Takes all nodes out, so that no memory is left but zeros. There is room for them again.
    pub fn clear(&mut self)
        ensures zeros { (d : ℕ) (m : Memory) → IsMemory self.new d m → words_of self.new d m ≡ zeros d }
        ensures room { self.old.room ≤ self.new.room }
    {
        self.branches.truncate(1);
        self.leaves.truncate(1);
    }

    /// How many branches the pool has.
    pub fn branch_count(&self) -> usize
        ensures { result ≡ length self.now.nodes.branches }
    {
        self.branches.len()
    }

    /// The branch at a link.
    pub(crate) fn branch(&self, link: u32) -> Branch
        requires { link < length self.now.nodes.branches }
        ensures { result ≡ branch_at self.now.nodes link }
    {
        self.branches[link as usize]
    }

    /// The word of a leaf.
    pub(crate) fn leaf(&self, link: u32) -> u128
        requires { link < length self.now.nodes.leaves }
        ensures { result ≡ slice_index self.now.nodes.leaves link }
    {
        self.leaves[link as usize]
    }

    /// The link to a leaf with this word: the given link where that leaf has it, 0 for the word 0, else that of a new leaf.
    pub(crate) fn put_leaf(&mut self, link: u32, word: u128) -> u32
        requires link { link < length self.old.nodes.leaves }
        requires room { 0 < self.old.room }
        ensures tree { result < length self.new.nodes.leaves }
        ensures word { slice_index self.new.nodes.leaves result ≡ word }
        ensures keeps { Keeps self.old self.new }
        ensures room { self.old.room ≤ self.new.room + 1 }
        ensures same { slice_index self.old.nodes.leaves link ≡ word → (result ≡ link) × (self.new ≡ self.old) }
    {
        if self.leaves[link as usize] == word {
            return link;
        }
        if word == 0 {
            return 0;
        }
        let place = self.leaves.len() as u32;
        self.leaves.push_reserved(word);
        place
    }

    /// The link to a branch over these halves: the given link where that branch has them, 0 for two zeros, else that of a new branch.
    pub(crate) fn put_branch(&mut self, link: u32, lower: u32, upper: u32) -> u32
        requires link { link < length self.old.nodes.branches }
        requires room { 0 < self.old.room }
        ensures tree { (d : ℕ) → IsTree self.old.nodes d lower → IsTree self.old.nodes d upper → IsTree self.new.nodes (suc d) result }
        ensures words { (d : ℕ) → IsTree self.old.nodes d lower → IsTree self.old.nodes d upper → words_at self.new.nodes (suc d) result ≡ words_at self.old.nodes d lower ++ words_at self.old.nodes d upper }
        ensures keeps { Keeps self.old self.new }
        ensures room { self.old.room ≤ self.new.room + 1 }
        ensures same { (branch_at self.old.nodes link).lower ≡ lower → (branch_at self.old.nodes link).upper ≡ upper → (result ≡ link) × (self.new ≡ self.old) }
    {
        let old = self.branches[link as usize];
        if old.lower == lower && old.upper == upper {
            return link;
        }
        if lower == 0 && upper == 0 {
            return 0;
        }
        let place = self.branches.len() as u32;
        self.branches.push_reserved(Branch { lower, upper });
        place
    }
}

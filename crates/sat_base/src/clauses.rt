//! Clauses and hints: small types over a `Vec`, which contracts see as lists.
ghost use Rattle.std.specs.Prelude.{◌≡◌, [], ◌∷◌, ◌++◌, length, OnOk, OnErr, IsTrue, ◌↔◌};

use crate::literals::Lit;
use crate::memory::NoMemory;
use std::alloc::Global;
use std::marker::Model;

/// A clause: a set of literals, kept as a list. Neither the order of its literals nor their repetition
/// says anything.
#[derive(Debug, Drop)]
pub struct Clause {
    lits: Vec<Lit>,
}

impl Model for Clause {
    ghost use Rattle.std.specs.Prelude.{List};
    ghost use Rattle.sat_base.specs.declared.literals.Lit.{Lit};

    ghost Value = { List Lit };

    ghost view = { λ c. c.lits.items };
}

impl Clause {
    /// The empty clause, which takes no memory.
    pub fn new(alloc: Global) -> Self
        ensures { result ≡ [] }
    {
        Clause {
            lits: Vec::new(alloc),
        }
    }

    /// The clause of these literals, which takes no further memory.
    pub fn from_vec(lits: Vec<Lit>) -> Self
        ensures { result ≡ lits.items }
    {
        Clause { lits }
    }

    /// Adds a literal.
    pub fn push(&mut self, lit: Lit) -> Result<(), NoMemory>
        ensures ok { OnOk result (self.new ≡ self.old ++ lit ∷ []) }
        ensures err { OnErr result (self.new ≡ self.old) }
    {
        self.lits.push(lit)?;
        Ok(())
    }

    /// How many literals the list has, repeated ones counted again.
    pub fn len(&self) -> usize
        ensures { result ≡ length self.now }
    {
        self.lits.len()
    }

    /// Whether it has no literal, so that nothing makes it true.
    pub fn is_empty(&self) -> bool
        ensures { IsTrue result ↔ (self.now ≡ []) }
    {
        self.lits.is_empty()
    }

    /// Its literals.
    pub fn as_slice(&self) -> &[Lit]
        ensures { result.now ≡ self.now }
    {
        self.lits.as_slice()
    }
}

/// The hints of a lemma: numbers of earlier clauses, in the order of the walk.
#[derive(Debug, Drop)]
pub struct Hints {
    numbers: Vec<u64>,
}

impl Model for Hints {
    ghost use Rattle.std.specs.Prelude.{List, ℕ};

    ghost Value = { List ℕ };

    ghost view = { λ h. h.numbers.items };
}

impl Hints {
    /// No hints, which takes no memory.
    pub fn new(alloc: Global) -> Self
        ensures { result ≡ [] }
    {
        Hints {
            numbers: Vec::new(alloc),
        }
    }

    /// These hints, which takes no further memory.
    pub fn from_vec(numbers: Vec<u64>) -> Self
        ensures { result ≡ numbers.items }
    {
        Hints { numbers }
    }

    /// Adds a hint at the end.
    pub fn push(&mut self, number: u64) -> Result<(), NoMemory>
        ensures ok { OnOk result (self.new ≡ self.old ++ number ∷ []) }
        ensures err { OnErr result (self.new ≡ self.old) }
    {
        self.numbers.push(number)?;
        Ok(())
    }

    /// How many hints there are.
    pub fn len(&self) -> usize
        ensures { result ≡ length self.now }
    {
        self.numbers.len()
    }

    /// Whether there is none.
    pub fn is_empty(&self) -> bool
        ensures { IsTrue result ↔ (self.now ≡ []) }
    {
        self.numbers.is_empty()
    }

    /// The hints in order.
    pub fn as_slice(&self) -> &[u64]
        ensures { result.now ≡ self.now }
    {
        self.numbers.as_slice()
    }
}

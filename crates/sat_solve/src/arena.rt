//! The formula's clauses in one buffer, by the codes of their literals.
ghost use Rattle.std.specs.Prelude.{◌≡◌, ℕ, ◌^◌, ◌<◌, ◌≤◌, List, [], ◌∷◌, ◌++◌, length, map, All, Some, slice_get, OnOk};
ghost use Rattle.sat_base.specs.declared.literals.Lit.{Lit};
ghost use Rattle.sat_base.specs.Codes.{code_of, literal_of};

use sat_base::{Lit, NoMemory, encode};
use std::alloc::Global;
use std::marker::Model;

// Where the literals of a clause begin in the buffer, and where they end.
#[derive(Clone, Copy)]
struct Span {
    start: u32,
    end: u32,
}

/// The formula's clauses by their numbers. Contracts see the literals of each.
#[derive(Drop)]
pub struct Arena {
    codes: Vec<u32>,
    spans: Vec<Span>,
}

impl Model for Arena {
    ghost use Rattle.std.specs.Prelude.{◌≤◌, List, All, length, map};
    ghost use Rattle.sat_base.specs.declared.literals.Lit.{Lit};
    ghost use Rattle.sat_solve.specs.Spans.{lits_in};

    ghost Value = { List (List Lit) };

    ghost view = { λ a. map (lits_in a.codes.items) a.spans.items };

    ghost invariant = { λ a. All (λ s. (s.start ≤ s.end) × (s.end ≤ length a.codes.items)) a.spans.items };
}

impl Arena {
    /// No clauses, which takes no memory.
    pub fn new(alloc: Global) -> Self
        ensures { result ≡ [] }
    {
        Arena {
            codes: Vec::new(alloc),
            spans: Vec::new(alloc),
        }
    }

    /// Adds a clause at the end. There is no memory for more than 2^32 literals.
    pub fn push(&mut self, lits: &[Lit]) -> Result<(), NoMemory>
        requires { All (λ l. l.var < 2 ^ 31) lits.now }
        ensures { OnOk result (self.new ≡ self.old ++ lits.now ∷ []) }
    {
        let start = self.codes.len();
        push_codes(&mut self.codes, lits)?;
        let end = self.codes.len();
        if end > u32::MAX as usize {
            return Err(NoMemory);
        }
        self.spans.push(Span {
            start: start as u32,
            end: end as u32,
        })?;
        Ok(())
    }

    /// How many clauses there are.
    pub fn len(&self) -> usize
        ensures { result ≡ length self.now }
    {
        self.spans.len()
    }

    /// The literals of a clause, by their codes.
    #[inline]
    pub fn codes(&self, number: usize) -> &[u32]
        requires { number < length self.now }
        ensures { (lits : List Lit) → slice_get self.now number ≡ Some lits → map literal_of result.now ≡ lits }
    {
        let span = self.spans[number];
        &self.codes[span.start as usize..span.end as usize]
    }
}

// Adds the codes of the literals at the end.
fn push_codes(codes: &mut Vec<u32>, lits: &[Lit]) -> Result<(), NoMemory>
    requires { All (λ l. l.var < 2 ^ 31) lits.now }
    ensures codes { OnOk result (codes.new.items ≡ codes.old.items ++ map code_of lits.now) }
    ensures longer { length codes.old.items ≤ length codes.new.items }
{
    for lit in lits {
        codes.push(encode(*lit))?;
    }
    Ok(())
}

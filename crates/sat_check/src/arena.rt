//! Lists of numbers, one behind the other in one buffer.
ghost use Rattle.std.specs.Prelude.{◌≡◌, ◌<◌, [], ◌∷◌, ◌++◌, length, slice_index_or, OnOk, OnErr};

use sat_base::NoMemory;
use std::alloc::Global;
use std::marker::Model;

// Where a list begins in the buffer, and where it ends.
#[derive(Clone, Copy)]
struct Span {
    start: usize,
    end: usize,
}

/// Lists of numbers, which contracts see as such.
#[derive(Drop)]
pub struct Arena {
    numbers: Vec<u32>,
    spans: Vec<Span>,
}

impl Model for Arena {
    ghost use Rattle.std.specs.Prelude.{◌≤◌, List, ℕ, All, length, map, slice_range};

    ghost Value = { List (List ℕ) };

    ghost view = { λ a. map (λ s. slice_range a.numbers.items s.start s.end) a.spans.items };

    ghost invariant = { λ a. All (λ s. (s.start ≤ s.end) × (s.end ≤ length a.numbers.items)) a.spans.items };
}

impl Arena {
    /// No lists, which takes no memory.
    pub fn new(alloc: Global) -> Self
        ensures { result ≡ [] }
    {
        Arena {
            numbers: Vec::new(alloc),
            spans: Vec::new(alloc),
        }
    }

    /// Adds a list at the end.
    pub fn push(&mut self, list: &[u32]) -> Result<(), NoMemory>
        ensures ok { OnOk result (self.new ≡ self.old ++ list.now ∷ []) }
        ensures err { OnErr result (self.new ≡ self.old) }
    {
        let start = self.numbers.len();
        self.numbers.extend_from_slice(list)?;
        let end = self.numbers.len();
        self.spans.push(Span { start, end })?;
        Ok(())
    }

    /// How many lists there are.
    pub fn len(&self) -> usize
        ensures { result ≡ length self.now }
    {
        self.spans.len()
    }

    /// List number `index`.
    #[inline]
    pub fn list(&self, index: usize) -> &[u32]
        requires { index < length self.now }
        ensures { result.now ≡ slice_index_or self.now index [] }
    {
        let span = self.spans[index];
        &self.numbers[span.start..span.end]
    }
}

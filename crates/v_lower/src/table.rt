//! The terms that stand for the names of a module.

ghost use Rattle.std.specs.Prelude.{◌≡◌, ℕ, List, None, Some, cond, option_map, OnOk};
ghost use Rattle.wb_values.specs.Value.{same_name};
ghost use Rattle.v_lower.specs.Table.{images_at};

use crate::NoMemory;
use std::alloc::Global;
use std::collections::BTreeMap;
use wb_terms::TermId;

/// The term of each name of a module, where it has one. Contracts see the number of each name's term (`images_at`).
#[derive(Drop)]
pub struct NamedTerms<'s> {
    ids: BTreeMap<&'s [u8], TermId>,
}

impl<'s> NamedTerms<'s> {
    /// No name has a term.
    pub fn new(alloc: Global) -> NamedTerms<'s>
        ensures { (n : List ℕ) → images_at result n ≡ None }
    {
        NamedTerms {
            ids: BTreeMap::new(alloc),
        }
    }

    /// The term of the name with these bytes.
    fn term_of(&self, name: &[u8]) -> Option<TermId>
        ensures { option_map (λ k. k.0) result ≡ images_at self.now name.now }
    {
        match self.ids.get(name) {
            Some(id) => Some(*id),
            None => None,
        }
    }

    /// The term of a name.
    pub fn term(&self, name: &str) -> Option<TermId>
        ensures { option_map (λ k. k.0) result ≡ images_at self.now name.now }
    {
        self.term_of(name.as_bytes())
    }

    /// Gives a name a term, in place of the one that it had.
    pub fn insert(&mut self, name: &'s str, id: TermId) -> Result<(), NoMemory>
        ensures { OnOk result ((n : List ℕ) → images_at self.new n ≡ cond (same_name name.now n) (Some id.0) (images_at self.old n)) }
    {
        self.ids.insert(name.as_bytes(), id)?;
        Ok(())
    }
}

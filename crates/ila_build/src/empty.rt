//! An empty store, and a table without names.

ghost use Rattle.std.specs.Prelude.{◌≡◌, ℕ, List, [], None, IfOk};
ghost use Rattle.ila_build.specs.Standing.{IsTable, under_name};

use std::alloc::Global;
use std::collections::BTreeMap;
use wb_terms::{NoMemory, TermId, Terms};

/// An empty store with a table without names.
pub fn empty_table<'v>(alloc: Global) -> Result<(Terms, BTreeMap<&'v [u8], TermId>), NoMemory>
    ensures names { IfOk result (λ p. p.0.names ≡ []) }
    ensures terms { IfOk result (λ p. p.0.nodes ≡ []) }
    ensures table { IfOk result (λ p. IsTable p.0 p.1) }
    ensures empty { IfOk result (λ p. (q : List ℕ) → under_name p.1 q ≡ None) }
{
    let terms = Terms::new(alloc)?;
    let known = BTreeMap::new(alloc);
    Ok((terms, known))
}

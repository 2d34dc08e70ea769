//! All terms of a store copied into another.

ghost use Rattle.std.specs.Prelude.{◌≡◌, ◌<◌, length, IfOk, OnErr};
ghost use Rattle.term_copies.specs.Copies.{IsExtended, AreLeaves, IsCopy, AreCopiesOf, AreCopies};

use crate::NoMemory;
use crate::nodes::{leaf_name, leaf_of, node_of, over_copies, put};
use std::alloc::Global;
use wb_terms::{TermId, Terms};

/// Puts a copy of each term of the source after the terms of the store, in the order of the source, and gives their ids. In place of each
/// name of the source stands a term of the store, of the name's sort; `leaves` has one for each, in the order of declaration.
/// The time is that of one pass over the source.
pub fn put_copies(
    alloc: Global,
    terms: &mut Terms,
    source: &Terms,
    leaves: &[TermId],
) -> Result<Vec<TermId>, NoMemory>
    requires { AreLeaves terms.old source.now.names leaves.now }
    ensures extended { IsExtended terms.old terms.new }
    ensures copies { IfOk result (λ ids. AreCopies terms.new source.now leaves.now ids.items) }
    ensures err { OnErr result (terms.new ≡ terms.old) }
{
    let before = terms.len();
    match put_each(alloc, terms, source, leaves) {
        Ok(copies) => Ok(copies),
        Err(stop) => {
            terms.cut(before);
            Err(stop)
        }
    }
}

/// The copies, where memory does not run out; else some of them may have been put.
fn put_each(
    alloc: Global,
    terms: &mut Terms,
    source: &Terms,
    leaves: &[TermId],
) -> Result<Vec<TermId>, NoMemory>
    requires { AreLeaves terms.old source.now.names leaves.now }
    ensures extended { IsExtended terms.old terms.new }
    ensures copies { IfOk result (λ ids. AreCopies terms.new source.now leaves.now ids.items) }
{
    let mut copies = Vec::new(alloc);
    for k in 0..source.len() as usize {
        let copy = put_copy(terms, source, leaves, &copies, TermId(k))?;
        copies.push(copy)?;
    }
    Ok(copies)
}

/// The copy of a term, by those of the earlier terms.
fn put_copy(
    terms: &mut Terms,
    source: &Terms,
    leaves: &[TermId],
    copies: &[TermId],
    id: TermId,
) -> Result<TermId, NoMemory>
    requires id { id.0 < length source.now.nodes }
    requires leaves { AreLeaves terms.old source.now.names leaves.now }
    requires earlier { AreCopiesOf id.0 terms.old source.now leaves.now copies.now }
    ensures extended { IsExtended terms.old terms.new }
    ensures copy { IfOk result (λ r. IsCopy terms.new source.now leaves.now r.0 id.0) }
{
    let node = node_of(source, id);
    match leaf_name(node) {
        Some(name) => Ok(leaf_of(leaves, name)),
        None => {
            let copy = put(terms, over_copies(node, copies))?;
            Ok(copy)
        }
    }
}

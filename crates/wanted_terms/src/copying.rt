//! Copies of the wanted terms.

ghost use Rattle.std.specs.Prelude.{◌≡◌, ◌<◌, length, slice_get, Some, IfOk, OnErr};
ghost use Rattle.wb_terms.specs.Graph.{operands_of};
ghost use Rattle.term_copies.specs.Copies.{IsExtended, AreLeaves, IsCopy};
ghost use Rattle.term_copies.proofs.Copying.{HaveCopies};
ghost use Rattle.wanted_terms.specs.Wanted.{IsClosed, AreCopied};

use crate::NoMemory;
use crate::nodes::{leaf_name, leaf_of, node_of, over_copies, put};
use std::alloc::Global;
use wb_terms::{TermId, Terms};

/// Puts a copy of each wanted term of the source after the terms of the store. The ids of the copies stand at the places of the terms in
/// the source; at other places stands nothing of use. In place of each name of the source stands a term of the store, of the name's sort;
/// `leaves` has one for each, in the order of declaration. The wanted terms are listed with all that they stand on (`closed`).
pub fn put_wanted_copies(
    alloc: Global,
    terms: &mut Terms,
    source: &Terms,
    leaves: &[TermId],
    wanted: &[TermId],
) -> Result<Vec<TermId>, NoMemory>
    requires leaves { AreLeaves terms.old source.now.names leaves.now }
    requires wanted { IsClosed source.now wanted.now }
    ensures extended { IsExtended terms.old terms.new }
    ensures copies { IfOk result (λ ids. AreCopied terms.new source.now leaves.now wanted.now (length wanted.now) ids.items) }
    ensures err { OnErr result (terms.new ≡ terms.old) }
{
    let before = terms.len();
    match put_each(alloc, terms, source, leaves, wanted) {
        Ok(copies) => Ok(copies),
        Err(stop) => {
            terms.cut(before);
            Err(stop)
        }
    }
}

/// The copies, where memory does not run out; else some of them may have been put.
fn put_each(
    alloc: Global,
    terms: &mut Terms,
    source: &Terms,
    leaves: &[TermId],
    wanted: &[TermId],
) -> Result<Vec<TermId>, NoMemory>
    requires leaves { AreLeaves terms.old source.now.names leaves.now }
    requires wanted { IsClosed source.now wanted.now }
    ensures extended { IsExtended terms.old terms.new }
    ensures copies { IfOk result (λ ids. AreCopied terms.new source.now leaves.now wanted.now (length wanted.now) ids.items) }
{
    let mut copies = vec![in alloc; TermId(0); source.len() as usize]?;
    for place in 0..wanted.len() {
        let id = wanted[place];
        let copy = put_copy(terms, source, leaves, &copies, id)?;
        copies[id.0] = copy;
    }
    Ok(copies)
}

/// The copy of a term, by those of its operands.
fn put_copy(
    terms: &mut Terms,
    source: &Terms,
    leaves: &[TermId],
    copies: &[TermId],
    id: TermId,
) -> Result<TermId, NoMemory>
    requires id { id.0 < length source.now.nodes }
    requires room { length copies.now ≡ length source.now.nodes }
    requires leaves { AreLeaves terms.old source.now.names leaves.now }
    requires operands { (n : _) → slice_get source.now.nodes id.0 ≡ Some n → HaveCopies terms.old source.now leaves.now copies.now (operands_of n) }
    ensures extended { IsExtended terms.old terms.new }
    ensures copy { IfOk result (λ r. IsCopy terms.new source.now leaves.now r.0 id.0) }
{
    let node = node_of(source, id);
    match leaf_name(node) {
        Some(name) => Ok(leaf_of(leaves, name)),
        None => {
            let copy = put(terms, over_copies(node, copies))?;
            Ok(copy)
        }
    }
}

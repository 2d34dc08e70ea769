//! Lists of terms by their ids.

ghost use Rattle.std.specs.Prelude.{◌≡◌, ◌<◌, ◌&&◌, length, slice_get, Some, IfOk};
ghost use Rattle.wanted_terms.specs.Wanted.{AreBelow};
ghost use Rattle.model_meaning.specs.Term.{is_memory_sort};
ghost use Rattle.wb_terms.specs.Sort.{as_sort};
ghost use Rattle.emitted_modules.specs.Nodes.{is_leaf, has_wire, node_at};
ghost use Rattle.emitted_names.specs.Ids.{ids_of, kept_by, AreAllKept, ids_from};

use crate::NoMemory;
use crate::nodes::node_of;
use ila_model::Update;
use std::alloc::Global;
use wb_terms::{Node, Sort, TermId, Terms};

/// The term at a place of a list.
pub fn id_at(ids: &[TermId], place: usize) -> TermId
    requires { place < length ids.now }
    ensures { slice_get ids.now place ≡ Some result }
{
    ids[place]
}

/// The update at a place of a list.
pub fn update_at(updates: &[Update], place: usize) -> Update
    requires { place < length updates.now }
    ensures { slice_get updates.now place ≡ Some result }
{
    updates[place]
}

/// Whether a node is a name or a constant.
fn is_leaf(node: Node) -> bool
    ensures { result ≡ is_leaf node }
{
    match node {
        Node::Name(_) | Node::Truth(_) | Node::Const(_, _) => true,
        _ => false,
    }
}

/// Whether a sort is that of memories.
pub fn is_memory(sort: Sort) -> bool
    ensures { result ≡ is_memory_sort (as_sort sort) }
{
    match sort {
        Sort::Truth => false,
        Sort::Word(_) => false,
        Sort::Memory(_, _) => true,
    }
}

/// Whether a term has a wire, where it is kept: a leaf has none, and a memory has none.
fn has_wire(terms: &Terms, id: TermId) -> bool
    requires { id.0 < length terms.now.nodes }
    ensures { result ≡ has_wire terms.now id.0 (node_at terms.now id.0) }
{
    let is_leaf = is_leaf(node_of(terms, id));
    let is_memory = is_memory(terms.sort(id));
    !is_leaf && !is_memory
}

/// Whether a term is marked.
pub(crate) fn is_marked(keep: &[bool], id: TermId) -> bool
    ensures { result ≡ kept_by keep.now id.0 }
{
    id.0 < keep.len() && keep[id.0]
}

/// Whether a term is marked, and has a wire.
fn is_wanted(terms: &Terms, keep: &[bool], id: TermId) -> bool
    requires { id.0 < length terms.now.nodes }
    ensures { result ≡ (kept_by keep.now id.0 && has_wire terms.now id.0 (node_at terms.now id.0)) }
{
    let has_wire = has_wire(terms, id);
    let is_marked = is_marked(keep, id);
    is_marked && has_wire
}

/// The terms that have wires, in their order.
pub fn kept_ids(alloc: Global, terms: &Terms, keep: &[bool]) -> Result<Vec<TermId>, NoMemory>
    ensures ids { IfOk result (λ v. ids_of v.items ≡ ids_from terms.now (kept_by keep.now) 0 terms.now.nodes) }
    ensures below { IfOk result (λ v. AreBelow (length terms.now.nodes) v.items) }
    ensures kept { IfOk result (λ v. AreAllKept (kept_by keep.now) v.items) }
{
    let mut ids = Vec::new(alloc);
    for place in 0..terms.len() as usize {
        if is_wanted(terms, keep, TermId(place)) {
            ids.push(TermId(place))?;
        }
    }
    Ok(ids)
}

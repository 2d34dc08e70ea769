//! Putting single nodes.

ghost use Rattle.std.specs.Prelude.{◌≡◌, ◌<◌, length, IfOk, IsSome};
ghost use Rattle.model_meaning.specs.Term.{sort_of};
ghost use Rattle.wb_terms.specs.Graph.{IsOver, tree, tree_of_node};
ghost use Rattle.term_copies.specs.Copies.{IsExtended};

use crate::NoMemory;
use std::alloc::AllocError;
use wb_terms::{Node, PutStop, TermId, Terms};

/// Puts a node that has a sort.
pub(crate) fn put(terms: &mut Terms, node: Node) -> Result<TermId, NoMemory>
    requires over { IsOver terms.old (length terms.old.nodes) node }
    requires sorted { IsSome (sort_of (tree_of_node terms.old node)) }
    ensures extended { IsExtended terms.old terms.new }
    ensures below { IfOk result (λ r. r.0 < length terms.new.nodes) }
    ensures tree { IfOk result (λ r. tree terms.new r.0 ≡ tree_of_node terms.old node) }
{
    match terms.put(node) {
        Ok(id) => Ok(id),
        Err(PutStop::NoMemory) => Err(AllocError),
        Err(PutStop::BadSort) => unreachable!(),
    }
}

//! Putting single nodes.

ghost use Rattle.std.specs.Prelude.{◌≡◌, ◌<◌, ◌^◌, ℕ, length, IfOk, IsSome, slice_index};
ghost use Rattle.wb_values.specs.Value.{word, memory, number, as_words};
ghost use Rattle.model_meaning.specs.Term.{sort_of, val};
ghost use Rattle.wb_terms.specs.Graph.{IsOver, tree, tree_of_node};
ghost use Rattle.term_copies.specs.Copies.{IsExtended};
ghost use Rattle.condition_terms.specs.Told.{IsTermOf};

use crate::NoMemory;
use std::alloc::AllocError;
use wb_terms::{Node, PutStop, TermId, Terms};

/// Puts a node that has a sort.
pub(crate) fn put(terms: &mut Terms, node: Node) -> Result<TermId, NoMemory>
    requires over { IsOver terms.old (length terms.old.nodes) node }
    requires sorted { IsSome (sort_of (tree_of_node terms.old node)) }
    ensures extended { IsExtended terms.old terms.new }
    ensures below { IfOk result (λ r. r.0 < length terms.new.nodes) }
    ensures tree { IfOk result (λ r. tree terms.new r.0 ≡ tree_of_node terms.old node) }
{
    match terms.put(node) {
        Ok(id) => Ok(id),
        Err(PutStop::NoMemory) => Err(AllocError),
        Err(PutStop::BadSort) => unreachable!(),
    }
}

/// Puts the word of a memory at an address.
pub(crate) fn word_at(
    terms: &mut Terms,
    id: TermId,
    address_width: u32,
    address: u64,
) -> Result<TermId, NoMemory>
    requires sort { (d : ℕ) × IsTermOf terms.old id.0 (memory address_width d) }
    requires address { address < 2 ^ address_width }
    ensures extended { IsExtended terms.old terms.new }
    ensures word { IfOk result (λ r. (d : ℕ) → IsTermOf terms.old id.0 (memory address_width d) → IsTermOf terms.new r.0 (word d)) }
    ensures value { IfOk result (λ r. (v : _) → val (tree terms.new r.0) v ≡ number (slice_index (as_words (val (tree terms.old id.0) v)) address)) }
{
    let _sort = terms.sort(id);
    let place = put(terms, Node::Const(address_width, u128::from(address)))?;
    let word = put(terms, Node::Load(id, place))?;
    Ok(word)
}

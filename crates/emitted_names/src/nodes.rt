//! Nodes of a store of terms.

ghost use Rattle.std.specs.Prelude.{◌≡◌, ◌<◌, length, IsSome};
ghost use Rattle.model_meaning.specs.Term.{sort_of};
ghost use Rattle.wb_terms.specs.Graph.{AllBelow, names_of, operands_of, tree_of_node};
ghost use Rattle.emitted_modules.specs.Nodes.{node_at};
ghost use Rattle.emitted_names.specs.Parts.{is_name};

use wb_terms::{Node, TermId, Terms};

/// The node of a term.
pub fn node_of(terms: &Terms, id: TermId) -> Node
    requires { id.0 < length terms.now.nodes }
    ensures node { result ≡ node_at terms.now id.0 }
    ensures before { AllBelow id.0 (operands_of result) }
    ensures operands { AllBelow (length terms.now.nodes) (operands_of result) }
    ensures names { AllBelow (length terms.now.names) (names_of result) }
    ensures sorted { IsSome (sort_of (tree_of_node terms.now result)) }
{
    *terms.node(id)
}

/// Whether a node is a name.
pub(crate) fn is_name(node: Node) -> bool
    ensures { result ≡ is_name node }
{
    match node {
        Node::Name(_) => true,
        _ => false,
    }
}

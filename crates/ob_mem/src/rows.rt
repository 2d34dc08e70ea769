//! Rows of terms of one form, each put behind the one before.

ghost use Rattle.std.specs.Prelude.{◌≡◌, ◌<◌, ◌+◌, ◌^◌, ◌++◌, ◌∷◌, [], length, IfOk, OnOk, IsSome};
ghost use Rattle.model_meaning.specs.Term.{sort_of};
ghost use Rattle.wb_terms.specs.Graph.{IsOver, AllBelow, operands_of, names_of, trees_of, tree_of_node};
ghost use Rattle.ob_mem.specs.Rows.{node_in, tree_in, AreOver, IsRow};

use crate::NoMemory;
use std::alloc::AllocError;
use wb_terms::{NameId, Node, PutStop, TermId, Terms};

/// Puts a node that has a sort.
pub(crate) fn put(terms: &mut Terms, node: Node) -> Result<TermId, NoMemory>
    requires over { IsOver terms.old (length terms.old.nodes) node }
    requires sorted { IsSome (sort_of (tree_of_node terms.old node)) }
    ensures id { IfOk result (λ id. id.0 ≡ length terms.old.nodes) }
    ensures names { OnOk result (terms.new.names ≡ terms.old.names) }
    ensures trees { OnOk result (trees_of terms.new ≡ trees_of terms.old ++ tree_of_node terms.old node ∷ []) }
    ensures count { OnOk result (length terms.new.nodes ≡ length terms.old.nodes + 1) }
{
    match terms.put(node) {
        Ok(id) => Ok(id),
        Err(PutStop::NoMemory) => Err(AllocError),
        Err(PutStop::BadSort) => unreachable!(),
    }
}

/// The term so many places after another, where the store has it.
pub(crate) fn later(terms: &Terms, id: TermId, places: usize) -> TermId
    requires { id.0 + places < length terms.now.nodes }
    ensures { result.0 ≡ id.0 + places }
{
    let _end = terms.len();
    TermId(id.0 + places)
}

/// A power of 2.
pub(crate) fn power(exponent: u32) -> usize
    requires { exponent < 64 }
    ensures { result ≡ 2 ^ exponent }
{
    1usize << exponent
}

/// What a row of terms is made of. Its place k has the term at place k of each row that it stands on.
#[derive(Clone, Copy)]
pub(crate) enum Row {
    /// Declared names, from a first one on.
    Names(NameId),
    /// The numbers from 0 on, as words of so many bits.
    Constants(u32),
    /// Whether a word is equal to each of a row of words.
    Matches(TermId, TermId),
    /// A choice by one condition between two rows.
    Choices(TermId, TermId, TermId),
    /// By each of a row of conditions one word, or else that of a row.
    Updates(TermId, TermId, TermId),
}

/// The node at a place of a row.
fn node_in(row: Row, place: usize) -> Node
    requires operands { AllBelow (2 ^ 64) (operands_of (node_in row place)) }
    requires names { AllBelow (2 ^ 64) (names_of (node_in row place)) }
    ensures { result ≡ node_in row place }
{
    match row {
        Row::Names(first) => Node::Name(NameId(first.0 + place)),
        Row::Constants(width) => Node::Const(width, place as u128),
        Row::Matches(x, first) => Node::Eq(x, TermId(first.0 + place)),
        Row::Choices(condition, x, y) => {
            Node::Ite(condition, TermId(x.0 + place), TermId(y.0 + place))
        }
        Row::Updates(conditions, x, y) => {
            Node::Ite(TermId(conditions.0 + place), x, TermId(y.0 + place))
        }
    }
}

/// Puts so many terms of a row, and says which is the first.
pub(crate) fn put_row(terms: &mut Terms, row: Row, count: usize) -> Result<TermId, NoMemory>
    requires { AreOver terms.old row count }
    ensures first { IfOk result (λ id. id.0 ≡ length terms.old.nodes) }
    ensures row { OnOk result (IsRow terms.old terms.new (tree_in terms.old row) count) }
{
    let first = TermId(terms.len() as usize);
    for place in 0..count {
        put_in(terms, row, place)?;
    }
    Ok(first)
}

/// Puts the term at a place of a row.
fn put_in(terms: &mut Terms, row: Row, place: usize) -> Result<(), NoMemory>
    requires over { IsOver terms.old (length terms.old.nodes) (node_in row place) }
    requires sorted { IsSome (sort_of (tree_of_node terms.old (node_in row place))) }
    ensures names { OnOk result (terms.new.names ≡ terms.old.names) }
    ensures trees { OnOk result (trees_of terms.new ≡ trees_of terms.old ++ tree_of_node terms.old (node_in row place) ∷ []) }
{
    let _terms = terms.len();
    let _names = terms.name_count();
    let node = node_in(row, place);
    put(terms, node)?;
    Ok(())
}

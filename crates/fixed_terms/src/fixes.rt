//! Names that have one value where a condition has a truth value.

ghost use Rattle.std.specs.Prelude.{◌≡◌, ◌<◌, length, IfOk, IfSome};
ghost use Rattle.wb_values.specs.Value.{truth, as_number};
ghost use Rattle.wb_values.specs.Number.{word_ult};
ghost use Rattle.model_meaning.specs.Term.{sort_of, val, is_equal};
ghost use Rattle.wb_terms.specs.Graph.{tree};
ghost use Rattle.condition_terms.specs.Told.{IsTermOf, AreAllOfSorts};
ghost use Rattle.fixed_terms.specs.Fixed.{AreKnown, IsFix, IsFixed, AreFixes, AllFollow};

use crate::NoMemory;
use crate::nodes::node_of;
use std::alloc::Global;
use wb_terms::{Node, TermId, Terms};

/// A name that has a constant value where a condition has a truth value.
#[derive(Clone, Copy)]
pub(crate) struct Fix {
    pub condition: TermId,
    pub holds: bool,
    pub name: TermId,
    /// A constant.
    pub value: Node,
}

/// The names that are fixed by what is known.
pub(crate) fn fixes_of(
    alloc: Global,
    terms: &Terms,
    id: TermId,
    known: &[Option<bool>],
) -> Result<Vec<Fix>, NoMemory>
    requires sorts { AreAllOfSorts terms.now }
    requires known { AreKnown terms.now id.0 known.now }
    requires id { id.0 < length terms.now.nodes }
    ensures fixes { IfOk result (λ fs. AreFixes terms.now fs.items) }
    ensures follow { IfOk result (λ fs. AllFollow terms.now id.0 fs.items) }
{
    let mut fixes = Vec::new(alloc);
    for place in 0..id.0 {
        if let Some(holds) = known[place] {
            if let Some(fix) = fix_of(terms, TermId(place), holds) {
                fixes.push(fix)?;
            }
        }
    }
    Ok(fixes)
}

/// The name that a condition fixes, if it fixes one.
fn fix_of(terms: &Terms, condition: TermId, holds: bool) -> Option<Fix>
    requires sorts { AreAllOfSorts terms.now }
    requires condition { IsTermOf terms.now condition.0 truth }
    ensures fix { IfSome result (IsFix terms.now) }
    ensures condition { IfSome result (λ f. f.condition ≡ condition) }
    ensures holds { IfSome result (λ f. f.holds ≡ holds) }
{
    let (name, value) = match node_of(terms, condition) {
        Node::Name(_) => (condition, Node::Truth(holds)),
        Node::Eq(x, y) => (x, equal_value(terms, x, y, holds)?),
        Node::Ult(x, y) => (y, above_value(terms, x, y, holds)?),
        _ => return None,
    };
    Some(Fix {
        condition,
        holds,
        name,
        value,
    })
}

/// The one value that a name has where it is equal to a constant, or not.
fn equal_value(terms: &Terms, x: TermId, y: TermId, holds: bool) -> Option<Node>
    requires x { x.0 < length terms.now.nodes }
    requires y { y.0 < length terms.now.nodes }
    requires sorts { AreAllOfSorts terms.now }
    requires same { sort_of (tree terms.now x.0) ≡ sort_of (tree terms.now y.0) }
    ensures { IfSome result (IsFixed terms.now x.0 (λ v. is_equal (val (tree terms.now x.0) v) (val (tree terms.now y.0) v) ≡ holds)) }
{
    match (node_of(terms, x), node_of(terms, y), holds) {
        (Node::Name(_), Node::Const(width, number), true) => Some(Node::Const(width, number)),
        (Node::Name(_), Node::Const(1, 0), false) => Some(Node::Const(1, 1)),
        (Node::Name(_), Node::Const(1, 1), false) => Some(Node::Const(1, 0)),
        _ => None,
    }
}

/// The one value that a name has where it is above 0, or not.
fn above_value(terms: &Terms, x: TermId, y: TermId, holds: bool) -> Option<Node>
    requires x { x.0 < length terms.now.nodes }
    requires y { y.0 < length terms.now.nodes }
    requires sorts { AreAllOfSorts terms.now }
    requires same { sort_of (tree terms.now x.0) ≡ sort_of (tree terms.now y.0) }
    ensures { IfSome result (IsFixed terms.now y.0 (λ v. word_ult (as_number (val (tree terms.now x.0) v)) (as_number (val (tree terms.now y.0) v)) ≡ holds)) }
{
    match (node_of(terms, x), node_of(terms, y), holds) {
        (Node::Const(width, 0), Node::Name(_), false) => Some(Node::Const(width, 0)),
        (Node::Const(1, 0), Node::Name(_), true) => Some(Node::Const(1, 1)),
        _ => None,
    }
}

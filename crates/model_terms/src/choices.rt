//! Conditions and choices as terms.

ghost use Rattle.std.specs.Prelude.{◌≡◌, ◌<◌, ◌&&◌, cond, length, map, IfOk, OnOk, OnErr, IsSome};
ghost use Rattle.wb_values.specs.Value.{truth};
ghost use Rattle.model_meaning.specs.Term.{sort_of, val};
ghost use Rattle.wb_terms.specs.Graph.{IsOver, tree, tree_of_node, with_node};
ghost use Rattle.term_copies.specs.Copies.{IsExtended, AreLeaves, id_at};
ghost use Rattle.model_terms.specs.Symbolic.{worths, is_true, IsCondition, IsTest};

use crate::NoMemory;
use std::alloc::{AllocError, Global};
use wb_terms::{Node, PutStop, TermId, Terms};

/// Puts a node that has a sort.
pub(crate) fn put(terms: &mut Terms, node: Node) -> Result<TermId, NoMemory>
    requires over { IsOver terms.old (length terms.old.nodes) node }
    requires sorted { IsSome (sort_of (tree_of_node terms.old node)) }
    ensures id { IfOk result (λ id. id.0 ≡ length terms.old.nodes) }
    ensures ok { OnOk result (terms.new ≡ with_node terms.old node) }
    ensures err { OnErr result (terms.new ≡ terms.old) }
{
    match terms.put(node) {
        Ok(id) => Ok(id),
        Err(PutStop::NoMemory) => Err(AllocError),
        Err(PutStop::BadSort) => unreachable!(),
    }
}

/// Puts a constant truth value.
pub(crate) fn put_truth(terms: &mut Terms, truth: bool) -> Result<TermId, NoMemory>
    ensures extended { IsExtended terms.old terms.new }
    ensures test { IfOk result (λ r. IsTest terms.new r.0) }
    ensures value { IfOk result (λ r. (v : _) → is_true terms.new r.0 v ≡ truth) }
{
    let id = put(terms, Node::Truth(truth))?;
    Ok(id)
}

/// Puts the term that says that both hold.
pub(crate) fn put_both(terms: &mut Terms, x: TermId, y: TermId) -> Result<TermId, NoMemory>
    requires test { IsTest terms.old x.0 }
    requires condition { IsCondition terms.old y.0 }
    ensures extended { IsExtended terms.old terms.new }
    ensures test { IfOk result (λ r. IsTest terms.new r.0) }
    ensures value { IfOk result (λ r. (v : _) → is_true terms.new r.0 v ≡ (is_true terms.old x.0 v && is_true terms.old y.0 v)) }
{
    let id = put(terms, Node::And(x, y))?;
    Ok(id)
}

/// Puts the choice of a term where a condition holds, and of another of the same sort elsewhere. Where the two are one term, it is this.
pub(crate) fn put_choice(
    terms: &mut Terms,
    condition: TermId,
    x: TermId,
    y: TermId,
) -> Result<TermId, NoMemory>
    requires condition { IsCondition terms.old condition.0 }
    requires first { x.0 < length terms.old.nodes }
    requires second { y.0 < length terms.old.nodes }
    requires sorted { IsSome (sort_of (tree terms.old x.0)) }
    requires same { sort_of (tree terms.old y.0) ≡ sort_of (tree terms.old x.0) }
    ensures extended { IsExtended terms.old terms.new }
    ensures below { IfOk result (λ r. r.0 < length terms.new.nodes) }
    ensures sort { IfOk result (λ r. sort_of (tree terms.new r.0) ≡ sort_of (tree terms.old x.0)) }
    ensures value { IfOk result (λ r. (v : _) → val (tree terms.new r.0) v ≡ cond (is_true terms.old condition.0 v) (val (tree terms.old x.0) v) (val (tree terms.old y.0) v)) }
{
    if x.0 == y.0 {
        return Ok(x);
    }
    let id = put(terms, Node::Ite(condition, x, y))?;
    Ok(id)
}

/// Puts the choice of a test where a condition holds, and of another elsewhere.
pub(crate) fn put_test(
    terms: &mut Terms,
    condition: TermId,
    x: TermId,
    y: TermId,
) -> Result<TermId, NoMemory>
    requires condition { IsCondition terms.old condition.0 }
    requires first { IsTest terms.old x.0 }
    requires second { IsTest terms.old y.0 }
    ensures extended { IsExtended terms.old terms.new }
    ensures test { IfOk result (λ r. IsTest terms.new r.0) }
    ensures value { IfOk result (λ r. (v : _) → is_true terms.new r.0 v ≡ cond (is_true terms.old condition.0 v) (is_true terms.old x.0 v) (is_true terms.old y.0 v)) }
{
    let id = put_choice(terms, condition, x, y)?;
    Ok(id)
}

/// Puts the choice of each term of a point where a condition holds, and of each of another point elsewhere. The points have a term for each
/// name of the source.
pub(crate) fn put_choices(
    alloc: Global,
    terms: &mut Terms,
    source: &Terms,
    condition: TermId,
    xs: &[TermId],
    ys: &[TermId],
) -> Result<Vec<TermId>, NoMemory>
    requires condition { IsCondition terms.old condition.0 }
    requires first { AreLeaves terms.old source.now.names xs.now }
    requires second { AreLeaves terms.old source.now.names ys.now }
    ensures extended { IsExtended terms.old terms.new }
    ensures leaves { IfOk result (λ r. AreLeaves terms.new source.now.names r.items) }
    ensures values { IfOk result (λ r. (v : _) → worths terms.new r.items v ≡ cond (is_true terms.old condition.0 v) (worths terms.old xs.now v) (worths terms.old ys.now v)) }
{
    let _names = source.name_count();
    let mut chosen = Vec::with_capacity(alloc, xs.len())?;
    for place in 0..xs.len() {
        let x = xs[place];
        let y = ys[place];
        let id = put_choice(terms, condition, x, y)?;
        chosen.push(id)?;
    }
    Ok(chosen)
}

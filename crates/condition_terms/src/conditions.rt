//! Conditions that are joined and turned.

ghost use Rattle.std.specs.Prelude.{◌≡◌, ◌<◌, ◌&&◌, ◌||◌, not, length, IfOk, IfSome};
ghost use Rattle.wb_values.specs.Value.{truth};
ghost use Rattle.model_meaning.specs.Term.{constant_truth};
ghost use Rattle.wb_terms.specs.Graph.{tree};
ghost use Rattle.term_copies.specs.Copies.{IsExtended};
ghost use Rattle.condition_terms.specs.Told.{IsTermOf, is_true, IsJoined};

use crate::NoMemory;
use crate::nodes::put;
use wb_terms::{Node, TermId, Terms};

/// A constant truth value.
pub fn constant(terms: &mut Terms, truth: bool) -> Result<TermId, NoMemory>
    ensures extended { IsExtended terms.old terms.new }
    ensures value { IfOk result (λ r. IsJoined terms.new r.0 (λ v. truth)) }
{
    let id = put(terms, Node::Truth(truth))?;
    Ok(id)
}

/// The truth value of a condition that is a constant.
fn known(terms: &Terms, condition: TermId) -> Option<bool>
    requires { condition.0 < length terms.now.nodes }
    ensures { IfSome result (λ b. tree terms.now condition.0 ≡ constant_truth b) }
{
    match *terms.node(condition) {
        Node::Truth(truth) => Some(truth),
        _ => None,
    }
}

/// Whether a condition is false: of a constant a constant.
pub fn negation(terms: &mut Terms, condition: TermId) -> Result<TermId, NoMemory>
    requires { IsTermOf terms.old condition.0 truth }
    ensures extended { IsExtended terms.old terms.new }
    ensures value { IfOk result (λ r. IsJoined terms.new r.0 (λ v. not (is_true terms.old condition.0 v))) }
{
    match known(terms, condition) {
        Some(truth) => constant(terms, !truth),
        None => put_negation(terms, condition),
    }
}

/// A term that says whether a condition is false.
fn put_negation(terms: &mut Terms, condition: TermId) -> Result<TermId, NoMemory>
    requires { IsTermOf terms.old condition.0 truth }
    ensures extended { IsExtended terms.old terms.new }
    ensures value { IfOk result (λ r. IsJoined terms.new r.0 (λ v. not (is_true terms.old condition.0 v))) }
{
    let id = put(terms, Node::Not(condition))?;
    Ok(id)
}

/// Whether both conditions are true. Where one of them is a constant, it is that or the other one.
pub fn both(terms: &mut Terms, left: TermId, right: TermId) -> Result<TermId, NoMemory>
    requires left { IsTermOf terms.old left.0 truth }
    requires right { IsTermOf terms.old right.0 truth }
    ensures extended { IsExtended terms.old terms.new }
    ensures value { IfOk result (λ r. IsJoined terms.new r.0 (λ v. is_true terms.old left.0 v && is_true terms.old right.0 v)) }
{
    match (known(terms, left), known(terms, right)) {
        (Some(true), _) => Ok(right),
        (Some(false), _) => Ok(left),
        (None, Some(true)) => Ok(left),
        (None, Some(false)) => Ok(right),
        (None, None) => put_both(terms, left, right),
    }
}

/// A term that says whether both conditions are true.
fn put_both(terms: &mut Terms, left: TermId, right: TermId) -> Result<TermId, NoMemory>
    requires left { IsTermOf terms.old left.0 truth }
    requires right { IsTermOf terms.old right.0 truth }
    ensures extended { IsExtended terms.old terms.new }
    ensures value { IfOk result (λ r. IsJoined terms.new r.0 (λ v. is_true terms.old left.0 v && is_true terms.old right.0 v)) }
{
    let id = put(terms, Node::And(left, right))?;
    Ok(id)
}

/// Whether one of the conditions is true at least. Where one of them is a constant, it is that or the other one.
pub fn either(terms: &mut Terms, left: TermId, right: TermId) -> Result<TermId, NoMemory>
    requires left { IsTermOf terms.old left.0 truth }
    requires right { IsTermOf terms.old right.0 truth }
    ensures extended { IsExtended terms.old terms.new }
    ensures value { IfOk result (λ r. IsJoined terms.new r.0 (λ v. is_true terms.old left.0 v || is_true terms.old right.0 v)) }
{
    match (known(terms, left), known(terms, right)) {
        (Some(true), _) => Ok(left),
        (Some(false), _) => Ok(right),
        (None, Some(true)) => Ok(right),
        (None, Some(false)) => Ok(left),
        (None, None) => put_either(terms, left, right),
    }
}

/// A term that says whether one of the conditions is true at least.
fn put_either(terms: &mut Terms, left: TermId, right: TermId) -> Result<TermId, NoMemory>
    requires left { IsTermOf terms.old left.0 truth }
    requires right { IsTermOf terms.old right.0 truth }
    ensures extended { IsExtended terms.old terms.new }
    ensures value { IfOk result (λ r. IsJoined terms.new r.0 (λ v. is_true terms.old left.0 v || is_true terms.old right.0 v)) }
{
    let id = put(terms, Node::Or(left, right))?;
    Ok(id)
}

//! Points in terms: after updates, and with the private states of a child begun.

ghost use Rattle.std.specs.Prelude.{◌≡◌, ◌+◌, ◌<◌, ◌≤◌, ◌^◌, nat_lt, true, length, drop, Some, IfOk, OnOk};
ghost use Rattle.wb_values.specs.Value.{truth, word, truth_value, number};
ghost use Rattle.model_meaning.specs.Term.{sort_of, val, is_sort, is_width};
ghost use Rattle.wb_terms.specs.Graph.{tree};
ghost use Rattle.wb_terms.specs.Sort.{as_sort};
ghost use Rattle.ila_model.specs.Sorted.{are_states, is_private_initial};
ghost use Rattle.ila_child.specs.Updating.{are_updates_of, with_initial};
ghost use Rattle.ila_child.specs.Values.{beginning};
ghost use Rattle.term_copies.specs.Copies.{IsExtended, AreLeaves, copy_of};
ghost use Rattle.model_terms.specs.Symbolic.{worths};
ghost use Rattle.model_terms.specs.Copied.{with_copies};

use crate::NoMemory;
use crate::choices::{put, put_truth};
use ila_model::Update;
use std::alloc::Global;
use wb_terms::{NameId, Node, Sort, TermId, Terms, Value};

/// The copy of a term.
pub(crate) fn copy_of(copies: &[TermId], id: TermId) -> TermId
    requires { id.0 < length copies.now }
    ensures { result ≡ copy_of copies.now id }
{
    copies[id.0]
}

/// The point after updates, all at the old point: each updated name has the copy of its term.
pub(crate) fn updated(
    alloc: Global,
    terms: &Terms,
    point: &[TermId],
    copies: &[TermId],
    updates: &[Update],
) -> Result<Vec<TermId>, NoMemory>
    requires updates { are_updates_of terms.now 0 updates.now ≡ true }
    requires names { length point.now ≡ length terms.now.names }
    requires room { length copies.now ≡ length terms.now.nodes }
    ensures { IfOk result (λ ids. ids.items ≡ with_copies copies.now updates.now point.now) }
{
    let _terms = terms;
    let mut ids = Vec::from_slice(alloc, point)?;
    for place in 0..updates.len() {
        let update = updates[place];
        let copy = copy_of(copies, update.term);
        ids[update.state.0] = copy;
    }
    Ok(ids)
}

/// The truth value with which a private state begins that is one.
fn stated_truth(initial: &Option<Value>) -> bool
    requires { is_private_initial truth initial.now ≡ true }
    ensures { beginning truth initial.now ≡ truth_value result }
{
    match initial {
        Some(Value::Truth(value)) => *value,
        _ => unreachable!(),
    }
}

/// The number with which a private state begins that is a word.
fn stated_number(width: u32, initial: &Option<Value>) -> u128
    requires { is_private_initial (word width) initial.now ≡ true }
    ensures value { beginning (word width) initial.now ≡ number result }
    ensures fits { nat_lt result (2 ^ width) ≡ true }
{
    let _width = width;
    match initial {
        Some(Value::Number(value)) => *value,
        _ => unreachable!(),
    }
}

/// Puts a constant word.
pub(crate) fn put_number(terms: &mut Terms, width: u32, value: u128) -> Result<TermId, NoMemory>
    requires width { is_width width ≡ true }
    requires fits { nat_lt value (2 ^ width) ≡ true }
    ensures extended { IsExtended terms.old terms.new }
    ensures below { IfOk result (λ r. r.0 < length terms.new.nodes) }
    ensures sort { IfOk result (λ r. sort_of (tree terms.new r.0) ≡ Some (word width)) }
    ensures value { IfOk result (λ r. (v : _) → val (tree terms.new r.0) v ≡ number value) }
{
    let id = put(terms, Node::Const(width, value))?;
    Ok(id)
}

/// Puts the value with which a private state of this sort begins.
pub(crate) fn put_initial(
    terms: &mut Terms,
    sort: Sort,
    initial: &Option<Value>,
) -> Result<TermId, NoMemory>
    requires sort { is_sort (as_sort sort) ≡ true }
    requires initial { is_private_initial (as_sort sort) initial.now ≡ true }
    ensures extended { IsExtended terms.old terms.new }
    ensures below { IfOk result (λ r. r.0 < length terms.new.nodes) }
    ensures sort { IfOk result (λ r. sort_of (tree terms.new r.0) ≡ Some (as_sort sort)) }
    ensures value { IfOk result (λ r. (v : _) → val (tree terms.new r.0) v ≡ beginning (as_sort sort) initial.now) }
{
    match sort {
        Sort::Truth => {
            let id = put_truth(terms, stated_truth(initial))?;
            Ok(id)
        }
        Sort::Word(width) => {
            let id = put_number(terms, width, stated_number(width, initial))?;
            Ok(id)
        }
        Sort::Memory(_, _) => unreachable!(),
    }
}

/// Gives private states their initial values: those from a place of the table on, for which these are stated.
pub(crate) fn begin(
    terms: &mut Terms,
    source: &Terms,
    point: &mut Vec<TermId>,
    first: usize,
    initial_values: &[Option<Value>],
) -> Result<(), NoMemory>
    requires states { are_states true (drop first source.now.names) initial_values.now ≡ true }
    requires within { first + length initial_values.now ≤ length source.now.names }
    requires leaves { AreLeaves terms.old source.now.names point.old.items }
    ensures extended { IsExtended terms.old terms.new }
    ensures leaves { OnOk result (AreLeaves terms.new source.now.names point.new.items) }
    ensures values { OnOk result ((v : _) → worths terms.new point.new.items v ≡ with_initial source.now.names first initial_values.now (worths terms.old point.old.items v)) }
{
    let _names = source.name_count();
    for k in 0..initial_values.len() {
        let place = first + k;
        let sort = source.name_sort(NameId(place));
        let id = put_initial(terms, sort, &initial_values[k])?;
        point[place] = id;
    }
    Ok(())
}

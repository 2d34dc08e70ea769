//! What changes a point: the updates of an instruction, all at the old values, and the private states of a child.

ghost use Rattle.std.specs.Prelude.{◌≡◌, ◌≤◌, ◌+◌, ◌++◌, true, length, drop, map, OnOk};
ghost use Rattle.wb_terms.specs.Graph.{Graph};
ghost use Rattle.wb_terms.specs.Environment.{AreOfSorts};
ghost use Rattle.term_evaluation.specs.Links.{valuation_at};
ghost use Rattle.term_evaluation.specs.Points.{IsPointOf};
ghost use Rattle.ila_model.specs.Sorted.{are_states};
ghost use Rattle.ila_child.specs.Updating.{are_updates_of, with_updates, with_kept, with_initial, values_of_updates, AreUpdatesSorted};

use crate::values::begun;
use ila_model::Update;
use std::alloc::Global;
use term_evaluation::Point;
use wb_terms::{NameId, NoMemory, Terms, Value};

/// What updates make of a point: each updated state gets the value of its term, the others keep theirs.
/// Values that were put aside stay so.
pub(crate) fn update(terms: &Terms, point: &mut Point, updates: &[Update]) -> Result<(), NoMemory>
    requires updates { are_updates_of terms.now 0 updates.now ≡ true }
    requires point { IsPointOf terms.now point.old }
    requires fits { AreOfSorts terms.now.names point.old.values }
    ensures values { OnOk result (point.new.values ≡ with_updates terms.now (valuation_at terms.now point.old.values) updates.now point.old.values) }
    ensures aside { OnOk result (point.new.aside ≡ point.old.aside) }
    ensures fits { OnOk result (AreOfSorts terms.now.names point.new.values) }
    ensures point { OnOk result (IsPointOf terms.now point.new) }
{
    let first = point.kept();
    keep_updates(terms, point, updates)?;
    put_updates(terms, point, first, updates);
    point.forget(first);
    Ok(())
}

/// Puts the values of updates aside.
fn keep_updates(terms: &Terms, point: &mut Point, updates: &[Update]) -> Result<(), NoMemory>
    requires updates { are_updates_of terms.now 0 updates.now ≡ true }
    requires point { IsPointOf terms.now point.old }
    requires fits { AreOfSorts terms.now.names point.old.values }
    ensures aside { OnOk result (point.new.aside ≡ point.old.aside ++ values_of_updates terms.now (valuation_at terms.now point.old.values) updates.now) }
    ensures sorted { OnOk result (AreUpdatesSorted terms.now (valuation_at terms.now point.old.values) updates.now) }
    ensures values { point.new.values ≡ point.old.values }
    ensures point { IsPointOf terms.now point.new }
{
    for k in 0..updates.len() {
        point.keep(terms, updates[k].term)?;
    }
    Ok(())
}

/// Gives the updated states the values that were put aside from a place on.
fn put_updates(terms: &Terms, point: &mut Point, first: usize, updates: &[Update])
    requires updates { are_updates_of terms.now 0 updates.now ≡ true }
    requires kept { first + length updates.now ≤ length point.old.aside }
    requires fits { AreOfSorts terms.now.names point.old.values }
    ensures values { point.new.values ≡ with_kept updates.now (drop first point.old.aside) point.old.values }
    ensures aside { point.new.aside ≡ point.old.aside }
    ensures point { (g : Graph) → IsPointOf g point.old → IsPointOf g point.new }
{
    let _ = terms;
    let _kept = point.kept();
    for k in 0..updates.len() {
        point.put(updates[k].state.0, first + k);
    }
}

/// Gives private states their initial values: those from a place of the table on, for which these are stated.
pub(crate) fn begin(
    alloc: Global,
    terms: &Terms,
    point: &mut Point,
    first: usize,
    initial_values: &[Option<Value>],
) -> Result<(), NoMemory>
    requires states { are_states true (drop first terms.now.names) initial_values.now ≡ true }
    requires within { first + length initial_values.now ≤ length terms.now.names }
    requires fits { AreOfSorts terms.now.names point.old.values }
    requires point { IsPointOf terms.now point.old }
    ensures values { OnOk result (point.new.values ≡ with_initial terms.now.names first initial_values.now point.old.values) }
    ensures aside { OnOk result (point.new.aside ≡ point.old.aside) }
    ensures fits { OnOk result (AreOfSorts terms.now.names point.new.values) }
    ensures point { OnOk result (IsPointOf terms.now point.new) }
{
    let _names = terms.name_count();
    for (k, initial) in initial_values.iter().enumerate() {
        let place = first + k;
        let sort = terms.name_sort(NameId(place));
        let value = begun(alloc, sort, initial)?;
        point.set(place, &value, sort)?;
    }
    Ok(())
}

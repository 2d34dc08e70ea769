//! What states and inputs of a model are mapped to, as terms.

ghost use Rattle.std.specs.Prelude.{◌≡◌, ℕ, List, IfOk, map};
ghost use Rattle.model_meaning.specs.Model.{states_of};
ghost use Rattle.verilog_meaning.specs.Expression.{Scope as PureScope};
ghost use Rattle.v_value.specs.Scope.{scope_at};
ghost use Rattle.v_value.specs.Narrow.{HasNarrowObjects};
ghost use Rattle.v_operators.specs.Meaning.{Grows};
ghost use Rattle.v_lower.specs.Lowered.{HasImages};
ghost use Rattle.v_lower.specs.Table.{images_at};
ghost use Rattle.ila_model.specs.Model.{model_of};
ghost use Rattle.ila_child.specs.State.{sorts_of_inputs, sorts_of_states};
ghost use Rattle.map_trees.specs.View.{mapped_tree_view};
ghost use Rattle.map_terms.specs.Places.{first_place, first_places_at};
ghost use Rattle.map_terms.specs.Terms.{AreEntryTerms, IsEntryTerm};
ghost use Rattle.map_terms.specs.Ready.{HasReadableEntry, HaveReadableEntries};
ghost use Rattle.map_terms.specs.View.{wanted_view};

use crate::NoMemory;
use crate::places::{FirstPlaces, places_of_entries};
use ila_model::IlaModel;
use map_trees::MappedTree;
use path_terms::mapped_term;
use std::alloc::Global;
use v_lower::NamedTerms;
use v_value::scope::Scope;
use wb_terms::{Sort, TermId, Terms};

/// A name of a model, for a value of this sort.
#[derive(Clone, Copy)]
pub(crate) struct Wanted<'m> {
    pub(crate) name: &'m str,
    pub(crate) sort: Sort,
}

/// The states of a model.
pub(crate) fn wanted_states(alloc: Global, model: &IlaModel) -> Result<Vec<Wanted<'_>>, NoMemory>
    ensures { IfOk result (λ v. map wanted_view v.items ≡ sorts_of_states (states_of (model_of model.now).top)) }
{
    let mut list = Vec::new(alloc);
    for place in 0..model.state_count() {
        list.push(Wanted {
            name: model.state_name(place),
            sort: model.state_sort(place),
        })?;
    }
    Ok(list)
}

/// The inputs of a model.
pub(crate) fn wanted_inputs(alloc: Global, model: &IlaModel) -> Result<Vec<Wanted<'_>>, NoMemory>
    ensures { IfOk result (λ v. map wanted_view v.items ≡ sorts_of_inputs (model_of model.now).inputs) }
{
    let mut list = Vec::new(alloc);
    for place in 0..model.input_count() {
        list.push(Wanted {
            name: model.input_name(place),
            sort: model.input_sort(place),
        })?;
    }
    Ok(list)
}

/// The term of what the first entry of a name gives it.
fn entry_term(
    entries: &[MappedTree<'_>],
    scope: &Scope<'_>,
    table: &NamedTerms<'_>,
    places: &FirstPlaces<'_>,
    wanted: Wanted<'_>,
    terms: &mut Terms,
) -> Result<TermId, NoMemory>
    requires objects { HasNarrowObjects (scope_at scope.now) }
    requires known { HasImages (scope_at scope.now) (images_at table.now) terms.old }
    requires places { (n : List ℕ) → first_places_at places.now n ≡ first_place (map (λ e. e.name.now) entries.now) n }
    requires entry { (m : PureScope) × HasReadableEntry (scope_at scope.now) m (map mapped_tree_view entries.now) (wanted_view wanted) }
    ensures grows { Grows terms.old terms.new }
    ensures entry { IfOk result (λ r. IsEntryTerm (scope_at scope.now) (images_at table.now) terms.new (map mapped_tree_view entries.now) (wanted_view wanted.entry) r.0) }
{
    match places.place(wanted.name) {
        Some(place) => match entries.get(place) {
            Some(entry) => {
                let id = mapped_term(&entry.tree, scope, table, wanted.sort, terms)?;
                Ok(id)
            }
            None => unreachable!(),
        },
        None => unreachable!(),
    }
}

/// The terms of what entries give these names, in their order.
pub(crate) fn entry_terms(
    alloc: Global,
    entries: &[MappedTree<'_>],
    scope: &Scope<'_>,
    table: &NamedTerms<'_>,
    wanted: &[Wanted<'_>],
    terms: &mut Terms,
) -> Result<Vec<TermId>, NoMemory>
    requires objects { HasNarrowObjects (scope_at scope.now) }
    requires known { HasImages (scope_at scope.now) (images_at table.now) terms.old }
    requires entries { (m : PureScope) × HaveReadableEntries (scope_at scope.now) m (map mapped_tree_view entries.now) (map wanted_view wanted.now) }
    ensures grows { Grows terms.old terms.new }
    ensures entries { IfOk result (λ v. AreEntryTerms (scope_at scope.now) (images_at table.now) terms.new (map mapped_tree_view entries.now) (map wanted_view wanted.now) (map (λ id. id.0) v.items)) }
{
    let places = places_of_entries(alloc, entries)?;
    let mut list = Vec::new(alloc);
    for want in wanted {
        let id = entry_term(entries, scope, table, &places, *want, terms)?;
        list.push(id)?;
    }
    Ok(list)
}

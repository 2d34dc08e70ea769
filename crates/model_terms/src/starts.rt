//! The point at which a step begins, as terms.

ghost use Rattle.std.specs.Prelude.{◌≡◌, ◌<◌, ◌+◌, ◌++◌, true, List, length, take, drop, Some, IfOk};
ghost use Rattle.model_meaning.specs.Term.{sort_of, is_sort};
ghost use Rattle.wb_terms.specs.declared.nodes.TermId.{TermId};
ghost use Rattle.wb_terms.specs.Graph.{tree};
ghost use Rattle.wb_terms.specs.Sort.{as_sort};
ghost use Rattle.ila_model.specs.Sorted.{is_input_sort};
ghost use Rattle.term_copies.specs.Copies.{IsExtended, AreLeaves};

use crate::NoMemory;
use crate::choices::put_truth;
use crate::points::put_number;
use ila_model::IlaModel;
use std::alloc::Global;
use wb_terms::{NameId, Sort, TermId, Terms};

/// Puts the constant false or 0.
fn put_zero(terms: &mut Terms, sort: Sort) -> Result<TermId, NoMemory>
    requires sort { is_sort (as_sort sort) ≡ true }
    requires plain { is_input_sort (as_sort sort) ≡ true }
    ensures extended { IsExtended terms.old terms.new }
    ensures below { IfOk result (λ r. r.0 < length terms.new.nodes) }
    ensures sort { IfOk result (λ r. sort_of (tree terms.new r.0) ≡ Some (as_sort sort)) }
{
    match sort {
        Sort::Truth => {
            let id = put_truth(terms, false)?;
            Ok(id)
        }
        Sort::Word(width) => {
            let id = put_number(terms, width, 0)?;
            Ok(id)
        }
        Sort::Memory(_, _) => unreachable!(),
    }
}

/// A point of the model: its states and inputs have these terms, and the private states of its children zeros.
pub(crate) fn start(
    alloc: Global,
    terms: &mut Terms,
    model: &IlaModel,
    states: &[TermId],
    inputs: &[TermId],
) -> Result<Vec<TermId>, NoMemory>
    requires states { AreLeaves terms.old (take (length model.now.parts.initial_values.items) model.now.parts.terms.names) states.now }
    requires inputs { AreLeaves terms.old (take model.now.parts.inputs (drop (length model.now.parts.initial_values.items) model.now.parts.terms.names)) inputs.now }
    ensures extended { IsExtended terms.old terms.new }
    ensures leaves { IfOk result (λ ids. AreLeaves terms.new model.now.parts.terms.names ids.items) }
    ensures first { IfOk result (λ ids. (more : List TermId) × (ids.items ≡ (states.now ++ inputs.now) ++ more)) }
{
    let source = &model.parts.terms;
    let mut point = Vec::from_slice(alloc, states)?;
    point.extend_from_slice(inputs)?;
    for place in point.len()..source.name_count() as usize {
        let sort = source.name_sort(NameId(place));
        let id = put_zero(terms, sort)?;
        point.push(id)?;
    }
    Ok(point)
}

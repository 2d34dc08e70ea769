//! The terms of a map, but for that of the reset.

ghost use Rattle.std.specs.Prelude.{IfOk};
ghost use Rattle.verilog_trees.specs.Syntax.{Source};
ghost use Rattle.v_value.specs.Scope.{scope_at};
ghost use Rattle.v_design.specs.Parts.{Parts};
ghost use Rattle.v_operators.specs.Meaning.{Grows};
ghost use Rattle.v_lower.specs.Lowered.{HasImages};
ghost use Rattle.v_lower.specs.Table.{images_at};
ghost use Rattle.ila_model.specs.Model.{model_of};
ghost use Rattle.map_trees.specs.View.{tree_map_view};
ghost use Rattle.map_terms.specs.Terms.{AreMapTerms};
ghost use Rattle.map_terms.specs.Ready.{IsReady};
ghost use Rattle.map_terms.specs.View.{map_terms_view, setting_of};

use crate::NoMemory;
use crate::ends::ends;
use crate::states::{entry_terms, wanted_inputs, wanted_states};
use ila_model::IlaModel;
use map_trees::RefinementMap;
use mapped_designs::MappedInstruction;
use path_terms::{condition, conditions};
use std::alloc::Global;
use v_lower::NamedTerms;
use v_value::scope::Scope;
use wb_terms::{TermId, Terms};

/// The terms of a map.
#[derive(Drop)]
pub(crate) struct MapTerms {
    pub(crate) start: TermId,
    pub(crate) assume: Vec<TermId>,
    pub(crate) invariants: Vec<TermId>,
    pub(crate) states: Vec<TermId>,
    pub(crate) inputs: Vec<TermId>,
    pub(crate) instructions: Vec<MappedInstruction>,
}

/// The terms of a map, where each name has its term.
pub(crate) fn terms_of_map(
    alloc: Global,
    map: &RefinementMap<'_>,
    scope: &Scope<'_>,
    table: &NamedTerms<'_>,
    model: &IlaModel,
    terms: &mut Terms,
) -> Result<MapTerms, NoMemory>
    requires known { HasImages (scope_at scope.now) (images_at table.now) terms.old }
    requires ready { (source : Source) × (e : Parts) × IsReady (setting_of model.now map.now source) (scope_at scope.now) e }
    ensures grows { Grows terms.old terms.new }
    ensures made { IfOk result (λ r. AreMapTerms (model_of model.now) (tree_map_view map.now) (scope_at scope.now) (images_at table.now) terms.new (map_terms_view r)) }
{
    let start = condition(&map.start, scope, table, terms)?;
    let assume = conditions(alloc, &map.assume, scope, table, terms)?;
    let invariants = conditions(alloc, &map.invariants, scope, table, terms)?;
    let wanted = wanted_states(alloc, model)?;
    let states = entry_terms(alloc, &map.states, scope, table, &wanted, terms)?;
    let wanted = wanted_inputs(alloc, model)?;
    let inputs = entry_terms(alloc, &map.inputs, scope, table, &wanted, terms)?;
    let instructions = ends(
        alloc,
        &map.instructions,
        scope,
        table,
        &model.parts.instructions,
        terms,
    )?;
    Ok(MapTerms {
        start,
        assume,
        invariants,
        states,
        inputs,
        instructions,
    })
}

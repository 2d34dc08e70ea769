//! A design with a map.

ghost use Rattle.std.specs.Prelude.{IfOk};
ghost use Rattle.verilog_trees.specs.Syntax.{Source};
ghost use Rattle.v_value.specs.Scope.{scope_at};
ghost use Rattle.v_design.specs.Seen.{parts_of};
ghost use Rattle.map_trees.specs.View.{tree_map_view};
ghost use Rattle.mapped_designs.specs.Broken.{HasCountsOf};
ghost use Rattle.mapped_designs.specs.Meaning.{IsMappedBy};
ghost use Rattle.mapped_designs.specs.View.{mapped_of};
ghost use Rattle.map_terms.specs.Ready.{IsReady};
ghost use Rattle.map_terms.specs.View.{setting_of};

use crate::NoMemory;
use crate::reset::{reset_term, signal_term};
use crate::terms::terms_of_map;
use ila_model::IlaModel;
use map_trees::RefinementMap;
use mapped_designs::MappedDesign;
use path_terms::{named_terms, origins_of};
use std::alloc::Global;
use v_design::Design;
use v_value::scope::Scope;

/// The design with the terms of an accepted map of the model: whether reset is active and a command starts, its assumptions and
/// invariants, what each state and input of the model is mapped to, and how each instruction ends. The scope has the names of the map's
/// expressions.
pub fn map_terms(
    alloc: Global,
    map: &RefinementMap<'_>,
    scope: &Scope<'_>,
    model: &IlaModel,
    design: Design,
) -> Result<MappedDesign, NoMemory>
    requires ready { (source : Source) × IsReady (setting_of model.now map.now source) (scope_at scope.now) (parts_of design) }
    ensures mapped { IfOk result (λ r. (source : Source) → IsReady (setting_of model.now map.now source) (scope_at scope.now) (parts_of design)
        → IsMappedBy (setting_of model.now map.now source) (mapped_of r)) }
    ensures counts { IfOk result (λ r. HasCountsOf (tree_map_view map.now) (mapped_of r)) }
{
    let origins = origins_of(alloc, scope, &design)?;
    let signal = signal_term(&design, map.written.reset.signal.as_str());
    let mut terms = design.terms;
    let table = named_terms(alloc, scope, &origins, &mut terms)?;
    let reset = reset_term(&mut terms, signal, map.written.reset.is_active_high)?;
    let made = terms_of_map(alloc, map, scope, &table, model, &mut terms)?;
    Ok(MappedDesign {
        design: Design {
            terms,
            register_count: design.register_count,
            next: design.next,
            bits: design.bits,
            settled: design.settled,
            outputs: design.outputs,
        },
        reset_cycles: map.written.reset.cycles,
        reset,
        start: made.start,
        assume: made.assume,
        invariants: made.invariants,
        states: made.states,
        inputs: made.inputs,
        instructions: made.instructions,
    })
}

//! What a run that ends at a cycle disagrees in at that cycle.

ghost use Rattle.std.specs.Prelude.{ℕ, List, IfOk};
ghost use Rattle.refinement.specs.Map.{Setting};
ghost use Rattle.refinement.specs.Run.{Run};
ghost use Rattle.ila_model.specs.Model.{model_of};
ghost use Rattle.ila_child.specs.State.{IsStateOf};
ghost use Rattle.v_design.specs.Seen.{parts_of};
ghost use Rattle.v_cycle.specs.Running.{IsCycleOf, IsRun};
ghost use Rattle.mapped_designs.specs.Mapped.{IsSortedFor};
ghost use Rattle.mapped_designs.specs.View.{mapped_of};
ghost use Rattle.mapped_designs.specs.Runs.{Values};
ghost use Rattle.watch_laws.specs.Positions.{IsWatchedTo};
ghost use Rattle.run_watch.specs.Watch.{IsCycleOfWatch};
ghost use Rattle.run_watch.specs.Turns.{IsPosition, position_of, IsLast, DiffersFirst};

use crate::answers::Disagreement;
use crate::comparing::{first_difference, first_other_stated};
use crate::standing::WatchPosition;
use ila_model::IlaModel;
use mapped_cycles::mapped_state;
use mapped_designs::MappedDesign;
use std::alloc::Global;
use v_cycle::Cycle;
use wb_terms::NoMemory;

/// What the run disagrees in at this cycle, if it ends there, before which the watch stands at this position.
pub(crate) fn last_disagreement(
    alloc: Global,
    model: &IlaModel,
    mapped: &MappedDesign,
    cycle: &Cycle,
    t: u64,
    position: &WatchPosition,
) -> Result<Option<Disagreement>, NoMemory>
    requires sorted { IsSortedFor (model_of model.now) (mapped_of mapped.now) }
    requires made { IsCycleOf (parts_of mapped.now.design) cycle.now }
    requires run { IsRun (parts_of mapped.now.design) cycle.now }
    requires position { IsPosition (model_of model.now) (mapped_of mapped.now) t position.now }
    ensures { (x : Values) (s : Setting) (run : Run) (cycles : ℕ) → IsCycleOfWatch (model_of model.now) (mapped_of mapped.now) cycle.now t x s run cycles
        → IsWatchedTo s run t (position_of (model_of model.now) position.now) → IfOk result (IsLast s run t) }
{
    match position {
        WatchPosition::Reset => {
            if t < mapped.reset_cycles {
                return Ok(None);
            }
            let state = mapped_state(alloc, cycle, model, mapped)?;
            match first_other_stated(model, state.values()) {
                Some(k) => Ok(Some(Disagreement::InitialValue(k))),
                None => Ok(None),
            }
        }
        WatchPosition::Idle(_, q) => {
            let state = mapped_state(alloc, cycle, model, mapped)?;
            match first_difference(state.values(), q.values()) {
                Some(k) => Ok(Some(Disagreement::OtherState(k))),
                None => Ok(None),
            }
        }
        WatchPosition::Running(_, _, _, _) => Ok(None),
    }
}

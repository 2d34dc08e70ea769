//! A run of a design, watched cycle by cycle beside its model.

ghost use Rattle.std.specs.Prelude.{◌≡◌, ◌≤◌, ℕ, List, All, IfOk, length, map};
ghost use Rattle.wb_values.specs.Value.{number};
ghost use Rattle.refinement.specs.Map.{Setting};
ghost use Rattle.refinement.specs.Run.{Run};
ghost use Rattle.wb_terms.specs.Environment.{AreOfSorts};
ghost use Rattle.ila_model.specs.Model.{model_of};
ghost use Rattle.v_design.specs.Seen.{parts_of, register_values, input_values};
ghost use Rattle.v_design.specs.Parts.{registers_of, inputs_of};
ghost use Rattle.mapped_designs.specs.Mapped.{IsSortedFor};
ghost use Rattle.mapped_designs.specs.View.{mapped_of};
ghost use Rattle.mapped_designs.specs.Runs.{zero_inputs};
ghost use Rattle.watched_runs.specs.Watched.{IsWatched, HasEnded};
ghost use Rattle.run_watch.specs.View.{values_of_script, watched_of};
ghost use Rattle.run_watch.specs.Watch.{IsWatchOf};
ghost use Rattle.run_watch.specs.Turns.{answer_at, is_running_in, ended_by};

use crate::answers::{Disagreement, Premise, Watched};
use crate::failing::failing_premise;
use crate::following::follow;
use crate::lasting::last_disagreement;
use crate::standing::{Turn, WatchPosition};
use ila_model::IlaModel;
use mapped_designs::MappedDesign;
use std::alloc::Global;
use v_cycle::Cycle;
use v_design::{Design, Inputs, Registers};
use wb_terms::NoMemory;

/// Whether the position is inside a command.
fn is_running(position: &WatchPosition) -> bool
    ensures { result ≡ is_running_in position.now }
{
    match position {
        WatchPosition::Reset | WatchPosition::Idle(_, _) => false,
        WatchPosition::Running(_, _, _, _) => true,
    }
}

/// How many commands have ended.
fn ended(position: &WatchPosition) -> u64
    ensures { result ≡ ended_by position.now }
{
    match position {
        WatchPosition::Reset => 0,
        WatchPosition::Idle(ended, _) => *ended,
        WatchPosition::Running(ended, _, _, _) => *ended,
    }
}

/// Inputs that are 0.
fn zeros(alloc: Global, design: &Design) -> Result<Inputs, NoMemory>
    ensures { IfOk result (λ i. input_values i ≡ zero_inputs (parts_of design.now)) }
{
    let numbers = vec![in alloc; 0u128; design.input_count()]?;
    Ok(Inputs { numbers })
}

/// The answer at a cycle at which the run ends, or is cut: what it disagrees in there, if it does, else another one.
fn answer(t: u64, last: Option<Disagreement>, other: Watched) -> Watched
    ensures { result ≡ answer_at t last other }
{
    match last {
        Some(which) => Watched::Disagrees(t, which),
        None => other,
    }
}

/// What is said of the run from these registers under these inputs, one of each cycle. One cycle is kept at a time.
pub fn watch(
    alloc: Global,
    model: &IlaModel,
    mapped: &MappedDesign,
    registers: &Registers,
    inputs: &[Inputs],
) -> Result<Watched, NoMemory>
    requires sorted { IsSortedFor (model_of model.now) (mapped_of mapped.now) }
    requires registers { AreOfSorts (registers_of (parts_of mapped.now.design)) (register_values registers.now) }
    requires inputs { All (λ i. AreOfSorts (inputs_of (parts_of mapped.now.design)) (input_values i)) inputs.now }
    ensures { IfOk result (λ w. (s : Setting) (run : Run)
        → IsWatchOf (model_of model.now) (mapped_of mapped.now) (values_of_script (parts_of mapped.now.design) registers.now inputs.now) s run (length inputs.now)
        → IsWatched s run (length inputs.now) (watched_of w)) }
{
    let mut cycle = Cycle::new(alloc, &mapped.design, registers)?;
    let mut position = WatchPosition::Reset;
    for k in 0..inputs.len() {
        let t = k as u64;
        cycle.cycle(&mapped.design, &inputs[k]);
        if let Some(premise) = failing_premise(&cycle, mapped, t, is_running(&position)) {
            let last = last_disagreement(alloc, model, mapped, &cycle, t, &position)?;
            return Ok(answer(t, last, Watched::Outside(t, premise)));
        }
        match follow(alloc, model, mapped, &cycle, t, position)? {
            Turn::Differs(which) => return Ok(Watched::Disagrees(t, which)),
            Turn::Goes(next) => position = next,
        }
    }
    let t = inputs.len() as u64;
    let zeros = zeros(alloc, &mapped.design)?;
    cycle.cycle(&mapped.design, &zeros);
    let last = last_disagreement(alloc, model, mapped, &cycle, t, &position)?;
    Ok(answer(t, last, Watched::Agrees(ended(&position))))
}

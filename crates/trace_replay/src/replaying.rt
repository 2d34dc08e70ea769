//! Values of an obligation's cycles replayed.

ghost use Rattle.std.specs.Prelude.{◌≡◌, All, IfOk, length};
ghost use Rattle.refinement.specs.Map.{Setting};
ghost use Rattle.refinement.specs.Run.{Run};
ghost use Rattle.wb_terms.specs.Environment.{AreOfSorts};
ghost use Rattle.ila_model.specs.Model.{model_of};
ghost use Rattle.v_design.specs.Seen.{register_values, input_values};
ghost use Rattle.v_design.specs.Parts.{registers_of, inputs_of};
ghost use Rattle.obligation_lists.specs.Claims.{obligation_of};
ghost use Rattle.obligation_lists.specs.Within.{IsObligationOf};
ghost use Rattle.mapped_designs.specs.Mapped.{IsSortedFor};
ghost use Rattle.mapped_designs.specs.View.{mapped_of};
ghost use Rattle.trace_files.specs.Replay.{IsSo};
ghost use Rattle.shown_facts.specs.Asked.{AreNumbersOf};
ghost use Rattle.trace_replay.specs.Replayed.{IsSettingOf, IsGivenRun, IsSoIn, HasRunFrom, replayed_view};

use crate::walking::{first_failing, later_cycle};
use ila_model::IlaModel;
use mapped_designs::MappedDesign;
use mapped_runs::laws::{runs_show, values_have_runs};
use obligation_lists::{MapCounts, Obligation, hypotheses};
use shown_facts::{Given, is_shown, show};
use std::alloc::Global;
use v_design::{Inputs, Registers};
use wb_terms::NoMemory;

/// What a replay tells of an obligation.
#[derive(Drop)]
pub enum Replayed {
    /// All hypotheses hold, and the claim does not.
    Falsifies,
    /// This hypothesis, counted from 0, is the first that does not hold.
    HypothesisFails(usize),
    /// All hypotheses hold, and so does the claim.
    Holds,
}

/// Runs a design from these registers under these inputs, one for each cycle of the obligation, and tells what the run shows of it.
pub fn replay(
    alloc: Global,
    model: &IlaModel,
    mapped: &MappedDesign,
    counts: MapCounts<'_>,
    obligation: &Obligation<'_>,
    registers: &Registers,
    inputs: &[Inputs],
) -> Result<Replayed, NoMemory>
    requires sorted { IsSortedFor (model_of model.now) (mapped_of mapped.now) }
    requires registers { AreOfSorts (registers_of (mapped_of mapped.now).parts) (register_values registers.now) }
    requires inputs { All (λ i. AreOfSorts (inputs_of (mapped_of mapped.now).parts) (input_values i)) inputs.now }
    requires cycles { length inputs.now ≡ obligation.now.cycles }
    requires counted { AreNumbersOf (mapped_of mapped.now) counts }
    requires stated { IsObligationOf (model_of model.now) counts obligation.now }
    ensures told { IfOk result (λ r. (s : Setting) (run : Run) → IsSettingOf (model_of model.now) (mapped_of mapped.now) counts.entry obligation.now s
        → IsGivenRun (mapped_of mapped.now) obligation.now registers.now inputs.now s run → IsSo s run (obligation_of s.map obligation.now) (replayed_view r)) }
    ensures run { IfOk result (λ r. (s : Setting) → IsSettingOf (model_of model.now) (mapped_of mapped.now) counts.entry obligation.now s
        → HasRunFrom (mapped_of mapped.now) registers.now s → IsSoIn (mapped_of mapped.now) obligation.now registers.now inputs.now s (replayed_view r)) }
{
    runs_show();
    values_have_runs();
    let given = Given {
        model,
        mapped,
        registers,
        inputs,
    };
    let later = later_cycle(&obligation.claim);
    let shown = show(alloc, &given, later as usize)?;
    let facts = hypotheses(alloc, counts, obligation.hypotheses)?;
    let failing = first_failing(alloc, &given, &shown, &facts)?;
    if let Some(place) = failing {
        return Ok(Replayed::HypothesisFails(place));
    }
    let holds = is_shown(alloc, &given, &shown, &obligation.claim)?;
    if holds {
        Ok(Replayed::Holds)
    } else {
        Ok(Replayed::Falsifies)
    }
}

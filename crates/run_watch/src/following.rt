//! A watch that goes on for a cycle at which no premise fails.

ghost use Rattle.std.specs.Prelude.{◌≡◌, ◌↔◌, ◌<◌, ◌≤◌, ◌+◌, ℕ, suc, List, IfOk, IsTrue, length, option_map};
ghost use Rattle.wb_values.specs.Value.{Valuation};
ghost use Rattle.model_meaning.specs.Instruction.{Steps};
ghost use Rattle.refinement.specs.Map.{Setting};
ghost use Rattle.refinement.specs.Run.{Run};
ghost use Rattle.refinement.specs.Refinement.{state_at, inputs_at, StartsAt, IsCommandOf};
ghost use Rattle.ila_model.specs.Model.{model_of};
ghost use Rattle.ila_child.specs.State.{IsStateOf, state_valuation};
ghost use Rattle.v_design.specs.Seen.{parts_of};
ghost use Rattle.v_cycle.specs.Running.{IsCycleOf, IsRun};
ghost use Rattle.mapped_designs.specs.Mapped.{IsSortedFor};
ghost use Rattle.mapped_designs.specs.View.{mapped_of};
ghost use Rattle.mapped_designs.specs.Runs.{Values};
ghost use Rattle.watch_laws.specs.Positions.{IsWatchedTo, IsIdleAt, running};
ghost use Rattle.run_watch.specs.Watch.{IsCycleOfWatch};
ghost use Rattle.run_watch.specs.Turns.{IsPosition, position_of, DiffersFirst, mapped_or, NoneFails, IsFirstOther, IsOtherOf, place_in, IsTurnOf, IsSoundTurn};

use crate::answers::Disagreement;
use crate::commands::begun;
use crate::comparing::{first_difference, first_other_stated};
use crate::standing::{Begun, Other, Turn, WatchPosition};
use ila_child::State;
use ila_model::IlaModel;
use mapped_cycles::{holds_in, mapped_inputs, mapped_state};
use mapped_designs::MappedDesign;
use std::alloc::Global;
use v_cycle::Cycle;
use wb_terms::NoMemory;

/// The place at which a mapped state differs from the model's.
fn place_of(other: &Option<Other>) -> Option<usize>
    ensures { result ≡ place_in other.now }
{
    match other {
        Some(other) => Some(other.place),
        None => None,
    }
}

/// The mapped state, where it is another one than the model's.
fn other_state(mapped: State, q: &State) -> Option<Other>
    requires { length mapped ≡ length q.now }
    ensures { IsOtherOf q.now mapped result }
{
    match first_difference(mapped.values(), q.values()) {
        Some(place) => Some(Other { place, mapped }),
        None => None,
    }
}

/// Whether a cycle is the last one of so many, of which this is the first.
fn is_last_cycle(t: u64, first: u64, count: u64) -> bool
    ensures { IsTrue result ↔ suc t ≡ first + count }
{
    u128::from(t) + 1 == u128::from(first) + u128::from(count)
}

/// A command inside which the cycle is: it ends, it is past its bound, or it goes on.
fn inside(
    model: &IlaModel,
    mapped: &MappedDesign,
    cycle: &Cycle,
    t: u64,
    ended: u64,
    first: u64,
    instruction: usize,
    next: State,
) -> Turn
    requires sorted { IsSortedFor (model_of model.now) (mapped_of mapped.now) }
    requires run { IsRun (parts_of mapped.now.design) cycle.now }
    requires ended { ended ≤ t }
    requires within { t < 18446744073709551615 }
    requires instruction { instruction < length (mapped_of mapped.now).instructions }
    requires next { IsStateOf (model_of model.now) next }
    ensures sound { IsSoundTurn (model_of model.now) (mapped_of mapped.now) t result }
    ensures turn { (x : Values) (s : Setting) (run : Run) (cycles : ℕ) → IsCycleOfWatch (model_of model.now) (mapped_of mapped.now) cycle.now t x s run cycles
        → t < cycles → NoneFails s run t → IsWatchedTo s run t (running ended first instruction (state_valuation (model_of model.now) next))
        → IsTurnOf (model_of model.now) s run t result }
{
    let ending = mapped.instructions[instruction];
    if holds_in(cycle, mapped, ending.commit) {
        return Turn::Goes(WatchPosition::Idle(ended + 1, next));
    }
    if is_last_cycle(t, first, ending.bound) {
        return Turn::Differs(Disagreement::PastBound(instruction));
    }
    Turn::Goes(WatchPosition::Running(ended, first, instruction, next))
}

/// A command that begins: it is past its bound at once, the mapped state was another one, it ends at once, or it goes on.
fn begins(
    model: &IlaModel,
    mapped: &MappedDesign,
    cycle: &Cycle,
    t: u64,
    ended: u64,
    begun: Begun,
    place: Option<usize>,
) -> Turn
    requires sorted { IsSortedFor (model_of model.now) (mapped_of mapped.now) }
    requires run { IsRun (parts_of mapped.now.design) cycle.now }
    requires ended { ended ≤ t }
    requires within { t < 18446744073709551615 }
    requires instruction { begun.instruction < length (mapped_of mapped.now).instructions }
    requires next { IsStateOf (model_of model.now) begun.next }
    ensures sound { IsSoundTurn (model_of model.now) (mapped_of mapped.now) t result }
    ensures turn { (x : Values) (s : Setting) (run : Run) (cycles : ℕ) (q : Valuation)
        → IsCycleOfWatch (model_of model.now) (mapped_of mapped.now) cycle.now t x s run cycles
        → t < cycles → NoneFails s run t → IsIdleAt s run t ended q → IsFirstOther s run t q place → StartsAt s run t → IsCommandOf s run t begun.instruction
        → Steps s.model q (inputs_at s run t) (state_valuation (model_of model.now) begun.next) → IsTurnOf (model_of model.now) s run t result }
{
    let instruction = begun.instruction;
    let ending = mapped.instructions[instruction];
    let commits = holds_in(cycle, mapped, ending.commit);
    if !commits && ending.bound == 1 {
        return Turn::Differs(Disagreement::PastBound(instruction));
    }
    if let Some(k) = place {
        return Turn::Differs(Disagreement::OtherState(k));
    }
    if commits {
        Turn::Goes(WatchPosition::Idle(ended + 1, begun.next))
    } else {
        Turn::Goes(WatchPosition::Running(ended, t, instruction, begun.next))
    }
}

/// An idle cycle, with the model's state, and the mapped state where it is another one.
fn at_idle(
    alloc: Global,
    model: &IlaModel,
    mapped: &MappedDesign,
    cycle: &Cycle,
    t: u64,
    ended: u64,
    q: State,
    other: Option<Other>,
) -> Result<Turn, NoMemory>
    requires sorted { IsSortedFor (model_of model.now) (mapped_of mapped.now) }
    requires made { IsCycleOf (parts_of mapped.now.design) cycle.now }
    requires run { IsRun (parts_of mapped.now.design) cycle.now }
    requires ended { ended ≤ t }
    requires within { t < 18446744073709551615 }
    requires state { IsStateOf (model_of model.now) q }
    requires other { DiffersFirst (model_of model.now) q other }
    ensures sound { IfOk result (IsSoundTurn (model_of model.now) (mapped_of mapped.now) t) }
    ensures turn { (x : Values) (s : Setting) (run : Run) (cycles : ℕ) → IsCycleOfWatch (model_of model.now) (mapped_of mapped.now) cycle.now t x s run cycles
        → t < cycles → NoneFails s run t → IsIdleAt s run t ended (state_valuation (model_of model.now) q)
        → state_valuation (model_of model.now) (mapped_or q other) ≡ state_at s run t → IfOk result (IsTurnOf (model_of model.now) s run t) }
{
    let place = place_of(&other);
    if !holds_in(cycle, mapped, mapped.start) {
        return match place {
            Some(k) => Ok(Turn::Differs(Disagreement::OtherState(k))),
            None => Ok(Turn::Goes(WatchPosition::Idle(ended, q))),
        };
    }
    let inputs = mapped_inputs(alloc, cycle, model, mapped)?;
    match begun(alloc, model, &q, &inputs, &other)? {
        None => Ok(Turn::Differs(Disagreement::NoStep)),
        Some(command) => Ok(begins(model, mapped, cycle, t, ended, command, place)),
    }
}

/// What is found at a cycle at which no premise fails, before which the watch stands at this position.
pub(crate) fn follow(
    alloc: Global,
    model: &IlaModel,
    mapped: &MappedDesign,
    cycle: &Cycle,
    t: u64,
    position: WatchPosition,
) -> Result<Turn, NoMemory>
    requires sorted { IsSortedFor (model_of model.now) (mapped_of mapped.now) }
    requires made { IsCycleOf (parts_of mapped.now.design) cycle.now }
    requires run { IsRun (parts_of mapped.now.design) cycle.now }
    requires within { t < 18446744073709551615 }
    requires position { IsPosition (model_of model.now) (mapped_of mapped.now) t position }
    ensures sound { IfOk result (IsSoundTurn (model_of model.now) (mapped_of mapped.now) t) }
    ensures turn { (x : Values) (s : Setting) (run : Run) (cycles : ℕ) → IsCycleOfWatch (model_of model.now) (mapped_of mapped.now) cycle.now t x s run cycles
        → t < cycles → NoneFails s run t → IsWatchedTo s run t (position_of (model_of model.now) position)
        → IfOk result (IsTurnOf (model_of model.now) s run t) }
{
    match position {
        WatchPosition::Reset => {
            if t < mapped.reset_cycles {
                return Ok(Turn::Goes(WatchPosition::Reset));
            }
            let state = mapped_state(alloc, cycle, model, mapped)?;
            match first_other_stated(model, state.values()) {
                Some(k) => Ok(Turn::Differs(Disagreement::InitialValue(k))),
                None => {
                    let turn = at_idle(alloc, model, mapped, cycle, t, 0, state, None)?;
                    Ok(turn)
                }
            }
        }
        WatchPosition::Idle(ended, q) => {
            let state = mapped_state(alloc, cycle, model, mapped)?;
            let other = other_state(state, &q);
            let turn = at_idle(alloc, model, mapped, cycle, t, ended, q, other)?;
            Ok(turn)
        }
        WatchPosition::Running(ended, first, instruction, next) => Ok(inside(
            model,
            mapped,
            cycle,
            t,
            ended,
            first,
            instruction,
            next,
        )),
    }
}

//! Facts on instructions at the first cycle.

ghost use Rattle.std.specs.Prelude.{◌≡◌, ◌↔◌, IfOk, IsTrue};
ghost use Rattle.refinement.specs.Obligation.{decoded, one_decodes, ends, result_of};
ghost use Rattle.obligation_lists.specs.Within.{IsStateIn, IsInstructionPlace};
ghost use Rattle.ila_child.specs.Applied.{IsApplied};
ghost use Rattle.mapped_designs.specs.Runs.{Shows};
ghost use Rattle.shown_facts.specs.Values.{model_in, map_in, values_in};
ghost use Rattle.shown_facts.specs.Noted.{IsShown, IsNoted};
ghost use Rattle.shown_facts.specs.Begun.{is_begun};

use crate::given::Given;
use crate::shown::{Shown, seen_at};
use ila_child::{Applied, Stepped, apply, step};
use obligation_lists::StateAt;
use std::alloc::Global;
use wb_terms::NoMemory;

/// What an instruction does at the first cycle.
fn applied(
    alloc: Global,
    given: &Given<'_>,
    shown: &Shown,
    place: usize,
) -> Result<Applied, NoMemory>
    requires shown { IsShown given.now shown.now }
    requires place { IsInstructionPlace (model_in given.now) place }
    ensures { IfOk result (IsApplied (model_in given.now) place shown.now.first.state shown.now.inputs) }
{
    apply(alloc, given.model, place, &shown.first.state, &shown.inputs)
}

/// Whether an instruction decodes at the first cycle.
pub(crate) fn decodes(
    alloc: Global,
    given: &Given<'_>,
    shown: &Shown,
    place: usize,
) -> Result<bool, NoMemory>
    requires shown { IsShown given.now shown.now }
    requires place { IsInstructionPlace (model_in given.now) place }
    ensures { IfOk result (λ b. IsTrue b ↔ Shows (model_in given.now) (map_in given.now) (values_in given.now) (decoded place)) }
{
    let found = applied(alloc, given, shown, place)?;
    Ok(found.decodes)
}

/// Whether an instruction leads to a state from the first cycle.
pub(crate) fn does_end(
    alloc: Global,
    given: &Given<'_>,
    shown: &Shown,
    place: usize,
) -> Result<bool, NoMemory>
    requires shown { IsShown given.now shown.now }
    requires place { IsInstructionPlace (model_in given.now) place }
    ensures { IfOk result (λ b. IsTrue b ↔ Shows (model_in given.now) (map_in given.now) (values_in given.now) (ends place)) }
{
    let found = applied(alloc, given, shown, place)?;
    Ok(found.state.is_some())
}

/// Whether a step begins with an instruction.
fn is_begun(stepped: &Stepped) -> bool
    ensures { result ≡ is_begun stepped.now }
{
    match stepped {
        Stepped::Next(_, _) | Stepped::ChildStuck(_, _) | Stepped::ChildTooLong(_) => true,
        Stepped::NotValid | Stepped::NoInstruction | Stepped::Several(_, _) => false,
    }
}

/// Whether the model is valid and exactly one instruction decodes at the first cycle.
pub(crate) fn one_decodes(alloc: Global, given: &Given<'_>, shown: &Shown) -> Result<bool, NoMemory>
    requires shown { IsShown given.now shown.now }
    ensures { IfOk result (λ b. IsTrue b ↔ Shows (model_in given.now) (map_in given.now) (values_in given.now) one_decodes) }
{
    let stepped = step(alloc, given.model, &shown.first.state, &shown.inputs)?;
    Ok(is_begun(&stepped))
}

/// Whether a state has at a cycle that is noted the value that an instruction gives it from the first cycle, if that leads to a state.
pub(crate) fn has_result(
    alloc: Global,
    given: &Given<'_>,
    shown: &Shown,
    place: usize,
    state: StateAt<'_>,
    cycle: u64,
) -> Result<bool, NoMemory>
    requires shown { IsShown given.now shown.now }
    requires place { IsInstructionPlace (model_in given.now) place }
    requires state { IsStateIn (model_in given.now) state }
    ensures { IfOk result (λ b. IsNoted shown.now.later_cycle cycle
        → IsTrue b ↔ Shows (model_in given.now) (map_in given.now) (values_in given.now) (result_of place state.entry.name.now cycle)) }
{
    let found = applied(alloc, given, shown, place)?;
    match &found.state {
        Some(reached) => {
            let seen = seen_at(shown, cycle);
            let there = seen.state.values();
            let wanted = reached.values();
            Ok(there.is_same_at(state.place, wanted, state.place))
        }
        None => Ok(true),
    }
}

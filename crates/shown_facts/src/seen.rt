//! What registers decide at a cycle, and what the model's inputs are mapped to.

ghost use Rattle.std.specs.Prelude.{◌≡◌, IfOk, map};
ghost use Rattle.wb_terms.specs.Environment.{AreOfSorts};
ghost use Rattle.ila_child.specs.State.{AreInputsOf};
ghost use Rattle.v_design.specs.Seen.{input_values, register_values};
ghost use Rattle.v_design.specs.Parts.{inputs_of, registers_of};
ghost use Rattle.mapped_designs.specs.Runs.{worth_at, zero_inputs};
ghost use Rattle.shown_facts.specs.Values.{IsGiven, model_in, map_in, values_in};
ghost use Rattle.shown_facts.specs.Noted.{IsSeenAt, IsSeenFrom};

use crate::bits::bits_of;
use crate::given::Given;
use crate::running::take_cycle;
use ila_child::State;
use mapped_cycles::{mapped_inputs, mapped_state};
use std::alloc::Global;
use v_cycle::Cycle;
use v_design::{Inputs, Registers};
use wb_terms::NoMemory;

/// What does not rest on inputs at a cycle.
#[derive(Drop)]
pub struct Seen {
    /// What the states of the model are mapped to.
    pub state: State,
    /// Which invariants hold, in the order of the map.
    pub invariants: Vec<bool>,
}

/// What is seen of registers.
pub(crate) fn seen_from(
    alloc: Global,
    given: &Given<'_>,
    zeros: &Inputs,
    registers: &Registers,
) -> Result<Seen, NoMemory>
    requires given { IsGiven given.now }
    requires zeros { input_values zeros.now ≡ zero_inputs (map_in given.now).parts }
    requires zeros_sorted { AreOfSorts (inputs_of (map_in given.now).parts) (input_values zeros.now) }
    requires registers { AreOfSorts (registers_of (map_in given.now).parts) (register_values registers.now) }
    ensures { IfOk result (IsSeenFrom (model_in given.now) (map_in given.now) (register_values registers.now)) }
{
    let mut cycle = Cycle::new(alloc, &given.mapped.design, registers)?;
    cycle.cycle(&given.mapped.design, zeros);
    let state = mapped_state(alloc, &cycle, given.model, given.mapped)?;
    let invariants = bits_of(alloc, &cycle, given.mapped, &given.mapped.invariants)?;
    Ok(Seen { state, invariants })
}

/// What is seen of the first registers.
pub(crate) fn first_seen(alloc: Global, given: &Given<'_>, zeros: &Inputs) -> Result<Seen, NoMemory>
    requires given { IsGiven given.now }
    requires zeros { input_values zeros.now ≡ zero_inputs (map_in given.now).parts }
    requires zeros_sorted { AreOfSorts (inputs_of (map_in given.now).parts) (input_values zeros.now) }
    ensures { IfOk result (IsSeenAt (model_in given.now) (map_in given.now) (values_in given.now) 0) }
{
    let seen = seen_from(alloc, given, zeros, given.registers)?;
    Ok(seen)
}

/// What the inputs of the model are mapped to at cycle 0.
pub(crate) fn first_inputs(
    alloc: Global,
    given: &Given<'_>,
    zeros: &Inputs,
) -> Result<ila_child::Inputs, NoMemory>
    requires given { IsGiven given.now }
    requires zeros { input_values zeros.now ≡ zero_inputs (map_in given.now).parts }
    requires zeros_sorted { AreOfSorts (inputs_of (map_in given.now).parts) (input_values zeros.now) }
    ensures values { IfOk result (λ w. w ≡ map (worth_at (map_in given.now).parts (values_in given.now) 0) (map_in given.now).inputs) }
    ensures sorted { IfOk result (AreInputsOf (model_in given.now)) }
{
    let mut cycle = Cycle::new(alloc, &given.mapped.design, given.registers)?;
    take_cycle(&mut cycle, given, zeros, 0);
    let inputs = mapped_inputs(alloc, &cycle, given.model, given.mapped)?;
    Ok(inputs)
}

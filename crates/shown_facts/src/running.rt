//! A design run through cycles, with a row noted for each.

ghost use Rattle.std.specs.Prelude.{◌≡◌, ◌≤◌, ◌+◌, ◌++◌, [], ◌∷◌, length, IfOk, OnOk, IsTrue};
ghost use Rattle.wb_terms.specs.Environment.{AreOfSorts};
ghost use Rattle.v_design.specs.Seen.{parts_of, input_values};
ghost use Rattle.v_design.specs.Parts.{inputs_of, registers_after, value_in};
ghost use Rattle.v_cycle.specs.Running.{IsCycleOf, IsRun, HasRun, registers_in};
ghost use Rattle.mapped_designs.specs.Runs.{zero_inputs};
ghost use Rattle.shown_facts.specs.declared.rows.Row.{Row};
ghost use Rattle.shown_facts.specs.Values.{IsGiven, inputs_given, model_in, map_in, values_in, cycles_in};
ghost use Rattle.shown_facts.specs.Noted.{IsRowOf};
ghost use Rattle.shown_facts.specs.Run.{IsRunTo};

use crate::given::Given;
use crate::rows::{Row, row_of};
use std::alloc::Global;
use v_cycle::Cycle;
use v_design::{Design, Inputs};
use wb_terms::NoMemory;

/// Inputs that are 0.
pub(crate) fn zeros_of(alloc: Global, design: &Design) -> Result<Inputs, NoMemory>
    ensures values { IfOk result (λ is. input_values is ≡ zero_inputs (parts_of design.now)) }
    ensures sorted { IfOk result (λ is. AreOfSorts (inputs_of (parts_of design.now)) (input_values is)) }
{
    let numbers = vec![in alloc; 0u128; design.input_count()]?;
    Ok(Inputs { numbers })
}

/// Runs a cycle under the inputs that are given for it, or 0 after the last.
pub(crate) fn take_cycle(cycle: &mut Cycle, given: &Given<'_>, zeros: &Inputs, time: usize)
    requires given { IsGiven given.now }
    requires zeros { input_values zeros.now ≡ zero_inputs (map_in given.now).parts }
    requires zeros_sorted { AreOfSorts (inputs_of (map_in given.now).parts) (input_values zeros.now) }
    requires made { IsCycleOf (map_in given.now).parts cycle.old }
    ensures made { IsCycleOf (map_in given.now).parts cycle.new }
    ensures run { IsRun (map_in given.now).parts cycle.new }
    ensures ran { HasRun (map_in given.now).parts cycle.new (registers_in cycle.old) (inputs_given (map_in given.now).parts given.now.inputs.now time) }
    ensures registers { registers_in cycle.new
        ≡ registers_after (map_in given.now).parts (registers_in cycle.old) (inputs_given (map_in given.now).parts given.now.inputs.now time) }
{
    if time < given.inputs.len() {
        cycle.cycle(&given.mapped.design, &given.inputs[time]);
    } else {
        cycle.cycle(&given.mapped.design, zeros);
    }
}

/// A design that was run through the first cycles, with a row for each.
#[derive(Drop)]
pub(crate) struct Running {
    pub(crate) cycle: Cycle,
    pub(crate) rows: Vec<Row>,
}

/// Runs a design from one cycle on up to another, and notes a row for each.
pub(crate) fn run_on(
    alloc: Global,
    cycle: &mut Cycle,
    rows: &mut Vec<Row>,
    given: &Given<'_>,
    zeros: &Inputs,
    from: usize,
    to: usize,
) -> Result<(), NoMemory>
    requires given { IsGiven given.now }
    requires zeros { input_values zeros.now ≡ zero_inputs (map_in given.now).parts }
    requires zeros_sorted { AreOfSorts (inputs_of (map_in given.now).parts) (input_values zeros.now) }
    requires order { from ≤ to }
    requires run { IsRunTo (map_in given.now) (values_in given.now) cycle.old rows.old.items from }
    ensures { OnOk result (IsRunTo (map_in given.now) (values_in given.now) cycle.new rows.new.items to) }
{
    for time in from..to {
        take_cycle(cycle, given, zeros, time);
        let row = row_of(alloc, cycle, given.model, given.mapped)?;
        rows.push(row)?;
    }
    Ok(())
}

/// Runs a design from its first registers up to a cycle, and notes a row for each cycle before it.
pub(crate) fn run_first(
    alloc: Global,
    given: &Given<'_>,
    zeros: &Inputs,
    to: usize,
) -> Result<Running, NoMemory>
    requires given { IsGiven given.now }
    requires zeros { input_values zeros.now ≡ zero_inputs (map_in given.now).parts }
    requires zeros_sorted { AreOfSorts (inputs_of (map_in given.now).parts) (input_values zeros.now) }
    ensures { IfOk result (λ r. IsRunTo (map_in given.now) (values_in given.now) r.cycle r.rows.items to) }
{
    let mut cycle = Cycle::new(alloc, &given.mapped.design, given.registers)?;
    let mut rows = Vec::new(alloc);
    run_on(alloc, &mut cycle, &mut rows, given, zeros, 0, to)?;
    Ok(Running { cycle, rows })
}

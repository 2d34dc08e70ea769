//! What is noted of a run, so that facts can be read off.

ghost use Rattle.std.specs.Prelude.{◌≡◌, ◌≤◌, length, IfOk};
ghost use Rattle.shown_facts.specs.Values.{IsGiven, cycles_in};
ghost use Rattle.shown_facts.specs.Noted.{IsShown, seen_of};

use crate::given::Given;
use crate::rows::Row;
use crate::running::{run_first, run_on, zeros_of};
use crate::seen::{Seen, first_inputs, first_seen, seen_from};
use std::alloc::Global;
use wb_terms::NoMemory;

/// What is noted of a run.
#[derive(Drop)]
pub struct Shown {
    /// What inputs decide at each cycle, and at the one after the last with inputs that are 0.
    pub rows: Vec<Row>,
    /// What registers decide at cycle 0.
    pub first: Seen,
    /// What registers decide at the later cycle.
    pub later: Seen,
    pub later_cycle: usize,
    /// What the inputs of the model are mapped to at cycle 0.
    pub inputs: ila_child::Inputs,
}

/// Simulates a run, and notes what facts are read off. States and invariants are noted at cycle 0 and at the later cycle alone.
pub fn show(alloc: Global, given: &Given<'_>, later: usize) -> Result<Shown, NoMemory>
    requires given { IsGiven given.now }
    requires later { later ≤ cycles_in given.now }
    ensures shown { IfOk result (IsShown given.now) }
    ensures later { IfOk result (λ s. s.later_cycle ≡ later) }
{
    let zeros = zeros_of(alloc, &given.mapped.design)?;
    let first = first_seen(alloc, given, &zeros)?;
    let inputs = first_inputs(alloc, given, &zeros)?;
    let count = given.inputs.len() + 1;
    let running = run_first(alloc, given, &zeros, later)?;
    let mut cycle = running.cycle;
    let mut rows = running.rows;
    let seen = seen_from(alloc, given, &zeros, cycle.registers())?;
    run_on(alloc, &mut cycle, &mut rows, given, &zeros, later, count)?;
    Ok(Shown {
        rows,
        first,
        later: seen,
        later_cycle: later,
        inputs,
    })
}

/// What is noted of the registers at a cycle: at cycle 0, or else at the later one.
pub(crate) fn seen_at<'a>(shown: &'a Shown, cycle: u64) -> &'a Seen
    ensures { result.now ≡ seen_of shown.now cycle }
{
    if cycle == 0 {
        &shown.first
    } else {
        &shown.later
    }
}

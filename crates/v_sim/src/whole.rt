//! A simulation from the text of its script to the text that tells it.

ghost use Rattle.std.specs.Prelude.{IfOk};
ghost use Rattle.verilog_meaning.specs.Settled as meaning;
ghost use Rattle.design_scripts.specs.Simulation.{HasCycles};
ghost use Rattle.v_design.specs.Seen.{parts_of};
ghost use Rattle.v_design.specs.Design.{IsDesignOf};
ghost use Rattle.v_sim.specs.Whole.{IsSimulated};

use crate::naming::names_of;
use crate::running::simulated_text;
use ila_sim::{ScriptStop, Simulation, read_script};
use std::alloc::{AllocError, Global};
use v_design::Design;
use wb_terms::NoMemory;

/// Reads a script, runs the design by it, and tells what the design does, or refuses the script with the note of the first line that is
/// bad, or that leaves out an input.
pub fn simulated(alloc: Global, design: &Design, script: &[u8]) -> Result<Simulation, NoMemory>
    ensures told { IfOk result (λ s. (d : meaning.Design) → IsDesignOf d (parts_of design.now) → HasCycles d → IsSimulated d script.now s) }
{
    let names = names_of(alloc, design)?;
    match read_script(alloc, script, &names) {
        Ok(script) => {
            let text = simulated_text(alloc, design, &names, &script)?;
            Ok(Simulation::Text(text))
        }
        Err(ScriptStop::Refused(refusal)) => Ok(Simulation::Refused(refusal)),
        Err(ScriptStop::NoMemory) => Err(AllocError),
    }
}

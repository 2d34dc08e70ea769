//! A script read by the names of a design.

ghost use Rattle.std.specs.Prelude.{IfOk};
ghost use Rattle.verilog_meaning.specs.Settled as meaning;
ghost use Rattle.v_design.specs.Seen.{parts_of};
ghost use Rattle.v_design.specs.Design.{IsDesignOf};
ghost use Rattle.script_cycles.specs.Read.{IsOfDesign, IsReadAs};

use crate::values::{ScriptCycles, cycles_by};
use ila_sim::{ScriptRefusal, ScriptStop, read_script};
use std::alloc::{AllocError, Global};
use v_design::Design;
use v_sim::names_of;
use wb_terms::NoMemory;

/// What the bytes of a script are for a design.
#[derive(Drop)]
pub enum ScriptRead {
    /// A script: the values that it gives.
    Cycles(ScriptCycles),
    /// None, by a rule.
    Refused(ScriptRefusal),
}

/// Reads a script by the names that a design has, and gives the first registers and the inputs of each cycle, 16 bytes for each input; or
/// refuses the script with the note of the first line that is bad, or that leaves out an input.
///
/// # Errors
///
/// Out of memory, which says nothing of the script.
pub fn script_cycles(alloc: Global, design: &Design, script: &[u8]) -> Result<ScriptRead, NoMemory>
    ensures values { IfOk result (IsOfDesign (parts_of design.now)) }
    ensures read { IfOk result (λ r. (d : meaning.Design) → IsDesignOf d (parts_of design.now) → IsReadAs d (parts_of design.now) script.now r) }
{
    let names = names_of(alloc, design)?;
    match read_script(alloc, script, &names) {
        Ok(script) => {
            let cycles = cycles_by(alloc, design, script)?;
            Ok(ScriptRead::Cycles(cycles))
        }
        Err(ScriptStop::Refused(refusal)) => Ok(ScriptRead::Refused(refusal)),
        Err(ScriptStop::NoMemory) => Err(AllocError),
    }
}

//! The values that a script gives a design.

ghost use Rattle.std.specs.Prelude.{◌≡◌, All, IfOk, IsTrue, map};
ghost use Rattle.std.specs.List.{list_all};
ghost use Rattle.wb_terms.specs.Environment.{AreOfSorts};
ghost use Rattle.v_design.specs.Seen.{parts_of, register_values, input_values};
ghost use Rattle.v_design.specs.Parts.{inputs_of};
ghost use Rattle.ila_sim.specs.Scripts.{IsScriptWithin};
ghost use Rattle.ila_sim.specs.Sets.{are_right};
ghost use Rattle.v_sim.specs.Names.{names_by};
ghost use Rattle.v_sim.specs.Texts.{first_values, line_values, input_lines};
ghost use Rattle.script_cycles.specs.Values.{AreValuesFor};

use ila_sim::{Script, Set};
use std::alloc::Global;
use v_design::{Design, Inputs, Registers};
use v_sim::{first_registers, line_inputs};
use wb_terms::NoMemory;

/// The registers with which a run begins, and the inputs of each of its cycles.
#[derive(Drop)]
pub struct ScriptCycles {
    pub registers: Registers,
    pub inputs: Vec<Inputs>,
}

/// The inputs of each cycle: those that a line gives. Each line goes when its inputs are made.
fn inputs_by(alloc: Global, design: &Design, lines: Vec<Vec<Set>>) -> Result<Vec<Inputs>, NoMemory>
    requires { IsTrue (list_all (λ sets. are_right (names_by (parts_of design.now)).inputs sets.items) lines.items) }
    ensures values { IfOk result (λ v. map input_values v.items ≡ map (line_values (parts_of design.now)) (input_lines lines.items)) }
    ensures sorted { IfOk result (λ v. All (λ i. AreOfSorts (inputs_of (parts_of design.now)) (input_values i)) v.items) }
{
    let mut list = Vec::with_capacity(alloc, lines.len())?;
    for sets in lines {
        let inputs = line_inputs(alloc, design, &sets)?;
        list.push(inputs)?;
    }
    Ok(list)
}

/// The registers and the inputs that a script gives.
pub(crate) fn cycles_by(
    alloc: Global,
    design: &Design,
    script: Script,
) -> Result<ScriptCycles, NoMemory>
    requires { IsScriptWithin (names_by (parts_of design.now)) script }
    ensures registers { IfOk result (λ c. register_values c.registers ≡ first_values (parts_of design.now) script.state.items) }
    ensures inputs { IfOk result (λ c. map input_values c.inputs.items ≡ map (line_values (parts_of design.now)) (input_lines script.inputs.items)) }
    ensures values { IfOk result (AreValuesFor (parts_of design.now)) }
{
    let Script { state, inputs } = script;
    let registers = first_registers(alloc, design, &state)?;
    let inputs = inputs_by(alloc, design, inputs)?;
    Ok(ScriptCycles { registers, inputs })
}

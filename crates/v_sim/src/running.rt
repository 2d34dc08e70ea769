//! A design run by a script that was read.

ghost use Rattle.std.specs.Prelude.{◌≡◌, IfOk};
ghost use Rattle.v_design.specs.Seen.{parts_of};
ghost use Rattle.ila_sim.specs.Scripts.{IsScriptWithin};
ghost use Rattle.ila_sim.specs.Settables.{settables_view};
ghost use Rattle.v_sim.specs.Names.{names_by};
ghost use Rattle.v_sim.specs.Texts.{first_values, input_lines, text_by, IsSortedRun};

use crate::beginning::{first_registers, line_inputs};
use crate::text::{append_end, append_line};
use ila_sim::{Names, Script};
use std::alloc::Global;
use v_cycle::Cycle;
use v_design::Design;
use wb_terms::NoMemory;

/// The text that tells what the design does under a script. The registers of one cycle are kept at a time.
pub(crate) fn simulated_text(
    alloc: Global,
    design: &Design,
    names: &Names,
    script: &Script,
) -> Result<Vec<u8>, NoMemory>
    requires names { settables_view names.now ≡ names_by (parts_of design.now) }
    requires script { IsScriptWithin (names_by (parts_of design.now)) script.now }
    ensures text { IfOk result (λ v. v.items ≡ text_by (parts_of design.now) script.now) }
    ensures sorted { IfOk result (λ v. IsSortedRun (parts_of design.now) (first_values (parts_of design.now) script.now.state.items) (input_lines script.now.inputs.items)) }
{
    let registers = first_registers(alloc, design, &script.state)?;
    let mut cycle = Cycle::new(alloc, design, &registers)?;
    let mut text = Vec::new(alloc);
    for (place, sets) in script.inputs.iter().enumerate() {
        let inputs = line_inputs(alloc, design, sets)?;
        cycle.cycle(design, &inputs);
        append_line(design, &cycle, &mut text, place)?;
    }
    append_end(&mut text, &names.states, &cycle.registers().values)?;
    Ok(text)
}

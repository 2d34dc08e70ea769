//! What a design does under a script, or why it is not run.

ghost use Rattle.std.specs.Prelude.{◌≡◌, IfOk};
ghost use Rattle.verilog_meaning.specs.Settled.{Design as PureDesign};
ghost use Rattle.verilog_designs.specs.Accepted.{IsAccepted};
ghost use Rattle.verilog_exists.specs.Exists.{IsOfText};
ghost use Rattle.v_syntax.specs.Source.{source_of};
ghost use Rattle.v_design.specs.Design.{IsDesignOf};
ghost use Rattle.v_design.specs.Seen.{parts_of};
ghost use Rattle.rtl_simulation.specs.Ending.{IsEnding};
ghost use Rattle.rtl_simulation.specs.Seen.{ending_of};

use design_cycles::laws::an_accepted_design_has_cycles;
use ila_sim::ScriptRefusal;
use std::alloc::{AllocError, Global};
use v_design::Design;
use v_elab::{Elaborated, elaborate};
use v_judged::DesignKind;
use v_sim::{Simulation, simulated};
use v_syntax::module::Tree;

/// What a design does under a script, or why it is not run.
#[derive(Drop)]
pub enum RtlSimulation {
    /// The lines that tell it.
    Text(Vec<u8>),
    /// The design breaks the rule of this kind.
    Design(DesignKind),
    /// The text is no script for the design.
    Script(ScriptRefusal),
}

/// The answer for a design that is run.
fn run(design: &Design, script: &[u8], alloc: Global) -> Result<RtlSimulation, AllocError>
    ensures { IfOk result (λ r. (d : PureDesign) → IsDesignOf d (parts_of design.now) → IsAccepted d → IsOfText d → IsEnding d script.now (ending_of r)) }
{
    an_accepted_design_has_cycles();
    match simulated(alloc, design, script)? {
        Simulation::Text(text) => Ok(RtlSimulation::Text(text)),
        Simulation::Refused(refusal) => Ok(RtlSimulation::Script(refusal)),
    }
}

/// What the module `top` of a tree, with all that stands below it and the clock `clock`, does under the script of these bytes: its settled outputs at each cycle and
/// its registers after the last edge; or the first kind of design whose rule it breaks; or how the text is no script for it. The tree is
/// one of a text: its numbers fit their widths, parts have bits, and names have no dots.
///
/// # Errors
///
/// Out of memory, which says nothing of the design.
pub fn simulated_rtl(
    source: &Tree<'_>,
    top: &str,
    clock: &str,
    script: &[u8],
    alloc: Global,
) -> Result<RtlSimulation, AllocError>
    requires { IsOfText (record { source = source_of source.now; top = top.now; clock = clock.now }) }
    ensures { IfOk result (λ r. IsEnding (record { source = source_of source.now; top = top.now; clock = clock.now }) script.now (ending_of r)) }
{
    match elaborate(alloc, source, top, clock)? {
        Elaborated::Design(design) => {
            let answer = run(&design, script, alloc)?;
            Ok(answer)
        }
        Elaborated::Refused(kind) => Ok(RtlSimulation::Design(kind)),
    }
}

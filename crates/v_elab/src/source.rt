//! From the tree of a source to its design, or the kind by which it is refused.

ghost use Rattle.std.specs.Prelude.{IfOk};
ghost use Rattle.verilog_exists.specs.Exists.{IsOfText};
ghost use Rattle.v_syntax.specs.Source.{source_of};
ghost use Rattle.v_judged.specs.Refusal.{IsDesignRefusal};
ghost use Rattle.v_elab.specs.Answer.{refusal_of, IsElaboration};

use crate::NoMemory;
use crate::flat::placed_design;
use std::alloc::Global;
use v_design::Design;
use v_instances::interface::interfaces_of;
use v_judged::{DesignKind, Judged, judged};
use v_syntax::module::Tree;

/// A design, or the kind by which it is refused.
#[derive(Drop)]
pub enum Elaborated {
    Design(Design),
    Refused(DesignKind),
}

/// The design of a Verilog source, or the kind by which it is refused: the first, in their order, whose rule it breaks. The design is the
/// module `top` of the tree with all that stands below it, and the clock `clock`. The tree is one of a text: its numbers fit their widths,
/// parts have bits, and names have no dots.
pub fn elaborate<'s>(
    alloc: Global,
    tree: &Tree<'s>,
    top: &str,
    clock: &str,
) -> Result<Elaborated, NoMemory>
    requires { IsOfText (record { source = source_of tree.now; top = top.now; clock = clock.now }) }
    ensures refused { IfOk result (λ r. IsDesignRefusal (record { source = source_of tree.now; top = top.now; clock = clock.now }) (refusal_of r)) }
    ensures design { IfOk result (λ r. IsElaboration (record { source = source_of tree.now; top = top.now; clock = clock.now }) r) }
{
    let interfaces = interfaces_of(alloc, tree)?;
    let told = judged(alloc, tree, top, clock)?;
    match told {
        Judged::Refused(kind) => Ok(Elaborated::Refused(kind)),
        Judged::Accepted(places) => {
            let design = placed_design(places.as_slice(), &interfaces, alloc, clock)?;
            Ok(Elaborated::Design(design))
        }
    }
}

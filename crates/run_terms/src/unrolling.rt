//! A design unrolled over the cycles of a run.

ghost use Rattle.std.specs.Prelude.{◌≡◌, ◌++◌, length, IfOk};
ghost use Rattle.term_copies.specs.Copies.{IsExtended, AreLeaves, AreCopies};
ghost use Rattle.v_design.specs.Seen.{parts_of};
ghost use Rattle.run_terms.specs.Unrolled.{IsUnrolled};

use crate::NoMemory;
use crate::leaves::{copies_of, joined, put_inputs, put_names, put_zeros};
use crate::naming::store_of_run;
use std::alloc::Global;
use term_copies::put_copies;
use v_design::Design;
use wb_terms::{TermId, Terms};

/// A design unrolled over the cycles of a run. The names of the store are numbers: one for each register, and then one for each input at
/// each cycle.
#[derive(Drop)]
pub struct RunTerms {
    pub terms: Terms,
    /// The first registers, in the order of the design.
    pub registers: Vec<TermId>,
    /// For each cycle the terms of the design at this cycle, by their places in the design's store.
    pub read: Vec<Vec<TermId>>,
    /// For each cycle and the one after the last the terms of the design with inputs that are 0, by their places.
    pub shown: Vec<Vec<TermId>>,
}

/// Unrolls a design over so many cycles. It puts two copies of the design's terms for each.
pub fn run_terms(alloc: Global, design: &Design, cycles: u64) -> Result<RunTerms, NoMemory>
    ensures { IfOk result (IsUnrolled (parts_of design.now) cycles) }
{
    let _names = design.terms.name_count();
    let mut terms = store_of_run(alloc, design, cycles)?;
    let first = put_names(alloc, &mut terms, 0, design.register_count())?;
    let zeros = put_zeros(alloc, &mut terms, design)?;
    let mut registers = joined(alloc, &first, &[])?;
    let mut read = Vec::new(alloc);
    let mut shown = Vec::new(alloc);
    for cycle in 0..cycles {
        let at_zero = put_cycle(alloc, &mut terms, design, &registers, &zeros)?;
        shown.push(at_zero)?;
        let inputs = put_inputs(alloc, &mut terms, design, cycle)?;
        let copies = put_cycle(alloc, &mut terms, design, &registers, &inputs)?;
        registers = copies_of(alloc, &copies, &design.next)?;
        read.push(copies)?;
    }
    let at_zero = put_cycle(alloc, &mut terms, design, &registers, &zeros)?;
    shown.push(at_zero)?;
    Ok(RunTerms {
        terms,
        registers: first,
        read,
        shown,
    })
}

/// Puts copies of the terms of a design over registers and inputs.
fn put_cycle(
    alloc: Global,
    terms: &mut Terms,
    design: &Design,
    registers: &[TermId],
    inputs: &[TermId],
) -> Result<Vec<TermId>, NoMemory>
    requires { AreLeaves terms.old design.now.terms.names (registers.now ++ inputs.now) }
    ensures extended { IsExtended terms.old terms.new }
    ensures copies { IfOk result (λ ids. AreCopies terms.new design.now.terms (registers.now ++ inputs.now) ids.items) }
{
    let leaves = joined(alloc, registers, inputs)?;
    put_copies(alloc, terms, &design.terms, &leaves)
}

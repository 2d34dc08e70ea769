//! Which conditions hold in the last cycle of a simulated design.

ghost use Rattle.std.specs.Prelude.{◌≡◌, All, IfOk, IsTrue, map};
ghost use Rattle.wb_values.specs.Value.{truth, as_truth};
ghost use Rattle.wb_terms.specs.Environment.{value_of};
ghost use Rattle.v_design.specs.Seen.{parts_of};
ghost use Rattle.v_design.specs.Parts.{is_term_of};
ghost use Rattle.v_cycle.specs.Running.{IsRun};

use mapped_cycles::holds_in;
use mapped_designs::{MappedDesign, MappedInstruction};
use std::alloc::Global;
use v_cycle::Cycle;
use wb_terms::{NoMemory, TermId};

/// Whether a condition holds.
pub(crate) fn bit_of(cycle: &Cycle, mapped: &MappedDesign, id: TermId) -> bool
    requires run { IsRun (parts_of mapped.now.design) cycle.now }
    requires condition { IsTrue (is_term_of mapped.now.design.terms truth id.0) }
    ensures { result ≡ as_truth (value_of mapped.now.design.terms cycle.now.env id.0) }
{
    holds_in(cycle, mapped, id)
}

/// Which of some conditions hold.
pub(crate) fn bits_of(
    alloc: Global,
    cycle: &Cycle,
    mapped: &MappedDesign,
    ids: &[TermId],
) -> Result<Vec<bool>, NoMemory>
    requires run { IsRun (parts_of mapped.now.design) cycle.now }
    requires conditions { All (λ (id : _). IsTrue (is_term_of mapped.now.design.terms truth id.0)) ids.now }
    ensures { IfOk result (λ bits. bits.items ≡ map (λ id. as_truth (value_of mapped.now.design.terms cycle.now.env id.0)) ids.now) }
{
    let mut bits = Vec::with_capacity(alloc, ids.len())?;
    for id in ids {
        bits.push(bit_of(cycle, mapped, *id))?;
    }
    Ok(bits)
}

/// Which of some commits hold.
pub(crate) fn commit_bits(
    alloc: Global,
    cycle: &Cycle,
    mapped: &MappedDesign,
    instructions: &[MappedInstruction],
) -> Result<Vec<bool>, NoMemory>
    requires run { IsRun (parts_of mapped.now.design) cycle.now }
    requires conditions { All (λ (i : _). IsTrue (is_term_of mapped.now.design.terms truth i.commit.0)) instructions.now }
    ensures { IfOk result (λ bits. bits.items ≡ map (λ i. as_truth (value_of mapped.now.design.terms cycle.now.env i.commit.0)) instructions.now) }
{
    let mut bits = Vec::with_capacity(alloc, instructions.len())?;
    for instruction in instructions {
        bits.push(bit_of(cycle, mapped, instruction.commit))?;
    }
    Ok(bits)
}

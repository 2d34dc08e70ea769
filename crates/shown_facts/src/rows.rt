//! What inputs decide at a cycle.

ghost use Rattle.std.specs.Prelude.{IfOk};
ghost use Rattle.wb_terms.specs.Environment.{value_of};
ghost use Rattle.v_design.specs.Seen.{parts_of};
ghost use Rattle.v_cycle.specs.Running.{IsRun};
ghost use Rattle.ila_model.specs.Model.{model_of};
ghost use Rattle.mapped_designs.specs.Mapped.{IsSortedFor};
ghost use Rattle.mapped_designs.specs.View.{mapped_of};
ghost use Rattle.shown_facts.specs.Noted.{IsRowOf};

use crate::bits::{bit_of, bits_of, commit_bits};
use ila_model::IlaModel;
use mapped_designs::MappedDesign;
use std::alloc::Global;
use v_cycle::Cycle;
use wb_terms::NoMemory;

/// Which conditions of a map hold at a cycle.
#[derive(Drop)]
pub struct Row {
    /// Whether reset is active.
    pub reset: bool,
    /// Whether a command starts.
    pub start: bool,
    /// The assumptions, in the order of the map.
    pub assume: Vec<bool>,
    /// The commits of the instructions, in the order of the model.
    pub commits: Vec<bool>,
}

/// The conditions of a map that hold in the last cycle.
pub(crate) fn row_of(
    alloc: Global,
    cycle: &Cycle,
    model: &IlaModel,
    mapped: &MappedDesign,
) -> Result<Row, NoMemory>
    requires sorted { IsSortedFor (model_of model.now) (mapped_of mapped.now) }
    requires run { IsRun (parts_of mapped.now.design) cycle.now }
    ensures { IfOk result (IsRowOf (mapped_of mapped.now) (value_of mapped.now.design.terms cycle.now.env)) }
{
    let reset = bit_of(cycle, mapped, mapped.reset);
    let start = bit_of(cycle, mapped, mapped.start);
    let assume = bits_of(alloc, cycle, mapped, &mapped.assume)?;
    let commits = commit_bits(alloc, cycle, mapped, &mapped.instructions)?;
    Ok(Row {
        reset,
        start,
        assume,
        commits,
    })
}

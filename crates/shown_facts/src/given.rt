//! What a run is given.

use ila_model::IlaModel;
use mapped_designs::MappedDesign;
use v_design::{Inputs, Registers};

/// A model, a design with a map, and a run of the design: its first registers, and its inputs at each cycle. After the last of these
/// the inputs are 0.
#[derive(Clone, Copy)]
pub struct Given<'a> {
    pub model: &'a IlaModel,
    pub mapped: &'a MappedDesign,
    pub registers: &'a Registers,
    pub inputs: &'a [Inputs],
}

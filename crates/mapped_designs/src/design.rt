//! The code's record of a design with a map.

use v_design::Design;
use wb_terms::TermId;

/// How an instruction of the model ends: the term of its commit's condition, and the number of cycles within which it comes.
#[derive(Clone, Copy, Debug)]
pub struct MappedInstruction {
    /// A truth value.
    pub commit: TermId,
    /// 1 to 256.
    pub bound: u64,
}

/// A design, whose store has besides its own terms those of a refinement map. Conditions are truth values.
#[derive(Drop)]
pub struct MappedDesign {
    pub design: Design,
    /// For how many cycles a run begins with reset, 1 to 16.
    pub reset_cycles: u64,
    /// Whether reset is active.
    pub reset: TermId,
    /// Whether a command starts.
    pub start: TermId,
    /// The assumptions, in the order of the map.
    pub assume: Vec<TermId>,
    /// The invariants, in the order of the map.
    pub invariants: Vec<TermId>,
    /// What each state of the model is mapped to, in the order of the model.
    pub states: Vec<TermId>,
    /// What each input of the model is mapped to, in the order of the model.
    pub inputs: Vec<TermId>,
    /// How each instruction of the model ends, in the order of the model.
    pub instructions: Vec<MappedInstruction>,
}

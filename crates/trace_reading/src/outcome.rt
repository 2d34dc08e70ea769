//! What is read of a trace file.

use crate::refusal::TraceRefusal;
use v_design::{Inputs, Registers};

/// A trace of an obligation, as values for a design.
#[derive(Drop)]
pub struct FileTrace {
    /// The place of its obligation in the list.
    pub obligation: usize,
    /// A value for each register, in the design's order. A memory has all words of its sort: those past its last are 0. A register that
    /// is not named is 0.
    pub registers: Registers,
    /// The inputs of each cycle, in the design's order.
    pub inputs: Vec<Inputs>,
}

/// A trace, or why the file is none.
#[derive(Drop)]
pub enum TraceRead {
    /// The file is a trace of an obligation.
    Trace(FileTrace),
    /// A rule refuses it.
    Refused(TraceRefusal),
}

//! Traces of a design's runs as text: first registers, and inputs of each cycle, in the order of their names.
#![tactic(auto)]

pub mod laws;
mod names;
mod text;

pub use names::{NoMemory, TraceNames};
pub use text::append_trace;

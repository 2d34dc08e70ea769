//! A script for a design as values: the registers with which a run begins, and the inputs of each of its cycles.
#![tactic(auto)]

mod reading;
mod values;

pub use ila_sim::{ScriptKind, ScriptRefusal};
pub use reading::{ScriptRead, script_cycles};
pub use values::ScriptCycles;
pub use wb_terms::NoMemory;

//! A design simulated by a script: the script is read, the design runs cycle by cycle, and a text tells what it does.
#![tactic(auto)]

mod beginning;
mod naming;
mod running;
mod text;
mod whole;

pub use beginning::{first_registers, line_inputs};
pub use ila_sim::{ScriptKind, ScriptRefusal, Simulation};
pub use naming::names_of;
pub use wb_terms::NoMemory;
pub use whole::simulated;

//! What a run of a design under a script shows of its model, when the two are watched side by side.
#![tactic(auto)]

mod watching;

pub use run_watch::Watched;
pub use script_cycles::{ScriptKind, ScriptRefusal};
pub use watching::{Ending, watched};
pub use wb_terms::NoMemory;

//! What a replay of a trace file tells of a model and a design with its map.
#![tactic(auto)]

mod replaying;

pub use replaying::{Ending, replayed};
pub use trace_replay::Replayed;
pub use wb_terms::NoMemory;

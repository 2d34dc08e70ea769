//! Terms evaluated where the names of their store have values: each term when it is asked for, with memories that share what did not change.
#![tactic(auto)]

mod evaluating;
mod points;
mod shared;
mod slots;

pub use points::Point;
pub use shared::SharedValues;
pub use slots::Shown;
pub use sparse_memories::SetWord;
pub use wb_terms::NoMemory;

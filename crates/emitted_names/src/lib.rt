//! Which terms the emitted design of a model needs, and the names of its wires.
#![tactic(auto)]

mod ids;
mod keeping;
mod names;
mod nodes;
mod parts;
mod ways;
mod words;

pub use ids::{id_at, is_memory, kept_ids, update_at};
pub use keeping::{check_stored, kept_terms};
pub use names::{ModuleNames, module_names, name_at};
pub use nodes::node_of;
pub use ways::{Way, instruction_at, is_of_memory};
pub use words::{PartName, part_name};

/// Out of memory.
pub type NoMemory = std::alloc::AllocError;

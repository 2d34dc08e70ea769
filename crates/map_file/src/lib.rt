//! Map files as they are written: from their bytes to the texts and numbers that they say, or the first rule that refuses them.
#![tactic(auto)]

mod heads;
mod json;
mod keys;
mod misfits;
mod refusal;
mod shape;
mod stop;
mod written;

pub use heads::{Heads, map_heads};
pub use refusal::{MapRefusal, MapRule};
pub use stop::MapStop;
pub use written::{InstructionEntry, Mapped, WrittenMap, WrittenReset};

//! Terms of models: a store of shared terms of truth, word and memory sort, each checked when it is put, and their values under an environment.
#![tactic(auto)]

mod evaluation;
mod nodes;
mod passes;
mod sorts;
mod store;
mod values;

pub use evaluation::{Scratch, eval, eval_at};
pub use nodes::{NameId, Node, TermId};
pub use passes::Evaluated;
pub use sorts::Sort;
use std::alloc::AllocError;
pub use store::{PutStop, Terms};
pub use values::{Env, Value};

/// Want of memory, where nothing else can go wrong.
pub type NoMemory = AllocError;

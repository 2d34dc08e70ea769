//! The trees of a map's expressions: from a written map and a model to the map that is read, or to the expression that is none.
#![tactic(auto)]

mod stop;
mod tokens;
mod trees;

pub use tokens::{EntryTokens, InstructionTokens, MapTokens, StateTokens, TextTokens, map_tokens};
pub use trees::{InstructionTree, MappedTree, RefinementMap, map_trees};

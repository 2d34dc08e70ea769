//! A run of a design that is watched beside its model: whether it agrees, leaves the premises, or disagrees.
#![tactic(auto)]

mod answers;
mod commands;
mod comparing;
mod failing;
mod following;
mod lasting;
mod standing;
mod text;
mod watching;

pub use answers::{Disagreement, Premise, Watched};
pub use text::watched_text;
pub use watching::watch;
pub use wb_terms::NoMemory;

//! Values of an obligation's cycles replayed: whether they falsify it, which of its hypotheses fails first, or whether it holds of them.
#![tactic(auto)]

mod replaying;
mod text;
mod walking;

pub use replaying::{Replayed, replay};
pub use text::replay_text;
pub use wb_terms::NoMemory;

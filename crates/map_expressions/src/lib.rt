//! The expressions of maps: from the text of one, read by itself, to its tree.
#![tactic(auto)]

pub mod laws;
mod stop;
mod text;

pub use stop::TextStop;
pub use text::TokenText;

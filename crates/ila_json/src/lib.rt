//! Model files by their bytes: the model of each, or the first rule that refuses it.
#![tactic(auto)]

mod reading;
mod stop;

pub use reading::{read_document, read_model, read_written};
pub use stop::ModelStop;

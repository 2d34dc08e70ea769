//! Names that the workbench reads: which words are reserved, and which names a model may have.
#![tactic(auto)]

mod names;
mod words;

pub use names::{begins_with_letter, is_digit, is_letter, is_model_name, is_name_byte};
pub use words::is_reserved_word;

//! Verilog text to tokens.
#![tactic(auto)]

mod answer;
mod ascii;
mod conditional;
mod directive;
mod fault;
mod files;
mod front;
pub mod laws;
mod mark;
mod nesting;
mod note;
mod number;
mod opening;
mod piece;
mod place;
mod reading;
mod run;
mod scan;
mod state;
mod stop;
mod table;
mod words;

pub use answer::{note_behind, tokens};
pub use note::Note;
pub use stop::{LexKind, LexRefusal, LexStop};
pub use v_token::token::{Mark, Token, TokenKind};

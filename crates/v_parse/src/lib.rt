//! Declarations, module items, modules and sources of Verilog, read from tokens.
#![tactic(auto)]

mod declaration;
mod event;
mod front;
mod instance;
mod item;
pub mod laws;
mod module;
mod source;
mod stop;

pub use source::parse;
pub use stop::ParseStop;

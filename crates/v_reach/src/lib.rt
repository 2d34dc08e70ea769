//! Which bits of a Verilog module that stands by itself depend on some bits of it.
#![tactic(auto)]

mod driver;
mod module;
mod turn;
mod visit;

pub use module::mark_dependents;

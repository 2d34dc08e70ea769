//! Combinational loops of a Verilog module that stands by itself.
#![tactic(auto)]

mod driver;
pub mod laws;
mod module;
mod pass;
mod shared;
mod span;
mod turn;

pub use driver::settled_by;
pub use module::has_loop;
pub use span::remove;

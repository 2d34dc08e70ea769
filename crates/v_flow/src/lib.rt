//! Which bits the expressions, targets and statements of a Verilog module read, and which they assign.
#![tactic(auto)]

mod assigned;
mod constant;
pub mod laws;
mod place;
mod reached;
mod read;
pub mod span;
mod statement;

pub use assigned::add_assigned;
pub use constant::{are_constant_selects, is_constant};
pub use reached::{add_reached, add_surely_reached, add_target_reads};
pub use read::add_reads;
pub use statement::add_statement_reads;

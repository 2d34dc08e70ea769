//! What the statements of Verilog do to values, and what clocked blocks leave at the clock's edge, as plain programs.
#![tactic(auto)]

mod choice;
mod copy;
mod evaluation;
pub mod place;
pub mod register;
mod select;
pub mod statement;
pub mod target;
pub mod worked_statements;
pub mod write;

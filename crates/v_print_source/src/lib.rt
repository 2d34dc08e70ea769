//! Whole Verilog sources written as text that reads as the same trees.
#![tactic(auto)]

mod connection;
mod declaration;
mod item;
pub mod laws;
mod layout;
mod module;
pub mod print;
mod statement;
mod target;

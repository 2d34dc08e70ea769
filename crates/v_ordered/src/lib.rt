//! What all nets and variables of a design are called in one scope, in the order in which registers are told: depth first, and in one
//! module the order of the text.
#![tactic(auto)]

mod below;
mod member;
mod members;
mod naming;
mod order;
mod task;
mod variables;

pub use order::names_in_order;

//! Lowers Verilog expressions to terms, operator by operator: where the operands are lowered, so is what is put for the whole.
#![tactic(auto)]

mod deciding;
mod expression;
mod names;
mod operators;
mod parts;
mod reducing;
mod steps;
mod table;
mod taking;
mod walking;

pub use deciding::{lower_comparison, lower_conditional, lower_logical};
pub use expression::{SizeStop, lower};
pub use operators::{lower_binary, lower_prefix, lower_shift, lower_signed, lower_unsigned};
pub use parts::{lower_concatenation, lower_number, lower_part, lower_replication};
pub use reducing::lower_reduction;
pub use table::NamedTerms;

/// Out of memory.
pub type NoMemory = std::alloc::AllocError;

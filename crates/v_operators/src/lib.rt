//! Terms for the operators of Verilog: each is put on the terms of its operands, and is worth what the operator makes of theirs.
#![tactic(auto)]

mod parts;
mod putting;
mod shifts;
mod truths;
mod words;

pub use parts::{beside, copies, part};
pub use putting::put;
pub use shifts::{shifted_left, shifted_right, shifted_right_signed};
pub use truths::{bit, both, choice, either, is_at_most, is_below, is_equal, is_nonzero};
pub use words::{
    complement, conjunction, constant, difference, disjunction, exclusive_or, negated, product,
    sum, widened,
};

/// Out of memory.
pub type NoMemory = std::alloc::AllocError;

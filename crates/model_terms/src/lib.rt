//! A step of an instruction-level model as terms: its conditions, and what each instruction does with its child programs, at a state and
//! inputs that are terms themselves.
#![tactic(auto)]

mod choices;
mod joining;
mod listing;
mod points;
mod programs;
mod putting;
mod starts;
mod unrolled;

pub use putting::{InstructionTerms, ModelTerms, put_model};
pub use unrolled::unrolled_steps;

/// Out of memory.
pub type NoMemory = std::alloc::AllocError;

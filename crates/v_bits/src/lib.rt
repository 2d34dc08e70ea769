//! Terms for bits of a number: at places that are known, and at places that are the terms of indexes.
#![tactic(auto)]

mod bits;
mod moving;
mod operand;
mod selecting;
mod storing;
mod writing;

pub use bits::{fixed_bits, resized};
pub use moving::{less_by, less_from, moved, near};
pub use operand::{Operand, natural};
pub use selecting::{Wanted, bits_at};
pub use storing::stored;
pub use writing::{bits_written, fixed_written};

/// Out of memory.
pub type NoMemory = std::alloc::AllocError;

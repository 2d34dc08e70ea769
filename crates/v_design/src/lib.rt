//! A design as terms of a store: what its nets and variables settle to, and what the clock's edge makes of its registers.
#![tactic(auto)]

mod bits;
mod design;
mod place;
mod table;
mod values;

pub use bits::RegisterBits;
pub use design::Design;
pub use place::PlaceTerms;
pub use values::{Inputs, Registers};
pub use wb_terms::NoMemory;

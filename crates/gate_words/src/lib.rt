//! Circuits for the operators on words: lists of bits, bit 0 first.
#![tactic(auto)]

mod chains;
mod laws;
mod lists;
mod operators;
mod products;
mod shifts;
mod signed;

pub use chains::{Cell, Chain, chained};
pub use laws::{carries_as_numbers, parts_as_numbers, places_as_numbers};
pub use lists::{constant, cut, extended, joined, literals, sign_of, single, zeros};
pub use operators::{Operator, operated};
pub use products::product;
pub use shifts::{Direction, shifted};
pub use signed::{signed_at_most, signed_below};

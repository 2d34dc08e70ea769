//! Which bits rest on bits that are not settled yet, through expressions, assignments and combinational blocks.
#![tactic(auto)]

mod assignment;
mod change;
mod copy;
pub mod laws;
mod part;
mod plain;
mod read;
mod run;
mod table;

pub use assignment::{take, value_bits};
pub use copy::copied_bits;
pub use read::{meets, rests};
pub use run::after;

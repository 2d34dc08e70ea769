//! The kinds on names of a design: whether its top and its clock are there, whether each name is declared, and once, and whether its
//! hierarchy has an end (IEEE 1364-2005, 4.11, 12.1 to 12.3). Of a design that breaks none of them all modules that stand in it are listed.
#![tactic(auto)]

mod before;
mod clock;
mod design;
mod judged;
mod kind;
mod ports;
mod wide;

pub use design::judged_names;
pub use kind::{Named, NamesKind};

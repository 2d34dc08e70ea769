//! Terms of truth sort to formulas in conjunctive normal form, and values of their names from assignments.
#![tactic(auto)]

mod blasting;
mod forms;
mod formulas;
pub mod laws;
mod layout;
mod reach;
mod reading;

pub use formulas::{Blasted, blast};
pub use layout::BitMap;
pub use reach::cone;
pub use reading::read_back;
pub use sat_base::{Assignment, Cnf, NoMemory};

//! Whether a term of truth sort holds: its formula, the solver's answer, and each refutation checked.
#![tactic(auto)]

mod refuting;
mod settling;

pub use refuting::Checked;
pub use sat_base::NoMemory;
pub use settling::{Settled, settle};

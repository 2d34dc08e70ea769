//! The expressions of a map judged for a design: which of them is bad, which has another width than it must have, and whether the reset is one.
#![tactic(auto)]

mod expression;
mod flaw;
mod known;
pub mod laws;
mod making;
mod reset;
mod width;

pub use expression::MapExpression;
pub use flaw::{FirstFlaw, Flaw, first_flaw};
pub use known::KnownNames;
pub use making::known_names;
pub use reset::is_reset;
pub use width::first_mismatch;

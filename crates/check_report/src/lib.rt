//! The report of a check of a model against a design with a map: a line for what was found of each obligation and each cover, the total, and
//! what shows that a budget was spent.
#![tactic(auto)]

mod checking;
mod lines;
mod spending;
mod totals;

pub use checking::{Report, bounds, check};
pub use obligation_check::{NoMemory, Spent};
pub use totals::Ending;

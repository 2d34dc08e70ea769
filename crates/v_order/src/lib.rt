//! The drivers of a Verilog module as one list, and an order in which they settle soon.
#![tactic(auto)]

mod bits;
pub mod driver;
mod edges;
mod listing;
mod search;

pub use bits::{add_driven, add_read, all_driven};
pub use listing::drivers_of;
pub use search::order_of;

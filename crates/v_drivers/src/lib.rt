//! What drives the bits of a Verilog module, and whether two drivers drive one bit. For modules without instances.
#![tactic(auto)]

mod block;
pub mod laws;
mod link;
mod module;
mod table;

pub use module::{drivers_of, has_two_drivers};
pub use table::{add_masks, span_mask};

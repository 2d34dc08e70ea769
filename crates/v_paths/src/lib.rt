//! What combinational blocks assign on each path and read from outside, and what is refused of them: latches, and lists of events.
#![tactic(auto)]

mod event;
mod full;
mod item;
mod label;
mod latch;
pub mod laws;
pub mod mask;
mod path;

pub use event::{covers_reads, has_event_list};
pub use full::is_full;
pub use item::{has_bad_event_list, has_latch};
pub use latch::is_latched;

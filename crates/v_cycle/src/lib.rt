//! A design simulated cycle by cycle: what its names settle to, and its registers after each edge of the clock.
#![tactic(auto)]

mod chain;
mod changes;
mod copying;
mod cycle;
mod following;
mod setting;

pub use cycle::Cycle;
pub use wb_terms::NoMemory;

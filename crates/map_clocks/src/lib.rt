//! Expressions of maps that name a clock.
#![tactic(auto)]

mod named;

pub use named::names_clock;

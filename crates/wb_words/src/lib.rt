//! The words of a command, read by `clap`.
#![tactic(auto)]

mod application;
mod matches;
mod requests;
mod stop;
mod words;

pub use requests::{Check, Emit, Replay, Request, Simulate, SimulateBoth, SimulateRtl};
pub use stop::WordsStop;
pub use words::request;

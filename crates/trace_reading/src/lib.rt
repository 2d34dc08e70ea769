//! Trace files read against a design and its obligations: values for the registers and the inputs, or the first rule that refuses a file.
#![tactic(auto)]

mod data;
mod fault;
mod fitting;
mod given;
pub mod laws;
mod missing;
mod names;
mod numbers;
mod outcome;
mod reading;
mod refusal;
mod tables;

pub use outcome::{FileTrace, TraceRead};
pub use reading::read_trace;
pub use refusal::{TraceRefusal, TraceRule};
pub use wb_terms::NoMemory;

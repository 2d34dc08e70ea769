//! The outside world as two traits, a shelf of named files and a sink of bytes, with fakes in memory and adapters of the real ones.
#![tactic(auto)]

mod file_shelf;
mod memory_shelf;
mod memory_sink;
mod reading;
mod standard_sink;
mod streams;
mod writing;

pub use file_shelf::FileShelf;
pub use memory_shelf::MemShelf;
pub use memory_sink::MemSink;
pub use reading::{NoMemory, ReadStop, Shelf, read_all};
pub use standard_sink::StdSink;
pub use streams::{read_limited, write_whole};
pub use writing::{Sink, WriteStop};

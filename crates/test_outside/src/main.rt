//! The outside world by its fakes, its faults and its real files: what each read and each write gives, line by line.
#![tactic(auto)]

mod large;
mod outputs;
mod readers;
mod real;
mod shelves;
mod shown;
mod sinks;

use std::io;

fn main(rt: HostRuntime) -> io::Result<()> {
    let alloc = rt.alloc();
    shelves::reads(&rt, alloc)?;
    sinks::writes(&rt, alloc)?;
    readers::errors(&rt, alloc)?;
    outputs::writes(&rt)?;
    outputs::nothing(&rt)?;
    real::reads(&rt, alloc)?;
    large::all(&rt, alloc)
}

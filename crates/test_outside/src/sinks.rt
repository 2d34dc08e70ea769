//! A sink in memory with room for 10 bytes, write by write: the second, the fourth and the sixth are to fail.

use crate::shown::of_write;
use std::alloc::{AllocError, Global};
use std::io;
use wb_outside::{MemSink, Sink};

/// The numbers of writes that are to fail, and how many bytes each keeps.
const FAILING: [(u64, u64); 4] = [(2, 1), (2, 9), (4, 9), (6, 5)];

const PIECES: [&str; 7] = ["ab", "cd", "", "ef", "ghi", "jkl", "m"];

fn sink(alloc: Global) -> Result<MemSink, AllocError> {
    let failing = Vec::from_slice(alloc, &FAILING)?;
    match MemSink::new(alloc, 10, failing) {
        Ok(sink) => Ok(sink),
        Err(_) => Err(AllocError),
    }
}

/// Shows of each piece whether it is taken, what the sink holds, and how many faults there were.
pub fn writes(rt: &impl Print, alloc: Global) -> io::Result<()> {
    let mut sink = sink(alloc)?;
    for piece in PIECES.iter().copied() {
        let told = of_write(sink.write(piece.as_bytes()));
        rt.write_all(sink.bytes())?;
        println!(rt;
            " after {piece}, which was {told}: {} faults",
            sink.fault_count()
        )?;
    }
    Ok(())
}

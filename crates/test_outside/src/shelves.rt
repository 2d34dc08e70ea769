//! A shelf in memory, read by read: the third and the seventh are to fail.

use crate::shown::of_read;
use std::alloc::{AllocError, Global};
use std::io;
use wb_outside::{MemShelf, Shelf};

/// A file, an empty one, and one whose name is taken.
const FILES: [(&str, &[u8]); 3] = [("a", b"abcd"), ("empty", b""), ("a", b"hidden")];

/// Names and limits.
const READS: [(&str, u64); 8] = [
    ("a", 9),
    ("a", 2),
    ("a", 9),
    ("absent", 9),
    ("empty", 0),
    ("a", 3),
    ("a", 0),
    ("a", 0),
];

/// A shelf in memory with these files, whose reads with these numbers are to fail.
pub fn shelf_of(
    alloc: Global,
    files: &[(&str, &[u8])],
    failing: &[u64],
) -> Result<MemShelf, AllocError> {
    let mut all = Vec::new(alloc);
    for (name, bytes) in files {
        let bytes = Vec::from_slice(alloc, bytes)?;
        all.push((String::from_str(alloc, name)?, bytes))?;
    }
    match MemShelf::new(alloc, all, Vec::from_slice(alloc, failing)?) {
        Ok(shelf) => Ok(shelf),
        Err(_) => Err(AllocError),
    }
}

/// Shows each read, how many faults there were, and how many names were asked for, with the last.
pub fn reads(rt: &impl Print, alloc: Global) -> io::Result<()> {
    let mut shelf = shelf_of(alloc, &FILES, &[3, 7])?;
    for (name, limit) in READS.iter().copied() {
        let answer = shelf.read(alloc, name, limit);
        rt.write_all(of_read(&answer))?;
        let (faults, count) = (shelf.fault_count(), shelf.names().len());
        let last = shelf.names().last().map_or("", |last| last.as_str());
        println!(rt; " of {name} up to {limit}: {faults} faults, {count} names, the last {last}")?;
    }
    Ok(())
}

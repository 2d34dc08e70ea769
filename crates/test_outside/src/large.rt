//! Texts of 1 MiB and 1,000 names.

use crate::outputs::Narrow;
use crate::shelves::shelf_of;
use crate::shown::{of_stop, of_write};
use std::alloc::{AllocError, Global};
use std::io;
use std::rt::Files;
use wb_outside::{
    FileShelf, MemSink, ReadStop, Shelf, Sink, StdSink, read_all, read_limited, write_whole,
};

const MIB: usize = 1_048_576;

/// Shows how many bytes are read.
fn show(rt: &impl Print, what: &str, answer: &Result<Vec<u8>, ReadStop>) -> io::Result<()> {
    match answer {
        Ok(bytes) => println!(rt; "{what}: {} bytes", bytes.len()),
        Err(stop) => println!(rt; "{what}: {}", of_stop(*stop)),
    }
}

fn thousand_names(alloc: Global) -> Result<Vec<String>, AllocError> {
    let mut names = Vec::new(alloc);
    for _ in 0..1_000 {
        names.push(String::from_str(alloc, "small")?)?;
    }
    Ok(names)
}

/// A large file of a shelf in memory up to four limits, and 1,000 names.
fn of_shelf(rt: &impl Print, alloc: Global, large: &[u8]) -> io::Result<()> {
    let mut shelf = shelf_of(alloc, &[("small", b"s"), ("large", large)], &[])?;
    for limit in [u64::MAX, 1_048_576, 1_048_575, 9] {
        show(rt, "large file", &shelf.read(alloc, "large", limit))?;
    }
    let names = thousand_names(alloc)?;
    match read_all(&mut shelf, alloc, &names, 9) {
        Ok(contents) => println!(rt; "{} files", contents.len())?,
        Err(_) => println!(rt; "no files")?,
    }
    let (names, faults) = (shelf.names().len(), shelf.fault_count());
    println!(rt; "{names} names, {faults} faults")
}

/// A large text to a sink in memory.
fn to_sink(rt: &impl Print, alloc: Global, large: &[u8]) -> io::Result<()> {
    let Ok(mut sink) = MemSink::new(alloc, 1_048_576, Vec::new(alloc)) else {
        return println!(rt; "no sink");
    };
    let told = of_write(sink.write(large));
    let same = sink.bytes() == large;
    println!(rt; "large text to a sink: {told}, {same}")
}

/// A large text by a reader up to three limits.
fn of_reader(rt: &impl Print, alloc: Global, large: &[u8]) -> io::Result<()> {
    for limit in [u64::MAX, 1_048_575, 100_000] {
        let mut reader = large;
        show(rt, "large text", &read_limited(&mut reader, alloc, limit))?;
    }
    Ok(())
}

/// A large text to a writer, and to an output that takes two bytes at a time.
fn to_writers(rt: &impl Print, alloc: Global, large: &[u8]) -> io::Result<()> {
    let mut held = Vec::new(alloc);
    let told = of_write(write_whole(&mut held, large));
    let same = held.as_slice() == large;
    println!(rt; "large text to a writer: {told}, {same}")?;
    let narrow = Narrow;
    let told = of_write(StdSink::new(&narrow).write(large));
    println!(rt; "large text to a narrow output: {told}")
}

/// Shows all of these, and 1 MiB of a real file.
pub fn all<R: Files + Print>(rt: &R, alloc: Global) -> io::Result<()> {
    let large = vec![in alloc; b'z'; MIB]?;
    of_shelf(rt, alloc, &large)?;
    to_sink(rt, alloc, &large)?;
    of_reader(rt, alloc, &large)?;
    to_writers(rt, alloc, &large)?;
    let mut real = FileShelf::new(rt);
    show(rt, "real file", &real.read(alloc, "/dev/zero", 1_048_575))
}

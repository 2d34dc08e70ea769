//! Real files: one without bytes, one without end, and one that is not there.

use crate::shown::{of_read, of_stop};
use std::alloc::{AllocError, Global};
use std::io;
use std::rt::Files;
use wb_outside::{FileShelf, Shelf, read_all};

fn names(alloc: Global) -> Result<Vec<String>, AllocError> {
    let mut names = Vec::new(alloc);
    for name in ["/dev/null", "/dev/zero"] {
        names.push(String::from_str(alloc, name)?)?;
    }
    Ok(names)
}

/// Shows of two files how many bytes they give up to 3, and how many of these are 0.
fn show_files(rt: &impl Print, contents: &[Vec<u8>]) -> io::Result<()> {
    for bytes in contents {
        let zeros = bytes.iter().filter(|byte| **byte == 0).count();
        println!(rt; "{} bytes, {zeros} of them 0", bytes.len())?;
    }
    Ok(())
}

/// Shows what files give that are there, how many faults these were, and what a file gives that is not there.
pub fn reads<R: Files + Print>(rt: &R, alloc: Global) -> io::Result<()> {
    let mut shelf = FileShelf::new(rt);
    match read_all(&mut shelf, alloc, &names(alloc)?, 3) {
        Ok(contents) => show_files(rt, &contents)?,
        Err(stop) => println!(rt; "{}", of_stop(stop))?,
    }
    println!(rt; "{} faults", shelf.fault_count())?;
    let answer = shelf.read(alloc, "/dev/null/absent", 3);
    rt.write_all(of_read(&answer))?;
    println!(rt; ": {} faults", shelf.fault_count())
}

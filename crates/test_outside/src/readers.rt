//! A reader of one byte at a time, whose second read gives an error.

use crate::shown::of_read;
use std::alloc::Global;
use std::io;
use std::io::ErrorKind;
use wb_outside::read_limited;

#[derive(Drop)]
struct Halting<'a> {
    rest: &'a [u8],
    reads: u64,
    kind: ErrorKind,
}

impl io::Read for Halting<'_> {
    fn read(&mut self, buf: &mut [u8]) -> io::Result<usize> {
        self.reads = self.reads.saturating_add(1);
        if self.reads == 2 {
            return Err(io::Error::from(self.kind));
        }
        match self.rest {
            [first, rest @ ..] if !buf.is_empty() => {
                buf[0] = *first;
                self.rest = rest;
                Ok(1)
            }
            _ => Ok(0),
        }
    }
}

fn error(rt: &impl Print, alloc: Global, kind: ErrorKind, name: &str) -> io::Result<()> {
    let mut reader = Halting {
        rest: b"abcd",
        reads: 0,
        kind,
    };
    let answer = read_limited(&mut reader, alloc, 2);
    rt.write_all(of_read(&answer))?;
    println!(rt; " of a reader that is {name}")
}

/// Shows what is read up to 2 for errors of four kinds.
pub fn errors(rt: &impl Print, alloc: Global) -> io::Result<()> {
    error(rt, alloc, ErrorKind::Interrupted, "interrupted")?;
    error(rt, alloc, ErrorKind::OutOfMemory, "out of memory")?;
    error(rt, alloc, ErrorKind::BrokenPipe, "a broken pipe")?;
    error(rt, alloc, ErrorKind::TimedOut, "timed out")
}

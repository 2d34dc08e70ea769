//! An output that takes at most two bytes of each piece, nothing of one that begins with `x`, and is broken at one that begins with `y`.

use crate::shown::of_write;
use std::fmt::Display;
use std::io;
use wb_outside::{Sink, StdSink};

#[derive(Drop)]
pub struct Narrow;

impl Print for Narrow {
    fn print<D: Display + Drop>(&self, _value: D) -> io::Result<()> {
        Ok(())
    }

    fn println<D: Display + Drop>(&self, _value: D) -> io::Result<()> {
        Ok(())
    }

    fn write_all(&self, _bytes: &[u8]) -> io::Result<()> {
        Ok(())
    }

    fn write_some(&self, bytes: &[u8]) -> io::Result<usize> {
        match bytes {
            [b'x', ..] => Ok(0),
            [b'y', ..] => Err(io::Error::from(io::ErrorKind::BrokenPipe)),
            _ => Ok(bytes.len().min(2)),
        }
    }
}

const PIECES: [&str; 5] = ["abcde", "", "abx", "y", "x"];

/// Shows of each piece whether it is taken, and how many faults there were.
pub fn writes(rt: &impl Print) -> io::Result<()> {
    let narrow = Narrow;
    let mut sink = StdSink::new(&narrow);
    for piece in PIECES.iter().copied() {
        let told = of_write(sink.write(piece.as_bytes()));
        println!(rt;
            "{piece} to a narrow output was {told}: {} faults",
            sink.fault_count()
        )?;
    }
    Ok(())
}

/// Shows that standard output takes an empty piece.
pub fn nothing(rt: &impl Print) -> io::Result<()> {
    let mut sink = StdSink::new(rt);
    let told = of_write(sink.write(b""));
    println!(rt; "nothing to standard output was {told}")
}

//! The program: its words, the real files and standard output, and its exit status.
#![tactic(auto)]

use std::alloc::Global;
use std::env;
use std::io::{self, ErrorKind};
use std::process::ExitCode;
use wb_outside::{FileShelf, StdSink};
use wb_top::{Status, workbench};

fn main(rt: HostRuntime) -> ExitCode {
    match words_of(&rt) {
        Ok(words) => ended(&rt, &words),
        Err(error) if error.kind() == ErrorKind::OutOfMemory => {
            ExitCode::from(Status::NoMemory.number())
        }
        // A word that is not text is no word of a command.
        Err(_) => ended(&rt, &[]),
    }
}

/// Does what the words ask for, and gives the exit status.
fn ended(rt: &HostRuntime, words: &[String]) -> ExitCode {
    let mut shelf = FileShelf::new(rt);
    let mut out = StdSink::new(rt);
    let ended = workbench(rt.alloc(), words, &mut shelf, &mut out);
    ExitCode::from(ended.status.number())
}

/// The words that the program was called with, from its own name on.
fn words_of(rt: &HostRuntime) -> io::Result<Vec<String>> {
    let mut words = Vec::new(rt.alloc());
    for word in env::args(rt)? {
        words.push(word)?;
    }
    Ok(words)
}

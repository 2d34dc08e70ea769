//! Rows of models and their files, of their steps, and of scripts that are run on them. The rows are read from standard input; what
//! differs is printed, and how many there were.
#![tactic(auto)]

mod files;
mod models;
mod outline;
mod parts;
mod rows;
mod runs;
mod sheet;

use rows::told_of_rows;
use std::io;
use std::io::Read;

fn main(rt: HostRuntime) -> io::Result<()> {
    let mut text = String::new(rt.alloc());
    rt.stdin().read_to_string(&mut text)?;
    println!(rt; "{}", told_of_rows(rt.alloc(), &text)?)
}

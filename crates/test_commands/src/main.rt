//! Rows of commands: what the top call writes, and how it ends, on small files and changes of them. The rows are read from
//! standard input; what differs is printed, and how many there were.
#![tactic(auto)]

mod commands;
mod contents;
mod requests;
mod rows;
mod sheet;
mod spent;

use rows::told_of_rows;
use std::io;
use std::io::Read;

fn main(rt: HostRuntime) -> io::Result<()> {
    let mut text = String::new(rt.alloc());
    rt.stdin().read_to_string(&mut text)?;
    println!(rt; "{}", told_of_rows(rt.alloc(), &text)?)
}

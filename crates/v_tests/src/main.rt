//! Rows of texts of Verilog: their tokens, the trees that are read from them, and what is printed of these. The rows are read from standard
//! input; what differs is printed, and how many there were.
#![tactic(auto)]

mod files;
mod lexing;
mod printing;
mod reading;
mod rows;
mod sheet;
mod shown_expressions;
mod shown_statements;

use rows::told_of_rows;
use std::io;
use std::io::Read;

fn main(rt: HostRuntime) -> io::Result<()> {
    let mut text = String::new(rt.alloc());
    rt.stdin().read_to_string(&mut text)?;
    println!(rt; "{}", told_of_rows(rt.alloc(), &text)?)
}

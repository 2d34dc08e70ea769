//! Rows of operators on words, of terms and their values, of claims on them by formula and solver, and of formulas by themselves. The rows
//! are read from standard input; what differs is printed, and how many there were.
#![tactic(auto)]

mod claims;
mod deep;
mod expansions;
mod formulas;
mod gates;
mod logs;
mod operators;
mod rows;
mod sheet;
mod stores;
mod values;
mod words;

use rows::told_of_rows;
use std::io;
use std::io::Read;

fn main(rt: HostRuntime) -> io::Result<()> {
    let mut text = String::new(rt.alloc());
    rt.stdin().read_to_string(&mut text)?;
    println!(rt; "{}", told_of_rows(rt.alloc(), &text)?)
}

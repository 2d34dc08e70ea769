//! Rows of expressions of Verilog with their values, and of runs of statements. The rows are read from rows.txt; what differs is printed,
//! and how many there were.
#![tactic(auto)]

mod ladder;
mod objects;
mod runs;
mod table;
mod texts;
mod value;

use std::{fs, io};
use table::Table;

fn main(rt: HostRuntime) -> io::Result<()> {
    let alloc = rt.alloc();
    let text = fs::read_to_string(&rt, "rows.txt")?;
    let mut table = Table::new(alloc);
    for line in text.as_str().lines() {
        if let Some(told) = table.take(alloc, line)? {
            println!(rt; "{line}\n  {told}")?;
        }
    }
    println!(rt; "{} rows, {} differ", table.rows, table.differ)
}

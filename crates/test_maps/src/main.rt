//! Maps of emitted designs. Each line of standard input is a model file; what is printed for it is the text of its map, and a line with the
//! greatest bound and how deep its child programs nest.
#![tactic(auto)]

use emitted_maps::{greatest_bound, map_text, nesting_of};
use ila_json::read_model;
use std::alloc::{AllocError, Global};
use std::io;
use std::io::Read;

fn main(rt: HostRuntime) -> io::Result<()> {
    let mut text = String::new(rt.alloc());
    rt.stdin().read_to_string(&mut text)?;
    for line in text.lines() {
        println!(rt; "{}", told_of(rt.alloc(), line)?)?;
    }
    Ok(())
}

/// What is printed for a model file.
fn told_of(alloc: Global, file: &str) -> Result<String, AllocError> {
    let Ok(model) = read_model(alloc, file.as_bytes()) else {
        return String::from_str(alloc, "is no model");
    };
    let map = map_text(alloc, &model)?;
    let bound = greatest_bound(&model);
    let nesting = nesting_of(&model);
    format!(in alloc; "{map}\nbound {bound} nesting {nesting}")
}

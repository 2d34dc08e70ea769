//! A long store in which each term stands on the ones before it, several times: unfolded into a tree it would have more than 3^333333 leaves.

ghost use Rattle.std.specs.Prelude.{◌≡◌, ◌<◌, [], IfOk, length};

use crate::sheet::Sheet;
use crate::stores::small;
use std::alloc::Global;
use wb_terms::{Env, Node, PutStop, Scratch, TermId, Terms, eval};

/// The number 1 in 8 bits and then, so many times, one more by three terms: `(x + x) - (x - 1)`.
fn counter(alloc: Global, times: u32) -> Result<(Terms, TermId), PutStop>
    ensures names { IfOk result (λ c. c.0.names ≡ []) }
    ensures last { IfOk result (λ c. c.1.0 < length c.0.nodes) }
{
    let Ok(mut terms) = Terms::new(alloc) else {
        return Err(PutStop::NoMemory);
    };
    let one = terms.put(Node::Const(8, 1))?;
    let mut last = one;
    for _ in 0..times {
        let twice = terms.put(Node::Add(last, last))?;
        let less = terms.put(Node::Sub(last, one))?;
        last = terms.put(Node::Sub(twice, less))?;
    }
    Ok((terms, last))
}

/// Adds how many terms there are after so many times, and the value of the last.
pub fn add_counted(alloc: Global, times: &str, out: &mut Sheet) {
    let Ok((terms, last)) = counter(alloc, small(times)) else {
        return out.add("no memory");
    };
    let Ok(mut scratch) = Scratch::new(alloc, &terms) else {
        return out.add("no memory");
    };
    let env = Env {
        values: Vec::new(alloc),
    };
    out.add_number(alloc, u128::from(terms.len()));
    out.add(" terms, ");
    out.add_number(alloc, eval(&terms, &env, &mut scratch, last));
}

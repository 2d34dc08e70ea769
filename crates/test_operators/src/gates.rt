//! Gates that are built twice.

ghost use Rattle.std.specs.Prelude.{◌<◌, ℕ};
ghost use Rattle.gate_base.specs.Circuit.{IsBitBelow};

use crate::sheet::Sheet;
use gate_base::{Bit, Builder, Lit};
use std::alloc::Global;

/// The bit of an input.
fn input(var: u64) -> Bit
    ensures { (n : ℕ) → var < n → IsBitBelow n result }
{
    Bit::Literal(Lit {
        var,
        negative: false,
    })
}

/// Adds whether x and y, and y and x, have one gate, and how many variables a formula of it has.
pub fn add_gates(alloc: Global, out: &mut Sheet) {
    let mut circuit = Builder::new(alloc, 2);
    let (x, y) = (input(0), input(1));
    let (Ok(both), Ok(again)) = (circuit.and(x, y), circuit.and(y, x)) else {
        return out.add("no memory");
    };
    out.add(if again == both {
        "one gate, "
    } else {
        "two gates, "
    });
    match circuit.into_cnf(alloc, again) {
        Ok(cnf) => out.add_number(alloc, u128::from(cnf.vars())),
        Err(_) => out.add("no memory"),
    }
    out.add(" variables");
}

//! The operators on two words of one width that take more than one chain.

ghost use Rattle.std.specs.Prelude.{◌≡◌, length, IfOk};
ghost use Rattle.gate_base.specs.Circuit.{Grows};
ghost use Rattle.gate_words.specs.Binary.{AreKnown};
ghost use Rattle.gate_words.specs.Words.{applied, WritesWord};

use crate::lists::sign_of;
use crate::products::product;
use crate::shifts::{Direction, shifted};
use gate_base::{Bit, Builder, NoMemory};
use std::alloc::Global;

/// An operator on two words of one width w, which gives a word of that width.
#[derive(Clone, Copy, Debug)]
pub enum Operator {
    /// The product modulo 2^w.
    Mul,
    /// The first moved up by the second, with zeros below.
    Shl,
    /// The first moved down by the second, with zeros above.
    Lshr,
    /// The first moved down by the second, with copies of its top bit above.
    Ashr,
}

/// What an operator gives.
pub fn operated(
    alloc: Global,
    circuit: &mut Builder,
    operator: Operator,
    xs: &[Bit],
    ys: &[Bit],
) -> Result<Vec<Bit>, NoMemory>
    requires xs { AreKnown circuit.old xs.now }
    requires ys { AreKnown circuit.old ys.now }
    requires width { length xs.now ≡ length ys.now }
    ensures grows { Grows circuit.old circuit.new }
    ensures word { IfOk result (λ r. WritesWord circuit.new (applied operator) xs.now ys.now r.items) }
{
    let zero = Bit::Constant(false);
    match operator {
        Operator::Mul => product(alloc, circuit, xs, ys),
        Operator::Shl => {
            let word = shifted(alloc, circuit, Direction::Up, zero, xs, ys)?;
            Ok(word)
        }
        Operator::Lshr => {
            let word = shifted(alloc, circuit, Direction::Down, zero, xs, ys)?;
            Ok(word)
        }
        Operator::Ashr => {
            let word = shifted(alloc, circuit, Direction::Down, sign_of(xs), xs, ys)?;
            Ok(word)
        }
    }
}

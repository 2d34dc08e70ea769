//! Products of words.

ghost use Rattle.std.specs.Prelude.{◌≡◌, ◌≤◌, length, IfOk};
ghost use Rattle.wb_values.specs.Number.{word_mul};
ghost use Rattle.gate_base.specs.Circuit.{IsKnown, Grows};
ghost use Rattle.gate_words.specs.Binary.{AreKnown};
ghost use Rattle.gate_words.specs.Words.{WritesWord, IsWithRow};

use crate::chains::{Cell, chained};
use crate::lists::{moved_up, zeros};
use gate_base::{Bit, Builder, NoMemory};
use std::alloc::Global;

/// The product of two words of one width w, modulo 2^w: a sum of w rows of w bits, one for each bit of the second word.
pub fn product(
    alloc: Global,
    circuit: &mut Builder,
    xs: &[Bit],
    ys: &[Bit],
) -> Result<Vec<Bit>, NoMemory>
    requires xs { AreKnown circuit.old xs.now }
    requires ys { AreKnown circuit.old ys.now }
    requires width { length xs.now ≡ length ys.now }
    ensures grows { Grows circuit.old circuit.new }
    ensures product { IfOk result (λ r. WritesWord circuit.new word_mul xs.now ys.now r.items) }
{
    let mut sum = zeros(alloc, xs.len())?;
    for place in 0..ys.len() {
        sum = with_row(alloc, circuit, sum.as_slice(), xs, ys[place], place)?;
    }
    Ok(sum)
}

/// A sum of w bits with a row added: the word moved up by so many places where a bit is true, else 0.
fn with_row(
    alloc: Global,
    circuit: &mut Builder,
    sum: &[Bit],
    xs: &[Bit],
    chosen: Bit,
    place: usize,
) -> Result<Vec<Bit>, NoMemory>
    requires sum { AreKnown circuit.old sum.now }
    requires xs { AreKnown circuit.old xs.now }
    requires chosen { IsKnown circuit.old chosen }
    requires width { length sum.now ≡ length xs.now }
    requires place { place ≤ length xs.now }
    ensures grows { Grows circuit.old circuit.new }
    ensures row { IfOk result (λ r. IsWithRow circuit.new sum.now xs.now chosen place r.items) }
{
    let moved = moved_up(alloc, xs, place, Bit::Constant(false))?;
    let nothing = zeros(alloc, xs.len())?;
    let row = chained(
        alloc,
        circuit,
        Cell::Choose,
        chosen,
        moved.as_slice(),
        nothing.as_slice(),
    )?;
    let chain = chained(
        alloc,
        circuit,
        Cell::Sum,
        Bit::Constant(false),
        sum,
        row.bits.as_slice(),
    )?;
    Ok(chain.bits)
}

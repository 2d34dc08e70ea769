//! Comparisons in two's complement.

ghost use Rattle.std.specs.Prelude.{◌≡◌, length, IfOk};
ghost use Rattle.wb_values.specs.Number.{word_slt, word_sle};
ghost use Rattle.gate_base.specs.Circuit.{Grows, Gives};
ghost use Rattle.gate_words.specs.Binary.{AreKnown, number_under};
ghost use Rattle.gate_words.specs.Words.{IsFlipped};

use crate::chains::{Cell, chained};
use crate::lists::cut;
use gate_base::{Bit, Builder, NoMemory};
use std::alloc::Global;

/// Whether a word is below another of its width in two's complement.
pub fn signed_below(
    alloc: Global,
    circuit: &mut Builder,
    xs: &[Bit],
    ys: &[Bit],
) -> Result<Bit, NoMemory>
    requires xs { AreKnown circuit.old xs.now }
    requires ys { AreKnown circuit.old ys.now }
    requires width { length xs.now ≡ length ys.now }
    ensures grows { Grows circuit.old circuit.new }
    ensures below { IfOk result (λ b. Gives circuit.new b (λ w. word_slt (length xs.now) (number_under w xs.now) (number_under w ys.now))) }
{
    let first = flipped(alloc, xs)?;
    let second = flipped(alloc, ys)?;
    let chain = chained(
        alloc,
        circuit,
        Cell::Below,
        Bit::Constant(false),
        first.as_slice(),
        second.as_slice(),
    )?;
    Ok(chain.carry)
}

/// Whether a word is at most another of its width in two's complement.
pub fn signed_at_most(
    alloc: Global,
    circuit: &mut Builder,
    xs: &[Bit],
    ys: &[Bit],
) -> Result<Bit, NoMemory>
    requires xs { AreKnown circuit.old xs.now }
    requires ys { AreKnown circuit.old ys.now }
    requires width { length xs.now ≡ length ys.now }
    ensures grows { Grows circuit.old circuit.new }
    ensures at_most { IfOk result (λ b. Gives circuit.new b (λ w. word_sle (length xs.now) (number_under w xs.now) (number_under w ys.now))) }
{
    let above = signed_below(alloc, circuit, ys, xs)?;
    Ok(above.negated())
}

/// A word with its top bit negated: 2^(w - 1) added modulo 2^w.
fn flipped(alloc: Global, xs: &[Bit]) -> Result<Vec<Bit>, NoMemory>
    ensures { IfOk result (λ r. IsFlipped xs.now r.items) }
{
    if xs.is_empty() {
        return Ok(Vec::new(alloc));
    }
    let top = xs.len() - 1;
    let mut bits = cut(alloc, xs, 0, top)?;
    bits.push(xs[top].negated())?;
    Ok(bits)
}

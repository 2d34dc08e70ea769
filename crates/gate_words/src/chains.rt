//! Chains of cells along two words.

ghost use Rattle.std.specs.Prelude.{◌≡◌, length, IfOk};
ghost use Rattle.gate_base.specs.Circuit.{IsKnown, Grows};
ghost use Rattle.gate_words.specs.Binary.{AreKnown};
ghost use Rattle.gate_words.specs.Cells.{IsCell, IsChain};
ghost use Rattle.gate_words.specs.declared.chains.Cell.TheVariants.{Below, Difference, Same, Sum};

use gate_base::{Bit, Builder, NoMemory};
use std::alloc::Global;

/// What stands at each place of a chain along two words x and y.
#[derive(Clone, Copy, Debug)]
pub enum Cell {
    /// The complement of x.
    Not,
    /// x and y.
    And,
    /// x or y.
    Or,
    /// Exactly one of x and y.
    Xor,
    /// x where the carry is true, else y. All places have one carry.
    Choose,
    /// The sum of x, y and the carry, with the carry of the next place.
    Sum,
    /// The sum of x, the complement of y and the carry, with the carry of the next place.
    Difference,
    /// The carry says that all places so far are equal, if the first carry does.
    Same,
    /// The carry says that x is below y so far. Where they are equal, it is the first carry.
    Below,
}

/// What a cell gives.
#[derive(Clone, Copy)]
struct Step {
    bit: Bit,
    carry: Bit,
}

/// What a chain gives: a bit for each place, and the last carry.
#[derive(Drop)]
pub struct Chain {
    pub bits: Vec<Bit>,
    pub carry: Bit,
}

/// A chain of cells along two words of one width.
pub fn chained(
    alloc: Global,
    circuit: &mut Builder,
    cell: Cell,
    carry: Bit,
    xs: &[Bit],
    ys: &[Bit],
) -> Result<Chain, NoMemory>
    requires carry { IsKnown circuit.old carry }
    requires xs { AreKnown circuit.old xs.now }
    requires ys { AreKnown circuit.old ys.now }
    requires width { length xs.now ≡ length ys.now }
    ensures grows { Grows circuit.old circuit.new }
    ensures chain { IfOk result (λ r. IsChain circuit.new cell carry xs.now ys.now r.bits.items r.carry) }
{
    let mut bits = Vec::with_capacity(alloc, xs.len())?;
    let mut next = carry;
    for place in 0..xs.len() {
        let step = put_cell(circuit, cell, xs[place], ys[place], next)?;
        bits.push(step.bit)?;
        next = step.carry;
    }
    Ok(Chain { bits, carry: next })
}

/// One cell.
fn put_cell(circuit: &mut Builder, cell: Cell, x: Bit, y: Bit, carry: Bit) -> Result<Step, NoMemory>
    requires x { IsKnown circuit.old x }
    requires y { IsKnown circuit.old y }
    requires carry { IsKnown circuit.old carry }
    ensures grows { Grows circuit.old circuit.new }
    ensures cell { IfOk result (λ r. IsCell circuit.new cell x y carry r.bit r.carry) }
{
    match cell {
        Cell::Not => Ok(Step {
            bit: x.negated(),
            carry,
        }),
        Cell::And => Ok(Step {
            bit: circuit.and(x, y)?,
            carry,
        }),
        Cell::Or => Ok(Step {
            bit: circuit.or(x, y)?,
            carry,
        }),
        Cell::Xor => Ok(Step {
            bit: circuit.xor(x, y)?,
            carry,
        }),
        Cell::Choose => Ok(Step {
            bit: circuit.ite(carry, x, y)?,
            carry,
        }),
        Cell::Sum => sum(circuit, x, y, carry),
        Cell::Difference => difference(circuit, x, y, carry),
        Cell::Same => same(circuit, x, y, carry),
        Cell::Below => below(circuit, x, y, carry),
    }
}

fn sum(circuit: &mut Builder, x: Bit, y: Bit, carry: Bit) -> Result<Step, NoMemory>
    requires x { IsKnown circuit.old x }
    requires y { IsKnown circuit.old y }
    requires carry { IsKnown circuit.old carry }
    ensures grows { Grows circuit.old circuit.new }
    ensures cell { IfOk result (λ r. IsCell circuit.new Sum x y carry r.bit r.carry) }
{
    let half = circuit.xor(x, y)?;
    let bit = circuit.xor(half, carry)?;
    let next = circuit.ite(half, carry, x)?;
    Ok(Step { bit, carry: next })
}

fn difference(circuit: &mut Builder, x: Bit, y: Bit, carry: Bit) -> Result<Step, NoMemory>
    requires x { IsKnown circuit.old x }
    requires y { IsKnown circuit.old y }
    requires carry { IsKnown circuit.old carry }
    ensures grows { Grows circuit.old circuit.new }
    ensures cell { IfOk result (λ r. IsCell circuit.new Difference x y carry r.bit r.carry) }
{
    let other = y.negated();
    let step = sum(circuit, x, other, carry)?;
    Ok(step)
}

fn same(circuit: &mut Builder, x: Bit, y: Bit, carry: Bit) -> Result<Step, NoMemory>
    requires x { IsKnown circuit.old x }
    requires y { IsKnown circuit.old y }
    requires carry { IsKnown circuit.old carry }
    ensures grows { Grows circuit.old circuit.new }
    ensures cell { IfOk result (λ r. IsCell circuit.new Same x y carry r.bit r.carry) }
{
    let unequal = circuit.xor(x, y)?;
    let equal = unequal.negated();
    let next = circuit.and(carry, equal)?;
    Ok(Step {
        bit: Bit::Constant(false),
        carry: next,
    })
}

fn below(circuit: &mut Builder, x: Bit, y: Bit, carry: Bit) -> Result<Step, NoMemory>
    requires x { IsKnown circuit.old x }
    requires y { IsKnown circuit.old y }
    requires carry { IsKnown circuit.old carry }
    ensures grows { Grows circuit.old circuit.new }
    ensures cell { IfOk result (λ r. IsCell circuit.new Below x y carry r.bit r.carry) }
{
    let unequal = circuit.xor(x, y)?;
    let next = circuit.ite(unequal, y, carry)?;
    Ok(Step {
        bit: Bit::Constant(false),
        carry: next,
    })
}

//! Shifts of words by words, by stages over the bits of the amount.

ghost use Rattle.std.specs.Prelude.{◌≡◌, ◌≤◌, ◌^◌, length, IfOk, nat_lt};
ghost use Rattle.gate_base.specs.Circuit.{IsKnown, Grows, Gives};
ghost use Rattle.gate_words.specs.Binary.{AreKnown, number_under};
ghost use Rattle.gate_words.specs.Shifts.{IsShifted, IsStaged, IsStage, moved_bits};

use crate::chains::{Cell, chained};
use crate::lists::{extended, moved_down, moved_up, zeros};
use gate_base::{Bit, Builder, NoMemory};
use std::alloc::Global;

/// Which way the bits of a word move.
#[derive(Clone, Copy, Debug)]
pub enum Direction {
    /// To higher places.
    Up,
    /// To lower places.
    Down,
}

/// A word moved by as many places as another word of its width says, with copies of a bit in the places that become free.
/// The amount may be the width or more: then all is copies.
pub fn shifted(
    alloc: Global,
    circuit: &mut Builder,
    direction: Direction,
    fill: Bit,
    xs: &[Bit],
    ys: &[Bit],
) -> Result<Vec<Bit>, NoMemory>
    requires fill { IsKnown circuit.old fill }
    requires xs { AreKnown circuit.old xs.now }
    requires ys { AreKnown circuit.old ys.now }
    requires width { length xs.now ≡ length ys.now }
    ensures grows { Grows circuit.old circuit.new }
    ensures shifted { IfOk result (λ r. IsShifted circuit.new direction fill xs.now ys.now r.items) }
{
    let stages = stage_count(xs.len());
    let word = staged(alloc, circuit, direction, fill, xs, ys, stages)?;
    let far = is_positive(alloc, circuit, &ys[stages..])?;
    let gone = extended(alloc, &[], xs.len(), fill)?;
    let chain = chained(
        alloc,
        circuit,
        Cell::Choose,
        far,
        gone.as_slice(),
        word.as_slice(),
    )?;
    Ok(chain.bits)
}

/// How many bits of an amount shift a word of so many bits by less than all its bits.
fn stage_count(width: usize) -> usize
    ensures within { result ≤ width }
    ensures enough { width ≤ 2 ^ result }
    ensures small { result ≤ 64 }
{
    let count = (usize::BITS - width.saturating_sub(1).leading_zeros()) as usize;
    if count < width { count } else { width }
}

/// A word moved by as many places as the first bits of another say. Stage i moves it by 2^i.
fn staged(
    alloc: Global,
    circuit: &mut Builder,
    direction: Direction,
    fill: Bit,
    xs: &[Bit],
    ys: &[Bit],
    stages: usize,
) -> Result<Vec<Bit>, NoMemory>
    requires fill { IsKnown circuit.old fill }
    requires xs { AreKnown circuit.old xs.now }
    requires ys { AreKnown circuit.old ys.now }
    requires within { stages ≤ length ys.now }
    requires small { stages ≤ 64 }
    ensures grows { Grows circuit.old circuit.new }
    ensures staged { IfOk result (λ r. IsStaged circuit.new direction fill xs.now ys.now stages r.items) }
{
    let mut word = extended(alloc, xs, 0, fill)?;
    for place in 0..stages {
        word = stage(
            alloc,
            circuit,
            direction,
            fill,
            word.as_slice(),
            ys[place],
            1usize << place,
        )?;
    }
    Ok(word)
}

/// A word moved by a distance where a bit is true.
fn stage(
    alloc: Global,
    circuit: &mut Builder,
    direction: Direction,
    fill: Bit,
    word: &[Bit],
    chosen: Bit,
    distance: usize,
) -> Result<Vec<Bit>, NoMemory>
    requires fill { IsKnown circuit.old fill }
    requires word { AreKnown circuit.old word.now }
    requires chosen { IsKnown circuit.old chosen }
    ensures grows { Grows circuit.old circuit.new }
    ensures stage { IfOk result (λ r. IsStage circuit.new direction fill word.now chosen distance r.items) }
{
    let moved = moved(alloc, direction, word, distance, fill)?;
    let chain = chained(alloc, circuit, Cell::Choose, chosen, moved.as_slice(), word)?;
    Ok(chain.bits)
}

/// A word moved by a distance, which may be its width or more.
fn moved(
    alloc: Global,
    direction: Direction,
    word: &[Bit],
    distance: usize,
    fill: Bit,
) -> Result<Vec<Bit>, NoMemory>
    ensures { IfOk result (λ r. r.items ≡ moved_bits direction distance fill word.now) }
{
    let places = if distance < word.len() {
        distance
    } else {
        word.len()
    };
    match direction {
        Direction::Up => moved_up(alloc, word, places, fill),
        Direction::Down => moved_down(alloc, word, places, fill),
    }
}

/// Whether a word is above 0.
fn is_positive(alloc: Global, circuit: &mut Builder, xs: &[Bit]) -> Result<Bit, NoMemory>
    requires { AreKnown circuit.old xs.now }
    ensures grows { Grows circuit.old circuit.new }
    ensures bit { IfOk result (λ b. Gives circuit.new b (λ w. nat_lt 0 (number_under w xs.now))) }
{
    let zero = zeros(alloc, xs.len())?;
    let chain = chained(
        alloc,
        circuit,
        Cell::Below,
        Bit::Constant(false),
        zero.as_slice(),
        xs,
    )?;
    Ok(chain.carry)
}

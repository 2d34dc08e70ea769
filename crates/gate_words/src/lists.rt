//! Words that take no gate: constants, parts and joins.

ghost use Rattle.std.specs.Prelude.{◌≡◌, ◌+◌, ◌-◌, ◌^◌, ◌<◌, ◌≤◌, List, Bool, [], ◌∷◌, ◌++◌, length, take, drop, replicate, false, slice_index_or, IfOk, OnOk};
ghost use Rattle.gate_base.specs.Circuit.{Circuit, bit_value, IsKnown};
ghost use Rattle.gate_base.specs.declared.bits.Bit.TheVariants.{Constant};
ghost use Rattle.gate_words.specs.Binary.{values, number_under, AreKnown, literals_from};

use gate_base::{Bit, Lit, NoMemory};
use std::alloc::Global;

/// The bits of a number of so many bits.
pub fn constant(alloc: Global, width: u32, number: u128) -> Result<Vec<Bit>, NoMemory>
    requires { number < 2 ^ width }
    ensures known { IfOk result (λ bits. (c : Circuit) → AreKnown c bits.items) }
    ensures width { IfOk result (λ bits. length bits.items ≡ width) }
    ensures number { IfOk result (λ bits. (w : List Bool) → number_under w bits.items ≡ number) }
{
    let mut bits = Vec::with_capacity(alloc, width as usize)?;
    let mut rest = number;
    for place in 0..width {
        bits.push(Bit::Constant(rest % 2 == 1))?;
        rest /= 2;
    }
    Ok(bits)
}

/// The one bit.
pub fn single(alloc: Global, bit: Bit) -> Result<Vec<Bit>, NoMemory>
    ensures { IfOk result (λ bits. bits.items ≡ bit ∷ []) }
{
    let mut bits = Vec::new(alloc);
    bits.push(bit)?;
    Ok(bits)
}

/// Some bits of a word, from bit `low` up to below bit `end`.
pub fn cut(alloc: Global, xs: &[Bit], low: usize, end: usize) -> Result<Vec<Bit>, NoMemory>
    requires order { low ≤ end }
    requires within { end ≤ length xs.now }
    ensures { IfOk result (λ bits. bits.items ≡ take (end - low) (drop low xs.now)) }
{
    let mut bits = Vec::with_capacity(alloc, end - low)?;
    let part = &xs[low..end];
    append(&mut bits, part)?;
    Ok(bits)
}

/// The bits of one word with those of another above them.
pub fn joined(alloc: Global, low: &[Bit], high: &[Bit]) -> Result<Vec<Bit>, NoMemory>
    ensures { IfOk result (λ bits. bits.items ≡ low.now ++ high.now) }
{
    let mut bits = Vec::new(alloc);
    append(&mut bits, low)?;
    append(&mut bits, high)?;
    Ok(bits)
}

/// The bits of a word with so many copies of a bit above them.
pub fn extended(alloc: Global, xs: &[Bit], count: usize, fill: Bit) -> Result<Vec<Bit>, NoMemory>
    ensures { IfOk result (λ bits. bits.items ≡ xs.now ++ replicate count fill) }
{
    let mut bits = Vec::new(alloc);
    append(&mut bits, xs)?;
    append_copies(&mut bits, count, fill)?;
    Ok(bits)
}

/// The bits of a word moved up by so many places, with copies of a bit below.
pub(crate) fn moved_up(
    alloc: Global,
    xs: &[Bit],
    places: usize,
    fill: Bit,
) -> Result<Vec<Bit>, NoMemory>
    requires { places ≤ length xs.now }
    ensures { IfOk result (λ bits. bits.items ≡ replicate places fill ++ take (length xs.now - places) xs.now) }
{
    let mut bits = Vec::new(alloc);
    append_copies(&mut bits, places, fill)?;
    append(&mut bits, &xs[..xs.len() - places])?;
    Ok(bits)
}

/// The bits of a word moved down by so many places, with copies of a bit above.
pub(crate) fn moved_down(
    alloc: Global,
    xs: &[Bit],
    places: usize,
    fill: Bit,
) -> Result<Vec<Bit>, NoMemory>
    requires { places ≤ length xs.now }
    ensures { IfOk result (λ bits. bits.items ≡ drop places xs.now ++ replicate places fill) }
{
    let mut bits = Vec::new(alloc);
    append(&mut bits, &xs[places..])?;
    append_copies(&mut bits, places, fill)?;
    Ok(bits)
}

/// The positive literals of so many variables from one on.
pub fn literals(alloc: Global, first: u64, count: usize) -> Result<Vec<Bit>, NoMemory>
    requires { first + count < 2 ^ 64 }
    ensures { IfOk result (λ bits. bits.items ≡ literals_from first count) }
{
    let mut bits = Vec::with_capacity(alloc, count)?;
    let mut var = first;
    for place in 0..count {
        bits.push(Bit::Literal(Lit {
            var,
            negative: false,
        }))?;
        var += 1;
    }
    Ok(bits)
}

/// Adds bits behind others.
pub(crate) fn append(bits: &mut Vec<Bit>, more: &[Bit]) -> Result<(), NoMemory>
    ensures { OnOk result (bits.new.items ≡ bits.old.items ++ more.now) }
{
    for bit in more {
        bits.push(*bit)?;
    }
    Ok(())
}

/// Adds so many copies of a bit behind others.
pub(crate) fn append_copies(bits: &mut Vec<Bit>, count: usize, fill: Bit) -> Result<(), NoMemory>
    ensures { OnOk result (bits.new.items ≡ bits.old.items ++ replicate count fill) }
{
    for place in 0..count {
        bits.push(fill)?;
    }
    Ok(())
}

/// The top bit of a word: false where it has no bit.
pub fn sign_of(xs: &[Bit]) -> Bit
    ensures value { (w : List Bool) → bit_value w result ≡ slice_index_or (values w xs.now) (length xs.now - 1) false }
    ensures known { (c : Circuit) → AreKnown c xs.now → IsKnown c result }
{
    if xs.is_empty() {
        return Bit::Constant(false);
    }
    xs[xs.len() - 1]
}

/// A word of so many bits that is 0.
pub fn zeros(alloc: Global, count: usize) -> Result<Vec<Bit>, NoMemory>
    ensures { IfOk result (λ bits. bits.items ≡ replicate count (Constant false)) }
{
    let mut bits = Vec::new(alloc);
    append_copies(&mut bits, count, Bit::Constant(false))?;
    Ok(bits)
}

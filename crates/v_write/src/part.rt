//! Parts of targets, whose indexes have their terms.

use v_bits::{Operand, Wanted};
use v_value::select::Span;

/// Which bits of a name, or of a word of a memory, a part writes.
#[derive(Clone, Copy)]
pub enum PartBits {
    /// All of them.
    All,
    /// Bits at known places.
    Known(Span),
    /// So many bits of an object, by the term of an index.
    Moving(Wanted, Operand),
}

/// A part of a target: some bits of a name, or of the word of a memory with an index.
#[derive(Clone, Copy)]
pub struct Part<'s> {
    pub name: &'s str,
    pub address: Option<Operand>,
    pub bits: PartBits,
    pub count: u32,
}

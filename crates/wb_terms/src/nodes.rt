//! The forms of terms, over the ids of their operands.

/// A declared name, by its place in the order of declaration, from 0.
#[derive(Clone, Copy, Debug, PartialEq, Eq)]
pub struct NameId(pub usize);

/// A term of a store, by its place in the order in which terms were put, from 0.
#[derive(Clone, Copy, Debug, PartialEq, Eq)]
pub struct TermId(pub usize);

/// A term over the ids of its operands, which were put before it.
#[derive(Clone, Copy, Debug)]
pub enum Node {
    /// A declared name.
    Name(NameId),
    /// A constant truth value.
    Truth(bool),
    /// A constant word: its width, 1 to 128, and its number, below 2^width.
    Const(u32, u128),
    /// The complement of a truth value or a word.
    Not(TermId),
    /// The conjunction of two truth values, or of two words of one width bit by bit.
    And(TermId, TermId),
    /// The disjunction of two truth values, or of two words of one width bit by bit.
    Or(TermId, TermId),
    /// The exclusive or of two truth values, or of two words of one width bit by bit.
    Xor(TermId, TermId),
    /// A word negated modulo 2^width.
    Neg(TermId),
    /// The sum modulo 2^width of two words of one width.
    Add(TermId, TermId),
    /// The difference modulo 2^width of two words of one width.
    Sub(TermId, TermId),
    /// The product modulo 2^width of two words of one width.
    Mul(TermId, TermId),
    /// The first word shifted left by the second, of the same width and unsigned; filled with 0.
    Shl(TermId, TermId),
    /// The first word shifted right by the second, of the same width and unsigned; filled with 0.
    Lshr(TermId, TermId),
    /// The first word shifted right by the second, of the same width and unsigned; filled with its top bit.
    Ashr(TermId, TermId),
    /// Whether two truth values, or two words of one width, are equal.
    Eq(TermId, TermId),
    /// Whether the first of two words of one width is below the second, both unsigned.
    Ult(TermId, TermId),
    /// Whether the first of two words of one width is at most the second, both unsigned.
    Ule(TermId, TermId),
    /// Whether the first of two words of one width is below the second, both in two's complement.
    Slt(TermId, TermId),
    /// Whether the first of two words of one width is at most the second, both in two's complement.
    Sle(TermId, TermId),
    /// The bits of the first word above those of the second, at most 128 bits in all.
    Concat(TermId, TermId),
    /// The bits of a word from a high index down to a low one, both included and counted from 0 at the low end.
    Extract(u32, u32, TermId),
    /// A word widened to so many bits, at most 128, filled with 0.
    Zext(u32, TermId),
    /// A word widened to so many bits, at most 128, filled with its top bit.
    Sext(u32, TermId),
    /// The second term where the first, a truth value, is true, else the third, of the second's sort.
    Ite(TermId, TermId, TermId),
    /// The word of a memory at an address, a word of the address width.
    Load(TermId, TermId),
    /// A memory with the word at an address replaced.
    Store(TermId, TermId, TermId),
}

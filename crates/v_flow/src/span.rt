//! Sets of bits as lists of spans.

/// Some bits of a name: the same bits in each of some words. What is no memory has the word 0 alone.
#[derive(Clone, Copy)]
pub struct Span<'s> {
    pub name: &'s str,
    /// The first word.
    pub from_word: u64,
    /// The word behind the last.
    pub to_word: u64,
    /// The bits of each word, each by its place.
    pub bits: u128,
}

//! Which bits of a register count, and how its words are addressed.

/// How the words of a register are addressed, and which of their bits count.
#[derive(Drop)]
pub struct RegisterBits {
    /// The least address of a memory; what is no memory has none.
    pub least: Option<u64>,
    /// For each word, by ascending address, a number with the bits set that count. What is no memory has one word.
    pub masks: Vec<u128>,
}

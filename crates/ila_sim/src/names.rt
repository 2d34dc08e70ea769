//! What a script may set.

ghost use Rattle.std.specs.Prelude.{◌≤◌, ◌^◌};
ghost use Rattle.ila_sim.specs.Kinds.{width_of, end_of};

/// Which values fit, and which words there are.
#[derive(Clone, Copy, PartialEq, Eq, Debug)]
pub enum Kind {
    /// A truth value: 0 or 1.
    Truth,
    /// A word of so many bits.
    Word(u32),
    /// A memory: its least address, its number of words, and the bits of each.
    Memory(u64, u64, u32),
}

/// A name that a script may set.
#[derive(Drop)]
pub struct Settable {
    pub name: Vec<u8>,
    pub kind: Kind,
    /// For each word the bits that a value may have, as a number with these bits set; none where a value may have all bits of its kind.
    pub masks: Option<Vec<u128>>,
    pub ghost narrow: { width_of kind ≤ 128 },
    pub ghost near: { end_of kind ≤ 2 ^ 64 },
}

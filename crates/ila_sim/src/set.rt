//! A setting of a word to a value.

ghost use Rattle.std.specs.Prelude.{◌<◌, ◌^◌};

/// One word set to a value: of a name by its place in the list of its kind, and of a memory by the word's number from its least
/// address; another name has the word 0 alone.
#[derive(Clone, Copy, PartialEq, Eq, Debug)]
pub struct Set {
    pub place: usize,
    pub word: u64,
    pub value: u128,
    pub ghost small: { word < 2 ^ 64 },
}

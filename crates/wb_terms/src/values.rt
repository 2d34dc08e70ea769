//! The values of terms, and environments that give them to the declared names.

/// A value.
#[derive(Drop)]
pub enum Value {
    /// A truth value.
    Truth(bool),
    /// The unsigned number of a word.
    Number(u128),
    /// The words of a memory by ascending address.
    Words(Vec<u128>),
}

/// The values of a store's names, in the order in which they were declared.
#[derive(Drop)]
pub struct Env {
    pub values: Vec<Value>,
}

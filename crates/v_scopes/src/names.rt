//! The table by which names are found. Most are found by their hashes; a name whose hash another one has stands in a table of its own. So a
//! look-up compares numbers, and one name at its end.
use crate::row::Declared;
use std::collections::BTreeMap;

/// All that is declared of each name.
#[derive(Drop)]
pub(crate) struct Table<'s> {
    /// The first name of each hash.
    pub(crate) hashed: BTreeMap<u64, Declared<'s>>,
    /// The names whose hash another name has.
    pub(crate) others: BTreeMap<&'s str, Declared<'s>>,
}

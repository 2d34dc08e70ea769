//! A line of a script, and the names that its words may set.

use crate::index::Index;
use crate::set::Set;

/// The names that a script may set, found by tables.
#[derive(Drop)]
pub(crate) struct Found<'a> {
    pub(crate) states: Index<'a>,
    pub(crate) inputs: Index<'a>,
}

/// A line that is not skipped.
#[derive(Drop)]
pub(crate) enum Line {
    State(Vec<Set>),
    Input(Vec<Set>),
}

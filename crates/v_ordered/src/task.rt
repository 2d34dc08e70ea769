//! What is left to be told.

/// A name, or the names of the place with a number and of all that stands in it.
#[derive(Clone, Copy, PartialEq, Eq, Debug)]
pub(crate) enum Task<'n> {
    Name(&'n str),
    Place(usize),
}

//! Why no tree is read.

/// Why no tree is read.
#[derive(Clone, Copy, PartialEq, Eq, Debug)]
pub enum ParseStop {
    /// The tokens spell no source: how many of them were left at the first one that does not fit.
    Refused(usize),
    /// There was not enough memory.
    NoMemory,
}

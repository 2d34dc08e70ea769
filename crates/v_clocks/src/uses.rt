//! How clock nets stand in what is connected to a port.

/// What a connection does with the clock nets of the module around its instance.
#[derive(Clone, Copy)]
pub(crate) enum Use<'s> {
    /// It has none.
    NoClock,
    /// One stands in it, and not as the whole of what is connected to an input.
    AsData,
    /// It is the whole of one, at the input port of this name.
    AsClock(&'s str),
}

//! What stands in a module and may have registers.

/// A net or variable, or an instance, by its name.
#[derive(Clone, Copy, PartialEq, Eq, Debug)]
pub(crate) enum Member<'s> {
    Net(&'s str),
    Instance(&'s str),
}

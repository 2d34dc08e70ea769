//! What stands last in a text.

/// What stands last in a text, for what may follow it with no blank between.
#[derive(Clone, Copy, PartialEq, Eq, Debug)]
pub enum Last {
    /// Nothing, or a blank: anything may follow.
    Blank,
    /// A word or a based number: a bracket, `,`, `;` or `:` may follow.
    Run,
    /// A plain decimal: these or a quote may follow, before which it is a size.
    Digits,
    /// `(`: anything but `*` may follow, which would begin an attribute.
    Opened,
    /// A mark with which no longer mark begins: anything may follow.
    Stop,
    /// An operator that may stand before an operand: a word, a number, `(` or `{` may follow.
    Prefix,
    /// Another operator: a blank alone may follow.
    Operator,
}

//! What may be open in the text of tokens.

/// What may be open.
#[derive(Clone, Copy, PartialEq, Eq, Debug)]
pub(crate) enum Opening {
    /// `(`
    Parentheses,
    /// `[`
    Brackets,
    /// `{`
    Braces,
    /// `begin`
    Block,
    /// `case` or `casez`
    Case,
    /// `if`
    If,
    /// `?`
    Choice,
}

/// What a token means for nesting.
#[derive(Clone, Copy)]
pub(crate) enum Step {
    /// It opens one more.
    Opens(Opening),
    /// It closes the nearest.
    Closes(Opening),
    /// `;`
    EndsStatement,
    /// `:`
    Parts,
    /// Nothing.
    Stays,
}

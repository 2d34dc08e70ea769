//! What stands at the front of a text.

use v_token::token::TokenKind;

/// A piece of a text.
#[derive(Clone, Copy)]
pub(crate) enum Piece<'t> {
    /// Blanks, a comment, an attribute, the line of a directive that means nothing here.
    Nothing,
    /// A token and its text.
    Token(TokenKind, &'t str),
    /// What the subset leaves out.
    LeftOut,
    /// A directive that is written wrongly.
    Misdirected,
    /// A macro's name and its text.
    Define(&'t [u8], &'t [u8]),
    /// A macro's name.
    Undefine(&'t [u8]),
    /// Whether the name is to be defined, and the name.
    IfDefined(bool, &'t [u8]),
    /// A name that is to be defined.
    ElseIf(&'t [u8]),
    /// `else` of a conditional.
    Otherwise,
    /// The end of a conditional.
    EndIf,
    /// The use of a macro, by its name.
    Use(&'t [u8]),
}

//! Tokens of Verilog text.

/// An operator or a mark of the grammar.
#[derive(Clone, Copy, PartialEq, Eq, Debug)]
pub enum Mark {
    /// `(`
    LeftParenthesis,
    /// `)`
    RightParenthesis,
    /// `[`
    LeftBracket,
    /// `]`
    RightBracket,
    /// `{`
    LeftBrace,
    /// `}`
    RightBrace,
    /// `,`
    Comma,
    /// `;`
    Semicolon,
    /// `:`
    Colon,
    /// `.`
    Dot,
    /// `#`
    Hash,
    /// `@`
    At,
    /// `?`
    Question,
    /// `=`
    Equals,
    /// `+:`
    PlusColon,
    /// `-:`
    MinusColon,
    /// `+`
    Plus,
    /// `-`
    Minus,
    /// `*`
    Star,
    /// `**`
    DoubleStar,
    /// `/`
    Slash,
    /// `%`
    Percent,
    /// `!`
    Exclamation,
    /// `~`
    Tilde,
    /// `&`
    Ampersand,
    /// `~&`
    TildeAmpersand,
    /// `|`
    Bar,
    /// `~|`
    TildeBar,
    /// `^`
    Caret,
    /// `~^`
    TildeCaret,
    /// `^~`
    CaretTilde,
    /// `&&`
    DoubleAmpersand,
    /// `||`
    DoubleBar,
    /// `<`
    Less,
    /// `<=`
    LessEquals,
    /// `>`
    Greater,
    /// `>=`
    GreaterEquals,
    /// `<<`
    DoubleLess,
    /// `>>`
    DoubleGreater,
    /// `<<<`
    TripleLess,
    /// `>>>`
    TripleGreater,
    /// `==`
    DoubleEquals,
    /// `!=`
    ExclamationEquals,
    /// `===`
    TripleEquals,
    /// `!==`
    ExclamationDoubleEquals,
}

/// What a token is.
#[derive(Clone, Copy, PartialEq, Eq, Debug)]
pub enum TokenKind {
    /// An identifier or a word of the grammar.
    Word,
    /// `$signed` or `$unsigned`.
    System,
    /// A plain decimal: digits and `_`.
    Decimal,
    /// A based number without its size: from the quote on, with the blanks that stand between its base and its digits.
    Based,
    /// An operator or a mark.
    Mark(Mark),
}

/// A token of a file.
#[derive(Clone, Copy)]
pub struct Token<'s> {
    /// What it is.
    pub kind: TokenKind,
    /// Its text, a slice of its file.
    pub text: &'s str,
    /// The number of its file, from 0.
    pub file: u32,
    /// Where it begins in its file, in bytes.
    pub start: u32,
}

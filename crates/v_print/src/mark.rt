//! The text of operators and marks, and what may follow each.
ghost use Rattle.std.specs.Prelude.{◌≡◌};
ghost use Rattle.verilog_text.specs.Token.{spelling_of};
ghost use Rattle.v_token.specs.View.{mark_of};
ghost use Rattle.v_print.specs.Reads.{last_of_mark};

use crate::last::Last;
use v_token::token::Mark;

/// The text of an operator or a mark.
pub(crate) fn text_of(mark: Mark) -> &'static str
    ensures { result.now ≡ spelling_of (mark_of mark) }
{
    match mark {
        Mark::LeftParenthesis => "(",
        Mark::RightParenthesis => ")",
        Mark::LeftBracket => "[",
        Mark::RightBracket => "]",
        Mark::LeftBrace => "{",
        Mark::RightBrace => "}",
        Mark::Comma => ",",
        Mark::Semicolon => ";",
        Mark::Colon => ":",
        Mark::Dot => ".",
        Mark::Hash => "#",
        Mark::At => "@",
        Mark::Question => "?",
        Mark::Equals => "=",
        Mark::PlusColon => "+:",
        Mark::MinusColon => "-:",
        Mark::Plus => "+",
        Mark::Minus => "-",
        Mark::Star => "*",
        Mark::DoubleStar => "**",
        Mark::Slash => "/",
        Mark::Percent => "%",
        Mark::Exclamation => "!",
        Mark::Tilde => "~",
        Mark::Ampersand => "&",
        Mark::TildeAmpersand => "~&",
        Mark::Bar => "|",
        Mark::TildeBar => "~|",
        Mark::Caret => "^",
        Mark::TildeCaret => "~^",
        Mark::CaretTilde => "^~",
        Mark::DoubleAmpersand => "&&",
        Mark::DoubleBar => "||",
        Mark::Less => "<",
        Mark::LessEquals => "<=",
        Mark::Greater => ">",
        Mark::GreaterEquals => ">=",
        Mark::DoubleLess => "<<",
        Mark::DoubleGreater => ">>",
        Mark::TripleLess => "<<<",
        Mark::TripleGreater => ">>>",
        Mark::DoubleEquals => "==",
        Mark::ExclamationEquals => "!=",
        Mark::TripleEquals => "===",
        Mark::ExclamationDoubleEquals => "!==",
    }
}

/// What stands last behind it.
pub(crate) fn class_of(mark: Mark) -> Last
    ensures { result ≡ last_of_mark (mark_of mark) }
{
    match mark {
        Mark::LeftParenthesis => Last::Opened,
        Mark::RightParenthesis => Last::Stop,
        Mark::LeftBracket => Last::Stop,
        Mark::RightBracket => Last::Stop,
        Mark::LeftBrace => Last::Stop,
        Mark::RightBrace => Last::Stop,
        Mark::Comma => Last::Stop,
        Mark::Semicolon => Last::Stop,
        Mark::Colon => Last::Stop,
        Mark::Dot => Last::Stop,
        Mark::Hash => Last::Stop,
        Mark::At => Last::Stop,
        Mark::Question => Last::Stop,
        Mark::Plus => Last::Prefix,
        Mark::Minus => Last::Prefix,
        Mark::Exclamation => Last::Prefix,
        Mark::Tilde => Last::Prefix,
        Mark::Ampersand => Last::Prefix,
        Mark::TildeAmpersand => Last::Prefix,
        Mark::Bar => Last::Prefix,
        Mark::TildeBar => Last::Prefix,
        Mark::Caret => Last::Prefix,
        Mark::TildeCaret => Last::Prefix,
        _ => Last::Operator,
    }
}

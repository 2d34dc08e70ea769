//! The marks at the front of a text.

ghost use Rattle.std.specs.Prelude.{◌≡◌, ◌∷◌, [], true, ◌&&◌, option_map, IfSome};
ghost use Rattle.std.specs.Char.{is_ascii};
ghost use Rattle.verilog_text.specs.Token.{spelling_of};
ghost use Rattle.v_lex.specs.Marks.{mark_of_one, mark_of_two, mark_of_three};
ghost use Rattle.v_token.specs.View.{mark_of};

use v_token::token::Mark;

#[tactic(auto, unfolding(crate::specs::Marks::mark_of_one))]
pub(crate) fn single(byte: u8) -> Option<Mark>
    ensures mark { option_map mark_of result ≡ mark_of_one byte }
    ensures ascii { IfSome result (λ _. is_ascii byte ≡ true) }
    ensures text { IfSome result (λ m. spelling_of (mark_of m) ≡ byte ∷ []) }
{
    match byte {
        b'(' => Some(Mark::LeftParenthesis),
        b')' => Some(Mark::RightParenthesis),
        b'[' => Some(Mark::LeftBracket),
        b']' => Some(Mark::RightBracket),
        b'{' => Some(Mark::LeftBrace),
        b'}' => Some(Mark::RightBrace),
        b',' => Some(Mark::Comma),
        b';' => Some(Mark::Semicolon),
        b':' => Some(Mark::Colon),
        b'.' => Some(Mark::Dot),
        b'#' => Some(Mark::Hash),
        b'@' => Some(Mark::At),
        b'?' => Some(Mark::Question),
        b'=' => Some(Mark::Equals),
        b'+' => Some(Mark::Plus),
        b'-' => Some(Mark::Minus),
        b'*' => Some(Mark::Star),
        b'/' => Some(Mark::Slash),
        b'%' => Some(Mark::Percent),
        b'!' => Some(Mark::Exclamation),
        b'~' => Some(Mark::Tilde),
        b'&' => Some(Mark::Ampersand),
        b'|' => Some(Mark::Bar),
        b'^' => Some(Mark::Caret),
        b'<' => Some(Mark::Less),
        b'>' => Some(Mark::Greater),
        _ => None,
    }
}

#[tactic(auto, unfolding(crate::specs::Marks::mark_of_two))]
pub(crate) fn double(byte: u8, next: u8) -> Option<Mark>
    ensures mark { option_map mark_of result ≡ mark_of_two byte next }
    ensures ascii { IfSome result (λ _. (is_ascii byte && is_ascii next) ≡ true) }
    ensures text { IfSome result (λ m. spelling_of (mark_of m) ≡ byte ∷ next ∷ []) }
{
    match (byte, next) {
        (b'+', b':') => Some(Mark::PlusColon),
        (b'-', b':') => Some(Mark::MinusColon),
        (b'*', b'*') => Some(Mark::DoubleStar),
        (b'~', b'&') => Some(Mark::TildeAmpersand),
        (b'~', b'|') => Some(Mark::TildeBar),
        (b'~', b'^') => Some(Mark::TildeCaret),
        (b'^', b'~') => Some(Mark::CaretTilde),
        (b'&', b'&') => Some(Mark::DoubleAmpersand),
        (b'|', b'|') => Some(Mark::DoubleBar),
        (b'<', b'=') => Some(Mark::LessEquals),
        (b'>', b'=') => Some(Mark::GreaterEquals),
        (b'<', b'<') => Some(Mark::DoubleLess),
        (b'>', b'>') => Some(Mark::DoubleGreater),
        (b'=', b'=') => Some(Mark::DoubleEquals),
        (b'!', b'=') => Some(Mark::ExclamationEquals),
        _ => None,
    }
}

#[tactic(auto, unfolding(crate::specs::Marks::mark_of_three))]
pub(crate) fn triple(byte: u8, next: u8, third: u8) -> Option<Mark>
    ensures mark { option_map mark_of result ≡ mark_of_three byte next third }
    ensures ascii { IfSome result (λ _. (is_ascii byte && (is_ascii next && is_ascii third)) ≡ true) }
    ensures text { IfSome result (λ m. spelling_of (mark_of m) ≡ byte ∷ next ∷ third ∷ []) }
{
    match (byte, next, third) {
        (b'<', b'<', b'<') => Some(Mark::TripleLess),
        (b'>', b'>', b'>') => Some(Mark::TripleGreater),
        (b'=', b'=', b'=') => Some(Mark::TripleEquals),
        (b'!', b'=', b'=') => Some(Mark::ExclamationDoubleEquals),
        _ => None,
    }
}

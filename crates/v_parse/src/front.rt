//! Words and marks in front of tokens, and the lists that are read behind them.

ghost use Rattle.std.specs.Prelude.{◌≡◌, ◌∷◌, [], option_map, Some, IfOk};
ghost use Rattle.verilog_text.specs.Token.{comma};
ghost use Rattle.v_token.specs.View.{tokens_of};
ghost use Rattle.v_expr.specs.View.{Gives};
ghost use Rattle.v_body.specs.Words.{after_word};
ghost use Rattle.v_parse.specs.Lists.{flag_at, at_name, before_name};

use std::alloc::{AllocError, Global};
use v_body::word::behind_word;
use v_expr::ExpressionStop;
use v_expr::reader::behind_mark;
use v_token::token::{Mark, Token, TokenKind};
use wb_names::is_reserved_word;

/// What stands behind the word.
pub fn keyword<'s, 't>(
    tokens: &'t [Token<'s>],
    word: &str,
) -> Result<&'t [Token<'s>], ExpressionStop>
    ensures { Gives (λ r. tokens_of r.now) result (after_word word.now (tokens_of tokens.now)) }
{
    behind_word(tokens, word).ok_or(ExpressionStop::Refused(tokens.len()))
}

/// Whether the word stands in front, and what stands behind it.
#[tactic(auto, unfolding(crate::specs::Lists::flag_at))]
pub fn flag<'s, 't>(tokens: &'t [Token<'s>], word: &str) -> (bool, &'t [Token<'s>])
    ensures { flag_at word.now (tokens_of tokens.now) ≡ Some (result.0, tokens_of result.1.now) }
{
    match behind_word(tokens, word) {
        Some(rest) => (true, rest),
        None => (false, tokens),
    }
}

/// The tokens, if a name stands in front.
#[tactic(auto, unfolding(crate::specs::Lists::at_name, v_body::specs::Words::name_at))]
fn at_name<'s, 't>(tokens: &'t [Token<'s>]) -> Option<&'t [Token<'s>]>
    ensures { option_map (λ r. tokens_of r.now) result ≡ at_name (tokens_of tokens.now) }
{
    match tokens {
        [] => None,
        [token, ..] => match token.kind {
            TokenKind::Word => {
                if is_reserved_word(token.text.as_bytes()) {
                    None
                } else {
                    Some(tokens)
                }
            }
            TokenKind::System => None,
            TokenKind::Decimal => None,
            TokenKind::Based => None,
            TokenKind::Mark(_) => None,
        },
    }
}

/// What stands behind a comma, if it is a name.
#[tactic(auto, unfolding(crate::specs::Lists::before_name))]
pub fn behind_comma_at_name<'s, 't>(tokens: &'t [Token<'s>]) -> Option<&'t [Token<'s>]>
    ensures { option_map (λ r. tokens_of r.now) result ≡ before_name (tokens_of tokens.now) }
{
    match behind_mark(tokens, Mark::Comma) {
        Some(rest) => at_name(rest),
        None => None,
    }
}

/// A list of one element, with room for no more: most lists of a declaration have one.
pub fn begun_with<T: Drop>(alloc: Global, first: T) -> Result<Vec<T>, AllocError>
    ensures { IfOk result (λ list. list.items ≡ first ∷ []) }
{
    let mut list = Vec::with_capacity(alloc, 1)?;
    list.push(first)?;
    Ok(list)
}

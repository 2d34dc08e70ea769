//! The first token with which no source, or no expression, goes on.

ghost use Rattle.std.specs.Prelude.{◌≡◌, ◌∷◌, [], IfOk};
ghost use Rattle.v_token.specs.View.{tokens_of};
ghost use Rattle.v_place.specs.Table.{left_from};
ghost use Rattle.v_place.specs.Place.{IsSourceText, IsExpressionText, IsFirstWrong};
ghost use Rattle.v_place.specs.View.{symbol_of};

use crate::stack::enter;
use crate::step::take;
use crate::symbols::Symbol;
use std::alloc::{AllocError, Global};
use v_token::token::Token;

/// How many tokens are left at the first one that the table does not expect, where the symbol is expected at the start.
fn left_at_unexpected(
    alloc: Global,
    start: Symbol,
    tokens: &[Token<'_>],
) -> Result<usize, AllocError>
    ensures { IfOk result (λ left. left ≡ left_from (tokens_of tokens.now) (symbol_of start ∷ [])) }
{
    let mut expected = Vec::new(alloc);
    enter(&mut expected, start)?;
    for (place, token) in tokens.iter().enumerate() {
        if !take(&mut expected, *token)? {
            return Ok(tokens.len() - place);
        }
    }
    Ok(0)
}

/// How many tokens are left at the first one with which no source goes on: 0 where some source begins with all of them.
pub fn left_at_first_wrong(alloc: Global, tokens: &[Token<'_>]) -> Result<usize, AllocError>
    ensures { IfOk result (λ left. IsFirstWrong IsSourceText left (tokens_of tokens.now)) }
{
    let left = left_at_unexpected(alloc, Symbol::Modules, tokens)?;
    Ok(left)
}

/// The same of one expression, which all of the tokens are to spell.
pub fn left_at_first_wrong_in_expression(
    alloc: Global,
    tokens: &[Token<'_>],
) -> Result<usize, AllocError>
    ensures { IfOk result (λ left. IsFirstWrong IsExpressionText left (tokens_of tokens.now)) }
{
    let left = left_at_unexpected(alloc, Symbol::Whole, tokens)?;
    Ok(left)
}

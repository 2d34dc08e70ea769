//! From a place in the text to its token: the names of a tree are the identifiers among its tokens, in their order, and its numbers the
//! numbers.

use crate::piece::Found;
use v_token::token::{Token, TokenKind};
use wb_names::is_reserved_word;

/// The token of a place. A size and what follows it are one number.
pub(crate) fn token_of<'s>(tokens: &[Token<'s>], found: Found) -> Option<Token<'s>> {
    let mut modules: usize = 0;
    let mut passed: usize = 0;
    let mut is_size = false;
    for token in tokens {
        let begins = match token.kind {
            TokenKind::Word => {
                if token.text == "module" {
                    modules = modules.saturating_add(1);
                }
                !is_reserved_word(token.text.as_bytes())
            }
            TokenKind::Decimal => true,
            TokenKind::Based => !is_size,
            TokenKind::System | TokenKind::Mark(_) => false,
        };
        is_size = token.kind == TokenKind::Decimal;
        if begins && modules > found.module {
            if passed == found.token {
                return Some(*token);
            }
            passed = passed.saturating_add(1);
        }
    }
    None
}

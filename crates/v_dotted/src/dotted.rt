//! Expressions with dotted names, as maps have them: identifiers with dots between them are one name.

ghost use Rattle.std.specs.Prelude.{◌≡◌, ◌<◌, ◌≤◌, ◌∷◌, None, Some, List, length, option_map, IfOk, IfErr};
ghost use Rattle.std.specs.String.{string_bytes};
ghost use Rattle.verilog_text.specs.Token.{word, Token as PureToken};
ghost use Rattle.verilog_text.specs.Grammar.{dotted_from, with_dotted_names};
ghost use Rattle.v_token.specs.View.{token_of, tokens_of};
ghost use Rattle.v_syntax.specs.Tree.{tree_of};
ghost use Rattle.v_expr.specs.View.{Gives};
ghost use Rattle.v_expr.specs.Whole.{whole_at};
ghost use Rattle.v_expr.specs.Flat.{IsFlat};
ghost use Rattle.v_dotted.specs.Dotted.{identifier_at, further_name_at, owned_of, owned_tokens_of, IsOnly, IsPlace};
ghost use Rattle.v_expr.specs.declared.stop.ExpressionStop.TheVariants.{NoMemory};

use std::alloc::Global;
use v_expr::reader::{behind_mark, from_here};
use v_expr::{ExpressionStop, expression};
use v_place::left_at_first_wrong_in_expression;
use v_syntax::tree::Expression;
use v_token::token::{Mark, Token, TokenKind};
use wb_names::is_reserved_word;

/// A token whose text is its own.
#[derive(Drop)]
pub struct OwnedToken {
    /// What it is.
    pub kind: TokenKind,
    /// Its text.
    pub text: String,
    /// The number of the file in which it begins.
    pub file: u32,
    /// Where it begins in its file, in bytes.
    pub start: u32,
}

#[tactic(auto, unfolding(crate::specs::Dotted::identifier_at))]
fn identifier<'s, 't>(tokens: &'t [Token<'s>]) -> Option<(&'s str, &'t [Token<'s>])>
    ensures { option_map (λ x. (x.0.now, tokens_of x.1.now)) result ≡ identifier_at (tokens_of tokens.now) }
{
    let [token, rest @ ..] = tokens else {
        return None;
    };
    match token.kind {
        TokenKind::Word => {
            if is_reserved_word(token.text.as_bytes()) {
                None
            } else {
                Some((token.text, rest))
            }
        }
        TokenKind::System => None,
        TokenKind::Decimal => None,
        TokenKind::Based => None,
        TokenKind::Mark(_) => None,
    }
}

/// The identifier behind a dot in front.
#[tactic(auto, unfolding(crate::specs::Dotted::further_name_at))]
fn further_name<'s, 't>(tokens: &'t [Token<'s>]) -> Option<(&'s str, &'t [Token<'s>])>
    ensures { option_map (λ x. (x.0.now, tokens_of x.1.now)) result ≡ further_name_at (tokens_of tokens.now) }
{
    match behind_mark(tokens, Mark::Dot) {
        Some(rest) => identifier(rest),
        None => None,
    }
}

/// The name with the names behind it, each behind a dot.
fn dotted_name<'s, 't>(
    alloc: Global,
    first: &str,
    tokens: &'t [Token<'s>],
) -> Result<(String, &'t [Token<'s>]), ExpressionStop>
    ensures joined { IfOk result (λ x. dotted_from (Some first.now) (tokens_of tokens.now) ≡ word (string_bytes x.0) ∷ dotted_from None (tokens_of x.1.now)) }
    ensures shorter { IfOk result (λ x. length (tokens_of x.1.now) ≤ length (tokens_of tokens.now)) }
    ensures memory { IfErr result (λ e. e ≡ NoMemory) }
{
    let mut text = String::from_str(alloc, first)?;
    let mut rest = from_here(tokens)?;
    loop {
        match further_name(rest) {
            None => return Ok((text, rest)),
            Some((name, after)) => {
                text.push_str(".")?;
                text.push_str(name)?;
                rest = after;
            }
        }
    }
}

fn owned(alloc: Global, token: Token<'_>) -> Result<OwnedToken, ExpressionStop>
    ensures made { IfOk result (λ t. owned_of t ≡ token_of token.entry) }
    ensures memory { IfErr result (λ e. e ≡ NoMemory) }
{
    let text = String::from_str(alloc, token.text)?;
    Ok(OwnedToken {
        kind: token.kind,
        text,
        file: token.file,
        start: token.start,
    })
}

fn owned_word(token: Token<'_>, text: String) -> OwnedToken
    ensures { owned_of result ≡ word (string_bytes text) }
{
    OwnedToken {
        kind: TokenKind::Word,
        text,
        file: token.file,
        start: token.start,
    }
}

/// The first of some tokens, with the names behind it if it is one.
fn next_token<'s, 't>(
    alloc: Global,
    token: Token<'s>,
    tokens: &'t [Token<'s>],
    behind: &'t [Token<'s>],
) -> Result<(OwnedToken, &'t [Token<'s>]), ExpressionStop>
    requires { tokens_of tokens.now ≡ token_of token ∷ tokens_of behind.now }
    ensures joined { IfOk result (λ x. dotted_from None (tokens_of tokens.now) ≡ owned_of x.0 ∷ dotted_from None (tokens_of x.1.now)) }
    ensures shorter { IfOk result (λ x. length (tokens_of x.1.now) < length (tokens_of tokens.now)) }
    ensures memory { IfErr result (λ e. e ≡ NoMemory) }
{
    match identifier(tokens) {
        Some((first, after)) => {
            let (text, rest) = dotted_name(alloc, first, after)?;
            Ok((owned_word(token, text), rest))
        }
        None => {
            let next = owned(alloc, token)?;
            Ok((next, behind))
        }
    }
}

/// The tokens with identifiers that have dots between them as one name.
pub fn dotted_tokens(alloc: Global, tokens: &[Token<'_>]) -> Result<Vec<OwnedToken>, ExpressionStop>
    ensures joined { IfOk result (λ v. owned_tokens_of v.items ≡ with_dotted_names (tokens_of tokens.now)) }
    ensures memory { IfErr result (λ e. e ≡ NoMemory) }
{
    let mut list = Vec::new(alloc);
    let mut rest = from_here(tokens)?;
    loop {
        let [token, behind @ ..] = rest else {
            return Ok(list);
        };
        let (next, after) = next_token(alloc, *token, rest, behind)?;
        list.push(next)?;
        rest = after;
    }
}

fn borrowed(alloc: Global, owned: &[OwnedToken]) -> Result<Vec<Token<'_>>, ExpressionStop>
    ensures made { IfOk result (λ v. tokens_of v.items ≡ owned_tokens_of owned.now) }
    ensures memory { IfErr result (λ e. e ≡ NoMemory) }
{
    let mut tokens = Vec::new(alloc);
    for token in owned {
        tokens.push(Token {
            kind: token.kind,
            text: token.text.as_str(),
            file: token.file,
            start: token.start,
        })?;
    }
    Ok(tokens)
}

fn only<'s>(
    read: Result<(Expression<'s>, &[Token<'s>]), ExpressionStop>,
) -> Result<Expression<'s>, ExpressionStop>
    ensures read { (ts : List PureToken) → Gives (λ x. (tree_of x.0, tokens_of x.1.now)) read.entry (whole_at ts) → IsOnly result ts }
    ensures flat { IfOk read.entry (λ x. IsFlat x.0) → IfOk result (λ e. IsFlat e) }
{
    match read {
        Err(stop) => Err(stop),
        Ok((expression, [])) => Ok(expression),
        Ok((_, rest)) => Err(ExpressionStop::Refused(rest.len())),
    }
}

/// The expression that all of the tokens spell, of tokens that borrow their texts.
fn whole<'s>(alloc: Global, tokens: &[Token<'s>]) -> Result<Expression<'s>, ExpressionStop>
    ensures spelled { IsOnly result (tokens_of tokens.now) }
    ensures place { IsPlace result (tokens_of tokens.now) }
    ensures flat { IfOk result (λ e. IsFlat e) }
{
    match only(expression(alloc, tokens)) {
        Ok(expression) => Ok(expression),
        Err(ExpressionStop::NoMemory) => Err(ExpressionStop::NoMemory),
        Err(ExpressionStop::Refused(_)) => {
            let left = left_at_first_wrong_in_expression(alloc, tokens)?;
            Err(ExpressionStop::Refused(left))
        }
    }
}

/// The expression that all of the tokens spell. They are refused at the first token with which no expression goes on.
pub fn whole_expression(
    alloc: Global,
    tokens: &[OwnedToken],
) -> Result<Expression<'_>, ExpressionStop>
    ensures spelled { IsOnly result (owned_tokens_of tokens.now) }
    ensures place { IsPlace result (owned_tokens_of tokens.now) }
    ensures flat { IfOk result (λ e. IsFlat e) }
{
    let tokens = borrowed(alloc, tokens)?;
    whole(alloc, &tokens)
}

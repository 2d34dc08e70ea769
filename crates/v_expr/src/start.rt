//! What stands alone, by how it starts: a number, a name, brackets, braces or a conversion.

ghost use Rattle.std.specs.Prelude.{◌≡◌, ◌∷◌, IfOk, IfErr};
ghost use Rattle.verilog_text.specs.Token.{mark as a_mark};
ghost use Rattle.v_token.specs.View.{mark_of, tokens_of};
ghost use Rattle.v_syntax.specs.Tree.{tree_of};
ghost use Rattle.v_expr.specs.Reading.{Reader, number_expression_at, named_at, converted_at, conversion_at, alone_at};
ghost use Rattle.v_expr.specs.Starting.{converts, started};
ghost use Rattle.v_expr.specs.Flat.{IsFlat};
ghost use Rattle.v_expr.specs.declared.stop.ExpressionStop.TheVariants.{NoMemory};

use crate::number::number;
use crate::reader::behind_mark;
use crate::stop::ExpressionStop;
use std::alloc::Global;
use v_syntax::tree::{Expression, Number};
use v_token::token::{Mark, Token, TokenKind};
use wb_names::is_reserved_word;

/// What becomes of an expression in parentheses.
#[derive(Clone, Copy, PartialEq, Eq, Debug)]
pub enum Conversion {
    /// Nothing stands before them.
    Unchanged,
    /// `$signed`
    Signed,
    /// `$unsigned`
    Unsigned,
}

/// How what stands alone starts, and the tokens behind that.
#[derive(Clone, Copy)]
pub enum Start<'s, 't> {
    /// It is this number.
    Number(Number, &'t [Token<'s>]),
    /// A name, perhaps with selects behind it.
    Name(&'s str, &'t [Token<'s>]),
    /// An opening parenthesis.
    Inside(Conversion, &'t [Token<'s>]),
    /// An opening brace.
    Braces(&'t [Token<'s>]),
    /// Nothing stands alone: the tokens from the first that does not fit.
    Nothing(&'t [Token<'s>]),
}

#[tactic(auto, unfolding(crate::specs::Reading::number_expression_at))]
fn number_start<'s, 't>(tokens: &'t [Token<'s>]) -> Start<'s, 't>
    ensures { (whole_at : Reader) → number_expression_at (tokens_of tokens.now) ≡ started whole_at result }
{
    match number(tokens) {
        Some((number, rest)) => Start::Number(number, rest),
        None => Start::Nothing(tokens),
    }
}

#[tactic(auto, unfolding(crate::specs::Reading::named_at))]
fn name_start<'s, 't>(
    name: &'s str,
    tokens: &'t [Token<'s>],
    rest: &'t [Token<'s>],
) -> Start<'s, 't>
    ensures { (whole_at : Reader) → named_at whole_at name.now (tokens_of rest.now) ≡ started whole_at result }
{
    if is_reserved_word(name.as_bytes()) {
        Start::Nothing(tokens)
    } else {
        Start::Name(name, rest)
    }
}

#[tactic(auto, unfolding(crate::specs::Reading::converted_at, crate::specs::Reading::inside_at, crate::specs::Starting::closed_at))]
fn parenthesis_start<'s, 't>(conversion: Conversion, tokens: &'t [Token<'s>]) -> Start<'s, 't>
    ensures { (whole_at : Reader) → converted_at whole_at (converts conversion) (tokens_of tokens.now) ≡ started whole_at result }
{
    match behind_mark(tokens, Mark::LeftParenthesis) {
        Some(inside) => Start::Inside(conversion, inside),
        None => Start::Nothing(tokens),
    }
}

#[tactic(auto, unfolding(crate::specs::Reading::conversion_at))]
fn conversion_start<'s, 't>(
    name: &[u8],
    tokens: &'t [Token<'s>],
    rest: &'t [Token<'s>],
) -> Start<'s, 't>
    ensures { (whole_at : Reader) → conversion_at whole_at name.now (tokens_of rest.now) ≡ started whole_at result }
{
    if name == b"$signed".as_slice() {
        return parenthesis_start(Conversion::Signed, rest);
    }
    if name == b"$unsigned".as_slice() {
        return parenthesis_start(Conversion::Unsigned, rest);
    }
    Start::Nothing(tokens)
}

#[tactic(auto, unfolding(crate::specs::Reading::alone_at))]
fn mark_start<'s, 't>(mark: Mark, tokens: &'t [Token<'s>], rest: &'t [Token<'s>]) -> Start<'s, 't>
    ensures { (whole_at : Reader) → alone_at whole_at (a_mark (mark_of mark) ∷ tokens_of rest.now) ≡ started whole_at result }
{
    match mark {
        Mark::LeftParenthesis => Start::Inside(Conversion::Unchanged, rest),
        Mark::LeftBrace => Start::Braces(rest),
        _ => Start::Nothing(tokens),
    }
}

/// How what stands alone in front starts.
#[tactic(auto, unfolding(crate::specs::Reading::alone_at))]
pub fn start_of<'s, 't>(tokens: &'t [Token<'s>]) -> Start<'s, 't>
    ensures { (whole_at : Reader) → alone_at whole_at (tokens_of tokens.now) ≡ started whole_at result }
{
    let [token, rest @ ..] = tokens else {
        return Start::Nothing(tokens);
    };
    match token.kind {
        TokenKind::Word => name_start(token.text, tokens, rest),
        TokenKind::System => conversion_start(token.text.as_bytes(), tokens, rest),
        TokenKind::Decimal => number_start(tokens),
        TokenKind::Based => number_start(tokens),
        TokenKind::Mark(mark) => mark_start(mark, tokens, rest),
    }
}

/// The expression in parentheses as what stands before them makes it.
pub fn converted<'s>(
    alloc: Global,
    conversion: Conversion,
    expression: Expression<'s>,
) -> Result<Expression<'s>, ExpressionStop>
    ensures made { IfOk result (λ e. tree_of e ≡ converts conversion (tree_of expression.entry)) }
    ensures flat { IfOk result (λ e. IsFlat expression.entry → IsFlat e) }
    ensures memory { IfErr result (λ e. e ≡ NoMemory) }
{
    match conversion {
        Conversion::Unchanged => Ok(expression),
        Conversion::Signed => Ok(Expression::AsSigned(Box::new(alloc, expression)?)),
        Conversion::Unsigned => Ok(Expression::AsUnsigned(Box::new(alloc, expression)?)),
    }
}

//! The values of texts that are expressions. In a text `⟨COUNT PIECE⟩` stands for so many copies of the piece.

ghost use Rattle.v_value.specs.Scope.{scope_at};
ghost use Rattle.v_value.specs.Narrow.{HasNarrowObjects};

use crate::objects::Names;
use crate::texts::{copied, halves};
use std::alloc::{AllocError, Global};
use v_expr::expression;
use v_lex::tokens;
use v_narrow::{are_objects_narrow, is_narrow, values_fit};
use v_size::size;
use v_syntax::tree::Expression;
use v_token::token::Token;
use v_value::expression::{assigned_value, is_true, self_value, value_of};
use v_value::sign::sign_of;
use v_value::width::width_of;

/// What is asked of an expression.
#[derive(Clone, Copy)]
pub enum Ask {
    /// What its assignment gives a target of this width.
    Assigned(u32),
    /// Its width, and its value by itself.
    Whole,
    /// Its sign, its value widened by a bit, and whether it is true.
    Wider,
    /// Its width and its sign, or the kind of its refusal.
    Sized,
    /// Whether it has a width and a sign.
    IsSized,
}

/// The bytes of a text.
fn bytes_of(alloc: Global, text: &str) -> Result<Vec<u8>, AllocError> {
    let (before, rest) = halves(text, "⟨");
    let (copies, after) = halves(rest, "⟩");
    let (count, piece) = halves(copies, " ");
    let mut bytes = Vec::from_slice(alloc, before.as_bytes())?;
    copied(&mut bytes, count, piece)?;
    bytes.extend_from_slice(after.as_bytes())?;
    Ok(bytes)
}

/// What is asked of a text's expression, or why it cannot be told.
pub fn answered(
    names: &Names<'_>,
    alloc: Global,
    ask: Ask,
    text: &str,
) -> Result<String, AllocError> {
    let mut files = Vec::new(alloc);
    files.push(bytes_of(alloc, text)?)?;
    match tokens(alloc, &files) {
        Ok(tokens) => of_tokens(names, alloc, ask, &tokens),
        Err(_) => String::from_str(alloc, "has no tokens"),
    }
}

fn of_tokens(
    names: &Names<'_>,
    alloc: Global,
    ask: Ask,
    tokens: &[Token<'_>],
) -> Result<String, AllocError> {
    match expression(alloc, tokens) {
        Ok((expression, [])) => of_expression(&expression, names, alloc, ask),
        _ => String::from_str(alloc, "is no expression"),
    }
}

fn of_expression(
    expression: &Expression<'_>,
    names: &Names<'_>,
    alloc: Global,
    ask: Ask,
) -> Result<String, AllocError> {
    if !are_objects_narrow(&names.scope) {
        return String::from_str(alloc, "has wide objects");
    }
    match ask {
        Ask::Assigned(width) => assigned(expression, names, alloc, width),
        Ask::Whole => whole(expression, names, alloc),
        Ask::Wider => wider(expression, names, alloc),
        Ask::Sized => sized(expression, names, alloc),
        Ask::IsSized => String::from_str(alloc, is_sized(expression, names)),
    }
}

/// What an assignment of the expression gives a target of this width, where all is narrow and fits.
fn assigned(
    expression: &Expression<'_>,
    names: &Names<'_>,
    alloc: Global,
    width: u32,
) -> Result<String, AllocError>
    requires { HasNarrowObjects (scope_at names.now.scope) }
{
    if width < 1 || width > 128 {
        return String::from_str(alloc, "is no row");
    }
    if !values_fit(&names.scope, &names.values) || !is_narrow(expression, &names.scope) {
        return String::from_str(alloc, "has wide values");
    }
    let number = assigned_value(expression, &names.scope, &names.values, width);
    format!(in alloc; "{number}")
}

/// The width of the expression, and its value by itself.
fn whole(
    expression: &Expression<'_>,
    names: &Names<'_>,
    alloc: Global,
) -> Result<String, AllocError>
    requires { HasNarrowObjects (scope_at names.now.scope) }
{
    if !values_fit(&names.scope, &names.values) || !is_narrow(expression, &names.scope) {
        return String::from_str(alloc, "has wide values");
    }
    let width = width_of(expression, &names.scope);
    let value = self_value(expression, &names.scope, &names.values);
    format!(in alloc; "{width} bits {value}")
}

/// One of two words.
fn said(truth: bool, yes: &'static str, no: &'static str) -> &'static str {
    if truth { yes } else { no }
}

/// The sign of the expression, its value widened by a bit, and whether it is true.
fn wider(
    expression: &Expression<'_>,
    names: &Names<'_>,
    alloc: Global,
) -> Result<String, AllocError>
    requires { HasNarrowObjects (scope_at names.now.scope) }
{
    if !values_fit(&names.scope, &names.values) || !is_narrow(expression, &names.scope) {
        return String::from_str(alloc, "has wide values");
    }
    let width = width_of(expression, &names.scope);
    if width >= 128 {
        return String::from_str(alloc, "is no row");
    }
    let signed = sign_of(expression, &names.scope);
    let number = value_of(expression, &names.scope, &names.values, width + 1, signed);
    let truth = is_true(expression, &names.scope, &names.values);
    let (sign, truth) = (
        said(signed, "signed", "unsigned"),
        said(truth, "true", "false"),
    );
    format!(in alloc; "{sign}, {number} {truth}")
}

/// The width and the sign of the expression, or the kind of its refusal.
fn sized(
    expression: &Expression<'_>,
    names: &Names<'_>,
    alloc: Global,
) -> Result<String, AllocError>
    requires { HasNarrowObjects (scope_at names.now.scope) }
{
    match size(expression, &names.scope) {
        Ok((width, true)) => format!(in alloc; "{width} bits signed"),
        Ok((width, false)) => format!(in alloc; "{width} bits unsigned"),
        Err(refusal) => format!(in alloc; "{:?}", refusal.kind),
    }
}

/// Whether the expression has a width and a sign.
fn is_sized(expression: &Expression<'_>, names: &Names<'_>) -> &'static str
    requires { HasNarrowObjects (scope_at names.now.scope) }
{
    match size(expression, &names.scope) {
        Ok(_) => "yes",
        Err(_) => "no",
    }
}

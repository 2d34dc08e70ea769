//! How deep the constructs of the tokens are nested.

ghost use Rattle.std.specs.Prelude.{◌≡◌, ◌∷◌, ℕ, [], IfOk, is_some, option_map};
ghost use Rattle.std.specs.List.{list_any};
ghost use Rattle.verilog_text.specs.Text.{is_same_opening, or_all, behind_nearest, without_statements, without_choice, step_of_mark, step_of_word, step_of, open_behind, is_too_deep};
ghost use Rattle.v_token.specs.View.{mark_of, token_of, tokens_of};
ghost use Rattle.v_lex.specs.Reading.{first_in, without_first};
ghost use Rattle.v_lex.specs.Nesting.{opening_of, openings_of, step_view};

use crate::opening::{Opening, Step};
use crate::place::Place;
use std::alloc::{AllocError, Global};
use v_token::token::{Mark, Token, TokenKind};

/// The most constructs that may be open.
const MOST_OPEN: usize = 200;

fn is_same(one: Opening, other: Opening) -> bool
    ensures { result ≡ is_same_opening (opening_of one) (opening_of other) }
{
    one == other
}

fn innermost(stack: &[Opening]) -> Option<Opening>
    ensures { option_map opening_of result ≡ first_in (openings_of stack.now) }
{
    match stack.last() {
        Some(opening) => Some(*opening),
        None => None,
    }
}

fn enter(stack: &mut Vec<Opening>, opening: Opening) -> Result<(), AllocError>
    ensures { IfOk result (λ _. openings_of stack.new.items ≡ opening_of opening ∷ openings_of stack.old.items) }
{
    stack.push(opening)?;
    Ok(())
}

fn leave(stack: &mut Vec<Opening>)
    ensures { openings_of stack.new.items ≡ without_first (openings_of stack.old.items) }
{
    stack.pop();
}

fn step_of_mark(mark: Mark) -> Step
    ensures { step_view result ≡ step_of_mark (mark_of mark) }
{
    match mark {
        Mark::LeftParenthesis => Step::Opens(Opening::Parentheses),
        Mark::LeftBracket => Step::Opens(Opening::Brackets),
        Mark::LeftBrace => Step::Opens(Opening::Braces),
        Mark::Question => Step::Opens(Opening::Choice),
        Mark::RightParenthesis => Step::Closes(Opening::Parentheses),
        Mark::RightBracket => Step::Closes(Opening::Brackets),
        Mark::RightBrace => Step::Closes(Opening::Braces),
        Mark::Semicolon => Step::EndsStatement,
        Mark::Colon => Step::Parts,
        _ => Step::Stays,
    }
}

#[tactic(auto, unfolding(verilog_text::specs::Text::step_of_word))]
fn step_of_word(word: &[u8]) -> Step
    ensures { step_view result ≡ step_of_word word.now }
{
    if word == b"begin".as_slice() {
        return Step::Opens(Opening::Block);
    }
    if word == b"case".as_slice() || word == b"casez".as_slice() {
        return Step::Opens(Opening::Case);
    }
    if word == b"if".as_slice() {
        return Step::Opens(Opening::If);
    }
    if word == b"end".as_slice() {
        return Step::Closes(Opening::Block);
    }
    if word == b"endcase".as_slice() {
        return Step::Closes(Opening::Case);
    }
    Step::Stays
}

fn step_of(token: Token<'_>) -> Step
    ensures { step_view result ≡ step_of (token_of token.entry) }
{
    match token.kind {
        TokenKind::Word => step_of_word(token.text.as_bytes()),
        TokenKind::Mark(mark) => step_of_mark(mark),
        _ => Step::Stays,
    }
}

fn has_such(stack: &[Opening], opening: Opening) -> bool
    ensures { result ≡ list_any (λ other. is_same_opening (opening_of opening) (opening_of other)) stack.now }
{
    stack.iter().any(|other| is_same(opening, *other))
}

fn is_open(stack: &[Opening], opening: Opening) -> bool
    ensures { result ≡ is_some (behind_nearest (opening_of opening) (openings_of stack.now)) }
{
    has_such(stack, opening)
}

/// Removes all down to the nearest such one, which is open.
fn close_open(stack: &mut Vec<Opening>, opening: Opening)
    ensures { or_all [] (behind_nearest (opening_of opening) (openings_of stack.old.items)) ≡ openings_of stack.new.items }
{
    while let Some(top) = innermost(stack) {
        leave(stack);
        if is_same(opening, top) {
            return;
        }
    }
}

/// Removes all down to the nearest such one, where one is open.
fn close(stack: &mut Vec<Opening>, opening: Opening)
    ensures { openings_of stack.new.items ≡ or_all (openings_of stack.old.items) (behind_nearest (opening_of opening) (openings_of stack.old.items)) }
{
    if is_open(stack, opening) {
        close_open(stack, opening);
    }
}

/// Removes each `if` and each `?` on top.
fn end_statement(stack: &mut Vec<Opening>)
    ensures { openings_of stack.new.items ≡ without_statements (openings_of stack.old.items) }
{
    while let Some(top) = innermost(stack) {
        if !is_same(top, Opening::If) && !is_same(top, Opening::Choice) {
            return;
        }
        leave(stack);
    }
}

/// Removes a `?` on top.
fn end_choice(stack: &mut Vec<Opening>)
    ensures { openings_of stack.new.items ≡ without_choice (openings_of stack.old.items) }
{
    if let Some(top) = innermost(stack) {
        if is_same(top, Opening::Choice) {
            leave(stack);
        }
    }
}

#[tactic(auto, unfolding(verilog_text::specs::Text::open_behind))]
fn take(stack: &mut Vec<Opening>, step: Step) -> Result<(), AllocError>
    ensures { IfOk result (λ _. openings_of stack.new.items ≡ open_behind (step_view step) (openings_of stack.old.items)) }
{
    match step {
        Step::Opens(opening) => enter(stack, opening),
        Step::Closes(opening) => {
            close(stack, opening);
            Ok(())
        }
        Step::EndsStatement => {
            end_statement(stack);
            Ok(())
        }
        Step::Parts => {
            end_choice(stack);
            Ok(())
        }
        Step::Stays => Ok(()),
    }
}

/// Where more than 200 constructs are open for the first time.
#[tactic(auto, unfolding(verilog_text::specs::Text::is_too_deep))]
pub(crate) fn too_deep(alloc: Global, tokens: &[Token]) -> Result<Option<Place>, AllocError>
    ensures { IfOk result (λ p. is_some p ≡ is_too_deep [] (tokens_of tokens.now)) }
{
    let mut stack = Vec::new(alloc);
    for token in tokens {
        take(&mut stack, step_of(*token))?;
        if stack.len() > MOST_OPEN {
            return Ok(Some(Place {
                file: token.file,
                start: token.start,
            }));
        }
    }
    Ok(None)
}

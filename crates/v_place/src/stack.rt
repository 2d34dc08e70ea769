//! What is expected, as a stack: what is expected first is on top.

ghost use Rattle.std.specs.Prelude.{◌≡◌, ◌∷◌, ◌++◌, IfOk, option_map};
ghost use Rattle.v_place.specs.View.{symbol_of, symbols_of, expected_of, after_of, first_in, without_first};

use crate::symbols::{After, Symbol};
use std::alloc::AllocError;

/// What is expected first.
pub fn top(stack: &[Symbol]) -> Option<Symbol>
    ensures { option_map symbol_of result ≡ first_in (expected_of stack.now) }
{
    match stack.last() {
        Some(symbol) => Some(*symbol),
        None => None,
    }
}

/// Takes off what is expected first.
pub fn leave(stack: &mut Vec<Symbol>)
    ensures { expected_of stack.new.items ≡ without_first (expected_of stack.old.items) }
{
    stack.pop();
}

/// Expects the symbol before all that is expected.
pub fn enter(stack: &mut Vec<Symbol>, symbol: Symbol) -> Result<(), AllocError>
    ensures { IfOk result (λ _. expected_of stack.new.items ≡ symbol_of symbol ∷ expected_of stack.old.items) }
{
    stack.push(symbol)?;
    Ok(())
}

/// Expects the symbols, in their order, before all that is expected.
fn enter_all(stack: &mut Vec<Symbol>, symbols: &[Symbol]) -> Result<(), AllocError>
    ensures { IfOk result (λ _. expected_of stack.new.items ≡ symbols_of symbols.now ++ expected_of stack.old.items) }
{
    for place in (0..symbols.len()).rev() {
        enter(stack, symbols[place])?;
    }
    Ok(())
}

/// Expects what comes after a token before all that is expected.
pub fn enter_after(stack: &mut Vec<Symbol>, after: After) -> Result<(), AllocError>
    ensures { IfOk result (λ _. expected_of stack.new.items ≡ after_of after.entry ++ expected_of stack.old.items) }
{
    enter_all(stack, after.1)?;
    enter_all(stack, after.0)?;
    Ok(())
}

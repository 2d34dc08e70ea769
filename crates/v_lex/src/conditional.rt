//! The open conditionals.

ghost use Rattle.std.specs.Prelude.{◌≡◌, ◌∷◌, IfOk, option_map, not};
ghost use Rattle.verilog_text.specs.Text.{is_taken, leaves_out, first_branch, next_branch, is_defined};
ghost use Rattle.v_lex.specs.Reading.{branch_of, conditional_of, conditionals_of, first_in, without_first};
ghost use Rattle.v_lex.specs.Faults.{openers_of};

use crate::state::{Branch, Conditional};
use std::alloc::AllocError;

/// The innermost conditional.
pub(crate) fn innermost(stack: &[Conditional]) -> Option<Conditional>
    ensures conditional { option_map conditional_of result ≡ first_in (conditionals_of stack.now) }
    ensures opener { option_map (λ c. c.opener) result ≡ first_in (openers_of stack.now) }
{
    match stack.last() {
        Some(conditional) => Some(*conditional),
        None => None,
    }
}

pub(crate) fn enter(
    stack: &mut Vec<Conditional>,
    conditional: Conditional,
) -> Result<(), AllocError>
    ensures conditionals { IfOk result (λ _. conditionals_of stack.new.items ≡ conditional_of conditional ∷ conditionals_of stack.old.items) }
    ensures openers { IfOk result (λ _. openers_of stack.new.items ≡ conditional.opener ∷ openers_of stack.old.items) }
{
    stack.push(conditional)?;
    Ok(())
}

pub(crate) fn leave(stack: &mut Vec<Conditional>)
    ensures conditionals { conditionals_of stack.new.items ≡ without_first (conditionals_of stack.old.items) }
    ensures openers { openers_of stack.new.items ≡ without_first (openers_of stack.old.items) }
{
    stack.pop();
}

fn is_taken(branch: Branch) -> bool
    ensures { result ≡ is_taken (branch_of branch) }
{
    match branch {
        Branch::Taken => true,
        _ => false,
    }
}

/// Whether the text here is left out.
pub(crate) fn leaves_out(stack: &[Conditional]) -> bool
    ensures { result ≡ leaves_out (conditionals_of stack.now) }
{
    match innermost(stack) {
        Some(conditional) => !is_taken(conditional.branch),
        None => false,
    }
}

pub(crate) fn first_branch(is_left_out: bool, holds: bool) -> Branch
    ensures { branch_of result ≡ first_branch is_left_out holds }
{
    if is_left_out {
        return Branch::Passed;
    }
    if holds {
        Branch::Taken
    } else {
        Branch::Waiting
    }
}

pub(crate) fn next_branch(branch: Branch, holds: bool) -> Branch
    ensures { branch_of result ≡ next_branch (branch_of branch) holds }
{
    match branch {
        Branch::Waiting => {
            if holds {
                Branch::Taken
            } else {
                Branch::Waiting
            }
        }
        _ => Branch::Passed,
    }
}

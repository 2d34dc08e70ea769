//! The copies as other crates make them.
ghost use Rattle.std.specs.Prelude.{◌≡◌, IfOk, option_map};
ghost use Rattle.verilog_meaning.specs.Settled.{as_target};
ghost use Rattle.verilog_renamed.specs.Renamed as renamed;
ghost use Rattle.v_syntax.specs.Tree.{tree_of, target_of, statement_of};
ghost use Rattle.v_renamed.specs.NewNames.{new_name};

use crate::expression::copy;
use crate::names::Names;
use crate::output::copy_as_target;
use crate::statement::copy_boxed_statement;
use crate::target::copy_target;
use std::alloc::{AllocError, Global};
use v_syntax::module::Assignment;
use v_syntax::tree::{Expression, Statement, Target};

/// The expression with its names replaced. The copy lives as long as the new names.
pub fn renamed_expression<'a, 's: 'a>(
    alloc: Global,
    tree: &Expression<'s>,
    names: &Names<'a>,
) -> Result<Expression<'a>, AllocError>
    ensures { IfOk result (λ e. tree_of e ≡ renamed.renamed_expression (new_name names.now) (tree_of tree.now)) }
{
    copy(alloc, tree, names)
}

/// The target with its names replaced.
pub fn renamed_target<'a, 's: 'a>(
    alloc: Global,
    tree: &Target<'s>,
    names: &Names<'a>,
) -> Result<Target<'a>, AllocError>
    ensures { IfOk result (λ t. target_of t ≡ renamed.renamed_target (new_name names.now) (target_of tree.now)) }
{
    copy_target(alloc, tree, names)
}

/// The statement with its names replaced. Names of blocks stay as they are.
pub fn renamed_statement<'a, 's: 'a>(
    alloc: Global,
    tree: &Statement<'s>,
    names: &Names<'a>,
) -> Result<Box<Statement<'a>>, AllocError>
    ensures { IfOk result (λ b. statement_of b.value ≡ renamed.renamed_statement (new_name names.now) (statement_of tree.now)) }
{
    copy_boxed_statement(alloc, tree, names)
}

/// The assignment with the names of both sides replaced.
pub fn renamed_assignment<'a, 's: 'a>(
    alloc: Global,
    assignment: &Assignment<'s>,
    names: &Names<'a>,
) -> Result<Assignment<'a>, AllocError>
    ensures { IfOk result (λ a. (target_of a.target, tree_of a.value) ≡ renamed.renamed_assignment (new_name names.now) (target_of assignment.now.target, tree_of assignment.now.value)) }
{
    let target = copy_target(alloc, &assignment.target, names)?;
    let value = copy(alloc, &assignment.value, names)?;
    Ok(Assignment { target, value })
}

/// The expression as a target with its names replaced, where it is one, as what is connected to an output is.
pub fn renamed_as_target<'a, 's: 'a>(
    alloc: Global,
    tree: &Expression<'s>,
    names: &Names<'a>,
) -> Result<Option<Target<'a>>, AllocError>
    ensures { IfOk result (λ o. option_map target_of o ≡ option_map (renamed.renamed_target (new_name names.now)) (as_target (tree_of tree.now))) }
{
    copy_as_target(alloc, tree, names)
}

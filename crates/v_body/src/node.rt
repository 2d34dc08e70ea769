//! Statements from their parts.

ghost use Rattle.std.specs.Prelude.{◌≡◌, map, Some, None, IfOk, IfErr};
ghost use Rattle.verilog_trees.specs.Syntax.{block, case};
ghost use Rattle.v_syntax.specs.Tree.{tree_of, statement_of, case_kind_of, name_of_option, or_empty};
ghost use Rattle.v_expr.specs.declared.stop.ExpressionStop.TheVariants.{NoMemory};
ghost use Rattle.v_body.specs.Statements.{as_items, as_statements};
ghost use Rattle.v_body.specs.View.{arm_of, item_of, ladder_of};
ghost use Rattle.v_expr.specs.Flat.{IsFlat, IsNotEmpty, Each};
ghost use Rattle.v_body.specs.Flat.{IsNoIf, IsFlatStatement, IsFlatArm, IsFlatCaseItem};

use std::alloc::Global;
use v_expr::ExpressionStop;
use v_syntax::tree::{Arm, CaseItem, CaseKind, Expression, Statement};

/// A ladder with no `else` behind its last arm.
pub fn alone<'s>(arms: Vec<Arm<'s>>) -> Statement<'s>
    ensures made { statement_of result ≡ or_empty (ladder_of (map arm_of arms.entry.items) None) }
    ensures flat { IsNotEmpty arms.entry.items → Each IsFlatArm arms.entry.items → IsFlatStatement result }
{
    Statement::If(arms, None)
}

/// A ladder with an `else` behind its last arm.
pub fn with_else<'s>(
    alloc: Global,
    arms: Vec<Arm<'s>>,
    last: Statement<'s>,
) -> Result<Statement<'s>, ExpressionStop>
    ensures made { IfOk result (λ s. statement_of s ≡ or_empty (ladder_of (map arm_of arms.entry.items) (Some (statement_of last.entry)))) }
    ensures flat { IfOk result (λ s. IsNotEmpty arms.entry.items → Each IsFlatArm arms.entry.items → IsNoIf last.entry → IsFlatStatement last.entry → IsFlatStatement s) }
    ensures memory { IfErr result (λ e. e ≡ NoMemory) }
{
    Ok(Statement::If(arms, Some(Box::new(alloc, last)?)))
}

/// A `case` or `casez`.
pub fn case_of<'s>(
    kind: CaseKind,
    subject: Expression<'s>,
    items: Vec<CaseItem<'s>>,
) -> Statement<'s>
    ensures flat { IsFlat subject.entry → Each IsFlatCaseItem items.entry.items → IsFlatStatement result }
    ensures no_if { IsNoIf result }
    ensures made { statement_of result ≡ case (case_kind_of kind) (tree_of subject.entry) (as_items (map item_of items.entry.items)) }
{
    Statement::Case(kind, subject, items)
}

/// A block.
pub fn block_of<'s>(name: Option<&'s str>, statements: Vec<Statement<'s>>) -> Statement<'s>
    ensures flat { Each IsFlatStatement statements.entry.items → IsFlatStatement result }
    ensures no_if { IsNoIf result }
    ensures made { statement_of result ≡ block (name_of_option name.entry) (as_statements (map statement_of statements.entry.items)) }
{
    Statement::Block(name, statements)
}

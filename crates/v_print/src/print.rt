//! Whole expressions as texts.
ghost use Rattle.std.specs.Prelude.{◌≤◌, [], ◌∷◌, length, IfOk};
ghost use Rattle.std.specs.String.{string_bytes};
ghost use Rattle.verilog_text.specs.Text.{most_tokens};
ghost use Rattle.v_syntax.specs.Tree.{tree_of};
ghost use Rattle.v_print.specs.Spelled.{printed};
ghost use Rattle.v_print.specs.Depth.{depth_of};
ghost use Rattle.v_print.specs.Printable.{IsPrintable};
ghost use Rattle.v_print.specs.Reading.{IsExpressionOf};

use crate::expression::write;
use crate::writer::Writer;
use std::alloc::{AllocError, Global};
use v_syntax::tree::Expression;

/// A text that reads as the expression.
pub fn print_expression(alloc: Global, expression: &Expression<'_>) -> Result<String, AllocError>
    ensures { IfOk result (λ t. IsPrintable (tree_of expression.now) → depth_of (tree_of expression.now) ≤ 200 → length (printed (tree_of expression.now) []) ≤ most_tokens → IsExpressionOf (string_bytes t ∷ []) (tree_of expression.now)) }
{
    let mut out = Writer::new(alloc);
    write(expression, &mut out)?;
    Ok(out.into_text())
}

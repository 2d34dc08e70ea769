//! Laws about sources that are read and printed.

ghost use Rattle.std.specs.Prelude.{ℕ, List};
ghost use Rattle.verilog_text.specs.Grammar.{IsTreeOf};
ghost use Rattle.verilog_trees.specs.Syntax.{Source};
ghost use Rattle.v_print.specs.Printable.{IsPrintableSource};
ghost use Rattle.v_print_source.specs.Limits.{ArePrintedWithin};

/// Every source that files have can be printed.
pub fn a_source_that_is_read_can_be_printed()
    ensures { (files : List (List ℕ)) (ms : Source) → IsTreeOf files ms → IsPrintableSource ms }
{}

/// Every source that files have is printed within the limits: in no more tokens, and no deeper, than it was read.
pub fn a_source_that_is_read_is_printed_within()
    ensures { (files : List (List ℕ)) (ms : Source) → IsTreeOf files ms → ArePrintedWithin ms }
{}

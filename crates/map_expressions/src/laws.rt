//! What reading a text means, as laws without code.

ghost use Rattle.std.specs.Prelude.{◌≡◌};
ghost use Rattle.verilog_trees.specs.Syntax.{Expression};
ghost use Rattle.map_files.specs.Written.{Text};
ghost use Rattle.map_rules.specs.Expressions.{ReadsAs};

/// A text is read as one expression at most.
pub fn a_text_is_read_as_one_expression()
    ensures { (t : Text) (e f : Expression) → ReadsAs t e → ReadsAs t f → e ≡ f }
{}

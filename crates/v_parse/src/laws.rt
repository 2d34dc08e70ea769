//! What reading a source means, as laws without code.

ghost use Rattle.std.specs.Prelude.{◌≡◌, ◌↔◌, List, Some};
ghost use Rattle.verilog_trees.specs.Syntax.{Source};
ghost use Rattle.verilog_text.specs.Token.{Token};
ghost use Rattle.verilog_text.specs.Grammar.{IsSource};
ghost use Rattle.v_parse.specs.Reading.{source_at};

/// What is read is spelled so, and what is spelled so is read.
pub fn a_source_is_read()
    ensures { (ms : Source) (text : List Token) → (source_at text ≡ Some ms) ↔ IsSource ms text }
{}

/// Tokens spell at most one source.
pub fn one_source()
    ensures { (ms ns : Source) (text : List Token) → IsSource ms text → IsSource ns text → ms ≡ ns }
{}

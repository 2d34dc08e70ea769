//! Laws about printed trees and the texts that have their tokens.

ghost use Rattle.std.specs.Prelude.{◌≡◌, ℕ, Bool, false, List, [], ◌∷◌, length, nat_lt, Ok};
ghost use Rattle.verilog_text.specs.Token.{Token};
ghost use Rattle.verilog_text.specs.Text.{most_tokens, is_too_deep, tokens_in};
ghost use Rattle.verilog_text.specs.Spelling.{IsExpression};
ghost use Rattle.verilog_text.specs.Grammar.{IsSource};
ghost use Rattle.verilog_trees.specs.Syntax.{Expression, Source};
ghost use Rattle.v_print.specs.Reads.{HasTokens, are_printed};
ghost use Rattle.v_print.specs.Whole.{has_zero_size};
ghost use Rattle.v_print.specs.Spelled.{level_of, bare};
ghost use Rattle.v_print.specs.Bodies.{source_before};
ghost use Rattle.v_print.specs.Printable.{IsPrintable, IsPrintableSource};

/// A text that adds these tokens to any others is read as them.
pub fn a_text_is_read()
    ensures { (bytes : List ℕ) (ts : List Token) → HasTokens bytes ts → nat_lt most_tokens (length ts) ≡ false → has_zero_size ts ≡ false → is_too_deep [] ts ≡ false → tokens_in (bytes ∷ []) ≡ Ok ts }
{}

/// An expression that can be printed is spelled by its printed tokens, without brackets round it, at the level of its operator.
pub fn an_expression_is_spelled()
    ensures { (e : Expression) → IsPrintable e → (r : List Token) → IsExpression (level_of e) e (bare e r) r }
{}

/// A source that can be printed is spelled by its printed tokens, with a colon behind each default or without one.
pub fn a_source_is_spelled()
    ensures { (colons : Bool) (ms : Source) → IsPrintableSource ms → IsSource ms (source_before colons ms []) }
{}

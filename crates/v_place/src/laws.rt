//! What the table of the grammar tells, as a law without code.

ghost use Rattle.std.specs.Prelude.{List, [], ◌∷◌};
ghost use Rattle.verilog_text.specs.Token.{Token};
ghost use Rattle.v_place.specs.Table.{whole, modules, left_from};
ghost use Rattle.v_place.specs.Place.{IsSourceText, IsExpressionText, IsFirstWrong};

/// The place that the table tells is that of the grammar.
pub fn the_place_is_told()
    ensures source { (text : List Token) → IsFirstWrong IsSourceText (left_from text (modules ∷ [])) text }
    ensures expression { (text : List Token) → IsFirstWrong IsExpressionText (left_from text (whole ∷ [])) text }
{}

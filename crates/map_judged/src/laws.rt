//! What is told of the expressions of a whole map, as laws without code.

ghost use Rattle.map_judged.specs.Whole.{FlawsAreBadExpressions, MismatchesAreWidthMismatches};

use map_expressions::laws::a_text_is_read_as_one_expression;

/// A map breaks the rule on expressions exactly where one of its expressions has a flaw, or its reset is none.
pub fn flaws_are_bad_expressions()
    ensures { FlawsAreBadExpressions }
{
    a_text_is_read_as_one_expression();
}

/// It breaks the rule on widths exactly where one of its expressions has another width than is wanted.
pub fn mismatches_are_width_mismatches()
    ensures { MismatchesAreWidthMismatches }
{
    a_text_is_read_as_one_expression();
}

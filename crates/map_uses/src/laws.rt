//! What the first user of an input says of a whole map, as laws without code.

ghost use Rattle.map_uses.specs.Whole.{FirstUsersBreakTheRule, ReadExpressionsAreOfTexts};

use map_expressions::laws::a_text_is_read_as_one_expression;

/// A map breaks the rule on inputs exactly where an invariant, or the expression of a state that is no memory, uses an input.
pub fn first_users_break_the_rule()
    ensures { FirstUsersBreakTheRule }
{
    a_text_is_read_as_one_expression();
}

/// The expressions of a map that stands for a written one are those of its texts.
pub fn read_expressions_are_of_texts()
    ensures { ReadExpressionsAreOfTexts }
{}

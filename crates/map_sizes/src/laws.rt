//! Rules and widths in scopes that agree on the names of an expression, as laws without code.

ghost use Rattle.map_sizes.specs.Kinds.{RulesAreAgreedOn};

use flat_rules::laws::renamed_trees_break_the_same_rules;

/// In scopes that agree on the names in it an expression breaks the same rules, and has the same width.
pub fn scopes_that_agree_judge_alike()
    ensures { RulesAreAgreedOn }
{
    renamed_trees_break_the_same_rules();
}

//! Numbers, and parts side by side.

ghost use Rattle.std.specs.Prelude.{◌≡◌, ℕ, ◌+◌, ◌*◌, ◌^◌, ◌<◌, ◌≤◌, IfOk};
ghost use Rattle.wb_values.specs.Value.{word};
ghost use Rattle.verilog_trees.specs.Syntax.{Expression, Expressions, number, no_expressions, expression, concatenation, replication};
ghost use Rattle.verilog_meaning.specs.Expression.{Scope, natural_of, integer_of, no_values};
ghost use Rattle.v_syntax.specs.Tree.{number_of};
ghost use Rattle.v_operators.specs.Meaning.{Grows, IsOfSort};
ghost use Rattle.v_lower.specs.Lowered.{Images, HasImages, IsLowered, IsLoweredAlone, AreLowered, after};

use crate::NoMemory;
use v_operators::{beside, constant, copies, widened};
use v_syntax::tree::Number;
use wb_terms::{TermId, Terms};

/// A number of a text, in a context of `width` bits.
pub fn lower_number(
    terms: &mut Terms,
    digits: Number,
    width: u32,
    signed: bool,
) -> Result<TermId, NoMemory>
    requires some_bits { 1 ≤ digits.width }
    requires fits { digits.value < 2 ^ digits.width }
    requires wider { digits.width ≤ width }
    requires at_most_128 { width ≤ 128 }
    ensures grows { Grows terms.old terms.new }
    ensures lowered { IfOk result (λ r. (s : Scope) (images : Images) → IsLowered s images terms.new (number (number_of digits)) width signed r.0) }
{
    let own = digits.width as u32;
    let value = constant(terms, own, digits.value)?;
    let id = widened(terms, value, own, width, signed)?;
    Ok(id)
}

/// One more part at the low end.
pub fn lower_part(
    terms: &mut Terms,
    parts: TermId,
    parts_width: u32,
    part: TermId,
    part_width: u32,
) -> Result<TermId, NoMemory>
    requires parts { IsOfSort terms.old parts.0 (word parts_width) }
    requires part { IsOfSort terms.old part.0 (word part_width) }
    requires at_most_128 { parts_width + part_width ≤ 128 }
    ensures grows { Grows terms.old terms.new }
    ensures lowered { IfOk result (λ r. (s : Scope) (images : Images) (es : Expressions) (e : Expression) → HasImages s images terms.old
        → AreLowered s images terms.old es parts_width parts.0 → IsLoweredAlone s images terms.old e part_width part.0
        → AreLowered s images terms.new (after es e) (parts_width + part_width) r.0) }
{
    let id = beside(terms, parts, parts_width, part, part_width)?;
    Ok(id)
}

/// Parts side by side, in a context of `to` bits.
pub fn lower_concatenation(
    terms: &mut Terms,
    parts: TermId,
    from: u32,
    to: u32,
    signed: bool,
) -> Result<TermId, NoMemory>
    requires parts { IsOfSort terms.old parts.0 (word from) }
    requires wider { from ≤ to }
    requires at_most_128 { to ≤ 128 }
    ensures grows { Grows terms.old terms.new }
    ensures lowered { IfOk result (λ r. (s : Scope) (images : Images) (es : Expressions) → HasImages s images terms.old
        → AreLowered s images terms.old es from parts.0 → IsLowered s images terms.new (concatenation es) to signed r.0) }
{
    let id = widened(terms, parts, from, to, signed)?;
    Ok(id)
}

/// So many copies of parts side by side, in a context of `to` bits.
pub fn lower_replication(
    terms: &mut Terms,
    count: u32,
    parts: TermId,
    from: u32,
    to: u32,
    signed: bool,
) -> Result<TermId, NoMemory>
    requires parts { IsOfSort terms.old parts.0 (word from) }
    requires some { 1 ≤ count }
    requires wider { count * from ≤ to }
    requires at_most_128 { to ≤ 128 }
    ensures grows { Grows terms.old terms.new }
    ensures lowered { IfOk result (λ r. (s : Scope) (images : Images) (c : Expression) (es : Expressions) → HasImages s images terms.old
        → count ≡ natural_of (integer_of s no_values c) → AreLowered s images terms.old es from parts.0
        → IsLowered s images terms.new (replication c es) to signed r.0) }
{
    let all = copies(terms, parts, from, count)?;
    let id = widened(terms, all, count * from, to, signed)?;
    Ok(id)
}

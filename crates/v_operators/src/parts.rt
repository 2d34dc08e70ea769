//! Bits side by side, and bits taken out of a number.

ghost use Rattle.std.specs.Prelude.{ℕ, ◌<◌, ◌≤◌, ◌+◌, ◌-◌, ◌*◌, IfOk};
ghost use Rattle.wb_values.specs.Value.{word};
ghost use Rattle.wb_values.specs.Number.{word_concat, word_extract};
ghost use Rattle.verilog_meaning.specs.Expression.{side_by_side};
ghost use Rattle.v_operators.specs.Meaning.{Grows, IsOfSort, Makes, Joins};

use crate::NoMemory;
use crate::putting::put;
use wb_terms::{Node, TermId, Terms};

/// One number above another.
pub fn beside(
    terms: &mut Terms,
    high: TermId,
    high_width: u32,
    low: TermId,
    low_width: u32,
) -> Result<TermId, NoMemory>
    requires high { IsOfSort terms.old high.0 (word high_width) }
    requires low { IsOfSort terms.old low.0 (word low_width) }
    requires at_most_128 { high_width + low_width ≤ 128 }
    ensures grows { Grows terms.old terms.new }
    ensures made { IfOk result (λ r. Joins terms.old terms.new high.0 high_width low.0 low_width r.0 (high_width + low_width) (word_concat low_width)) }
{
    let id = put(terms, Node::Concat(high, low))?;
    Ok(id)
}

/// The bits of a number from `high` down to `low`, counted from 0 at the low end.
pub fn part(
    terms: &mut Terms,
    operand: TermId,
    width: u32,
    high: u32,
    low: u32,
) -> Result<TermId, NoMemory>
    requires operand { IsOfSort terms.old operand.0 (word width) }
    requires order { low ≤ high }
    requires within { high < width }
    ensures grows { Grows terms.old terms.new }
    ensures made { IfOk result (λ r. Makes terms.old terms.new operand.0 width r.0 (high + 1 - low) (word_extract high low)) }
{
    let id = put(terms, Node::Extract(high, low, operand))?;
    Ok(id)
}

/// So many copies of a number side by side.
pub fn copies(
    terms: &mut Terms,
    operand: TermId,
    width: u32,
    count: u32,
) -> Result<TermId, NoMemory>
    requires operand { IsOfSort terms.old operand.0 (word width) }
    requires some { 1 ≤ count }
    requires at_most_128 { count * width ≤ 128 }
    ensures grows { Grows terms.old terms.new }
    ensures made { IfOk result (λ r. Makes terms.old terms.new operand.0 width r.0 (count * width) (side_by_side count width)) }
{
    let mut all = operand;
    let mut total = width;
    for _i in 1..count {
        all = beside(terms, operand, width, all, total)?;
        total += width;
    }
    Ok(all)
}

//! Comparisons, connectives and conditionals.

ghost use Rattle.std.specs.Prelude.{◌≡◌, ℕ, ◌≤◌, ◌&&◌, ◌==◌, Bool, true, false, not, max, IfOk};
ghost use Rattle.wb_values.specs.Value.{truth, word};
ghost use Rattle.verilog_trees.specs.Syntax.{Expression, conditional};
ghost use Rattle.verilog_meaning.specs.Expression.{Scope, width_of, sign_of};
ghost use Rattle.v_syntax.specs.Tree.{tested};
ghost use Rattle.v_operators.specs.Meaning.{Grows, IsOfSort, Compares};
ghost use Rattle.v_lower.specs.Kinds.{is_logical};
ghost use Rattle.v_lower.specs.Deciding.{Decides, compared, connected};
ghost use Rattle.v_lower.specs.Lowered.{Images, HasImages, IsLowered, IsLoweredAlone};

use crate::NoMemory;
use v_operators::{bit, both, choice, either, is_at_most, is_below, is_equal, is_nonzero, put};
use v_syntax::tree::TestOperator;
use wb_terms::{Node, TermId, Terms};

/// Whether two numbers are not equal.
fn differ(terms: &mut Terms, left: TermId, right: TermId, width: u32) -> Result<TermId, NoMemory>
    requires left { IsOfSort terms.old left.0 (word width) }
    requires right { IsOfSort terms.old right.0 (word width) }
    ensures grows { Grows terms.old terms.new }
    ensures made { IfOk result (λ r. Compares terms.old terms.new left.0 right.0 width r.0 (λ a b. not (a == b))) }
{
    let same = is_equal(terms, left, right, width)?;
    let id = put(terms, Node::Not(same))?;
    Ok(id)
}

/// What a comparison says of two numbers of `width` bits, by their signs.
fn compared(
    terms: &mut Terms,
    operator: TestOperator,
    left: TermId,
    right: TermId,
    width: u32,
    signed: bool,
) -> Result<TermId, NoMemory>
    requires operator { is_logical operator ≡ false }
    requires left { IsOfSort terms.old left.0 (word width) }
    requires right { IsOfSort terms.old right.0 (word width) }
    ensures grows { Grows terms.old terms.new }
    ensures made { IfOk result (λ r. Decides terms.old terms.new left.0 width right.0 width r.0 (compared operator signed width)) }
{
    match operator {
        TestOperator::Less => {
            let id = is_below(terms, left, right, width, signed)?;
            Ok(id)
        }
        TestOperator::LessOrEqual => {
            let id = is_at_most(terms, left, right, width, signed)?;
            Ok(id)
        }
        TestOperator::Greater => {
            let id = is_below(terms, right, left, width, signed)?;
            Ok(id)
        }
        TestOperator::GreaterOrEqual => {
            let id = is_at_most(terms, right, left, width, signed)?;
            Ok(id)
        }
        TestOperator::Equal => {
            let id = is_equal(terms, left, right, width)?;
            Ok(id)
        }
        TestOperator::NotEqual => {
            let id = differ(terms, left, right, width)?;
            Ok(id)
        }
        _ => unreachable!(),
    }
}

/// What a comparison makes of two operands in the context of both, of `own` bits, in a context of `width` bits.
pub fn lower_comparison(
    terms: &mut Terms,
    operator: TestOperator,
    left: TermId,
    right: TermId,
    own: u32,
    signed: bool,
    width: u32,
) -> Result<TermId, NoMemory>
    requires operator { is_logical operator ≡ false }
    requires left { IsOfSort terms.old left.0 (word own) }
    requires right { IsOfSort terms.old right.0 (word own) }
    requires some_bits { 1 ≤ width }
    requires at_most_128 { width ≤ 128 }
    ensures grows { Grows terms.old terms.new }
    ensures of_sort { IfOk result (λ r. IsOfSort terms.new r.0 (word width)) }
    ensures lowered { IfOk result (λ r. (s : Scope) (images : Images) (x y : Expression) (t : Bool) → HasImages s images terms.old
        → own ≡ max (width_of s x) (width_of s y) → signed ≡ sign_of s x && sign_of s y
        → IsLowered s images terms.old x own signed left.0 → IsLowered s images terms.old y own signed right.0
        → IsLowered s images terms.new (tested operator x y) width t r.0) }
{
    let said = compared(terms, operator, left, right, own, signed)?;
    let id = bit(terms, said, width)?;
    Ok(id)
}

/// What `&&` and `||` say of two numbers.
fn connected(
    terms: &mut Terms,
    operator: TestOperator,
    left: TermId,
    left_width: u32,
    right: TermId,
    right_width: u32,
) -> Result<TermId, NoMemory>
    requires operator { is_logical operator ≡ true }
    requires left { IsOfSort terms.old left.0 (word left_width) }
    requires right { IsOfSort terms.old right.0 (word right_width) }
    ensures grows { Grows terms.old terms.new }
    ensures made { IfOk result (λ r. Decides terms.old terms.new left.0 left_width right.0 right_width r.0 (connected operator)) }
{
    let first = is_nonzero(terms, left, left_width)?;
    let second = is_nonzero(terms, right, right_width)?;
    match operator {
        TestOperator::Both => {
            let id = both(terms, first, second)?;
            Ok(id)
        }
        TestOperator::Either => {
            let id = either(terms, first, second)?;
            Ok(id)
        }
        _ => unreachable!(),
    }
}

/// What `&&` and `||` make of two operands by themselves, in a context of `width` bits.
pub fn lower_logical(
    terms: &mut Terms,
    operator: TestOperator,
    left: TermId,
    left_width: u32,
    right: TermId,
    right_width: u32,
    width: u32,
) -> Result<TermId, NoMemory>
    requires operator { is_logical operator ≡ true }
    requires left { IsOfSort terms.old left.0 (word left_width) }
    requires right { IsOfSort terms.old right.0 (word right_width) }
    requires some_bits { 1 ≤ width }
    requires at_most_128 { width ≤ 128 }
    ensures grows { Grows terms.old terms.new }
    ensures of_sort { IfOk result (λ r. IsOfSort terms.new r.0 (word width)) }
    ensures lowered { IfOk result (λ r. (s : Scope) (images : Images) (x y : Expression) (t : Bool) → HasImages s images terms.old
        → IsLoweredAlone s images terms.old x left_width left.0 → IsLoweredAlone s images terms.old y right_width right.0
        → IsLowered s images terms.new (tested operator x y) width t r.0) }
{
    let said = connected(terms, operator, left, left_width, right, right_width)?;
    let id = bit(terms, said, width)?;
    Ok(id)
}

/// What `?:` makes of a condition by itself and two values in one context of `width` bits.
pub fn lower_conditional(
    terms: &mut Terms,
    condition: TermId,
    condition_width: u32,
    chosen: TermId,
    other: TermId,
    width: u32,
) -> Result<TermId, NoMemory>
    requires condition { IsOfSort terms.old condition.0 (word condition_width) }
    requires chosen { IsOfSort terms.old chosen.0 (word width) }
    requires other { IsOfSort terms.old other.0 (word width) }
    ensures grows { Grows terms.old terms.new }
    ensures of_sort { IfOk result (λ r. IsOfSort terms.new r.0 (word width)) }
    ensures lowered { IfOk result (λ r. (s : Scope) (images : Images) (x y z : Expression) (t : Bool) → HasImages s images terms.old
        → IsLoweredAlone s images terms.old x condition_width condition.0 → IsLowered s images terms.old y width t chosen.0
        → IsLowered s images terms.old z width t other.0 → IsLowered s images terms.new (conditional x y z) width t r.0) }
{
    let holds = is_nonzero(terms, condition, condition_width)?;
    let id = choice(terms, holds, chosen, other, width)?;
    Ok(id)
}

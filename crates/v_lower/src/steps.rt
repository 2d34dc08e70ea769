//! Steps of the walk down an expression: what is put for a part whose operands have their terms.

ghost use Rattle.std.specs.Prelude.{◌≡◌, ℕ, ◌≤◌, ◌<◌, ◌&&◌, max, Bool, true, false, IfOk, drop, take, length};
ghost use Rattle.wb_values.specs.Value.{word};
ghost use Rattle.verilog_trees.specs.Syntax.{Expression, Selects, name as name_of};
ghost use Rattle.verilog_meaning.specs.Expression.{Scope};
ghost use Rattle.v_syntax.specs.Tree.{tested, prefixed, all_prefixed};
ghost use Rattle.v_operators.specs.Meaning.{Grows, IsOfSort};
ghost use Rattle.v_value.specs.Links.{has_reduction, is_reduction};
ghost use Rattle.v_lower.specs.Kinds.{is_logical, is_shift};
ghost use Rattle.v_lower.specs.Lowered.{Images, HasImages, IsLowered, IsLoweredAlone};
ghost use Rattle.v_lower.specs.Reading.{IsRead};
ghost use Rattle.v_lower.specs.Walking.{left_width, left_sign, right_width, right_sign, begins_with_reduction, IsBit};
ghost use Rattle.v_lower.specs.Contexts.{AreContexts};

use crate::NoMemory;
use crate::deciding::{lower_comparison, lower_logical};
use crate::operators::lower_prefix;
use crate::reducing::lower_reduction;
use v_bits::Operand;
use v_operators::widened;
use v_syntax::tree::{BinaryOperator, PrefixOperator, TestOperator};
use wb_terms::{TermId, Terms};

/// What is read of a name, in a context of `width` bits.
pub(crate) fn lower_read(
    terms: &mut Terms,
    read: Operand,
    width: u32,
    signed: bool,
) -> Result<TermId, NoMemory>
    requires read { IsOfSort terms.old read.id.0 (word read.width) }
    requires wider { read.width ≤ width }
    requires at_most_128 { width ≤ 128 }
    ensures grows { Grows terms.old terms.new }
    ensures of_sort { IfOk result (λ r. IsOfSort terms.new r.0 (word width)) }
    ensures lowered { IfOk result (λ r. (s : Scope) (images : Images) (n : _) (x : Selects) → HasImages s images terms.old
        → IsRead s images terms.old n x read.width read.id.0 → IsLowered s images terms.new (name_of n x) width signed r.0) }
{
    let id = widened(terms, read.id, read.width, width, signed)?;
    Ok(id)
}

/// A context: its width, and whether operands are widened with their sign.
#[derive(Clone, Copy, PartialEq, Eq, Debug)]
pub(crate) struct Context {
    pub(crate) width: u32,
    pub(crate) signed: bool,
}

/// The contexts of the two operands of a test.
#[derive(Clone, Copy, PartialEq, Eq, Debug)]
pub(crate) struct Contexts {
    pub(crate) left: Context,
    pub(crate) right: Context,
}

/// Whether the operator is `&&` or `||`.
fn is_logical(operator: TestOperator) -> bool
    ensures { result ≡ is_logical operator }
{
    matches!(operator, TestOperator::Both | TestOperator::Either)
}

/// Whether the operator is a shift.
pub(crate) fn is_shift(operator: BinaryOperator) -> bool
    ensures { result ≡ is_shift operator }
{
    matches!(
        operator,
        BinaryOperator::ShiftLeft
            | BinaryOperator::ShiftRight
            | BinaryOperator::ArithmeticShiftRight
    )
}

/// The width and sign of a test by itself.
pub(crate) fn bit_context() -> Context
    ensures width { result.width ≡ 1 }
    ensures sign { result.signed ≡ false }
{
    Context {
        width: 1,
        signed: false,
    }
}

/// Whether both hold.
fn both(x: bool, y: bool) -> bool
    ensures { result ≡ (x && y) }
{
    x && y
}

/// The contexts of two operands that have these widths and signs by themselves.
pub(crate) fn contexts_of(operator: TestOperator, left: Context, right: Context) -> Contexts
    ensures left_width { result.left.width ≡ left_width operator left.width right.width }
    ensures left_sign { result.left.signed ≡ left_sign operator left.signed right.signed }
    ensures right_width { result.right.width ≡ right_width operator left.width right.width }
    ensures right_sign { result.right.signed ≡ right_sign operator left.signed right.signed }
    ensures one { is_logical operator ≡ false → result.left ≡ result.right }
{
    if is_logical(operator) {
        return Contexts { left, right };
    }
    let all = Context {
        width: left.width.max(right.width),
        signed: both(left.signed, right.signed),
    };
    Contexts {
        left: all,
        right: all,
    }
}

/// One bit: what a test says of two operands in their contexts.
pub(crate) fn lower_tested(
    terms: &mut Terms,
    operator: TestOperator,
    left: TermId,
    right: TermId,
    contexts: Contexts,
) -> Result<TermId, NoMemory>
    requires left { IsOfSort terms.old left.0 (word contexts.left.width) }
    requires right { IsOfSort terms.old right.0 (word contexts.right.width) }
    requires one { is_logical operator ≡ false → contexts.left ≡ contexts.right }
    ensures grows { Grows terms.old terms.new }
    ensures of_sort { IfOk result (λ r. IsOfSort terms.new r.0 (word 1)) }
    ensures bit { IfOk result (λ r. (s : Scope) (images : Images) (x y : Expression) → HasImages s images terms.old
        → AreContexts s operator x y contexts
        → IsLowered s images terms.old x contexts.left.width contexts.left.signed left.0 → IsLowered s images terms.old y contexts.right.width contexts.right.signed right.0
        → IsBit s images terms.new (tested operator x y) r.0) }
{
    if is_logical(operator) {
        let id = lower_logical(
            terms,
            operator,
            left,
            contexts.left.width,
            right,
            contexts.right.width,
            1,
        )?;
        return Ok(id);
    }
    let id = lower_comparison(
        terms,
        operator,
        left,
        right,
        contexts.left.width,
        contexts.left.signed,
        1,
    )?;
    Ok(id)
}

/// One bit, in a context of `width` bits.
pub(crate) fn lower_bit(terms: &mut Terms, said: TermId, width: u32) -> Result<TermId, NoMemory>
    requires said { IsOfSort terms.old said.0 (word 1) }
    requires some_bits { 1 ≤ width }
    requires at_most_128 { width ≤ 128 }
    ensures grows { Grows terms.old terms.new }
    ensures of_sort { IfOk result (λ r. IsOfSort terms.new r.0 (word width)) }
    ensures lowered { IfOk result (λ r. (s : Scope) (images : Images) (e : Expression) (t : Bool) → HasImages s images terms.old
        → IsBit s images terms.old e said.0 → IsLowered s images terms.new e width t r.0) }
{
    let id = widened(terms, said, 1, width, false)?;
    Ok(id)
}

/// Operators that keep the width, before an operand in a context of `width` bits; the innermost is the last.
pub(crate) fn lower_kept(
    terms: &mut Terms,
    operators: &[PrefixOperator],
    operand: TermId,
    width: u32,
) -> Result<TermId, NoMemory>
    requires kept { has_reduction operators.now ≡ false }
    requires operand { IsOfSort terms.old operand.0 (word width) }
    ensures grows { Grows terms.old terms.new }
    ensures of_sort { IfOk result (λ r. IsOfSort terms.new r.0 (word width)) }
    ensures lowered { IfOk result (λ r. (s : Scope) (images : Images) (x : Expression) (t : Bool) → HasImages s images terms.old
        → IsLowered s images terms.old x width t operand.0 → IsLowered s images terms.new (all_prefixed operators.now x) width t r.0) }
{
    let mut all = operand;
    for i in (0..operators.len()).rev() {
        all = lower_prefix(terms, operators[i], all, width)?;
    }
    Ok(all)
}

/// An operator before an operand by itself.
fn lower_one(
    terms: &mut Terms,
    operator: PrefixOperator,
    operand: Operand,
) -> Result<Operand, NoMemory>
    requires operand { IsOfSort terms.old operand.id.0 (word operand.width) }
    ensures grows { Grows terms.old terms.new }
    ensures of_sort { IfOk result (λ r. IsOfSort terms.new r.id.0 (word r.width)) }
    ensures one { IfOk result (λ r. is_reduction operator ≡ true → r.width ≡ 1) }
    ensures lowered { IfOk result (λ r. (s : Scope) (images : Images) (x : Expression) → HasImages s images terms.old
        → IsLoweredAlone s images terms.old x operand.width operand.id.0 → IsLoweredAlone s images terms.new (prefixed operator x) r.width r.id.0) }
{
    if is_reduction(operator) {
        let id = lower_reduction(terms, operator, operand.id, operand.width, 1)?;
        return Ok(Operand {
            id,
            width: 1,
            signed: false,
        });
    }
    let id = lower_prefix(terms, operator, operand.id, operand.width)?;
    Ok(Operand {
        id,
        width: operand.width,
        signed: operand.signed,
    })
}

/// Whether the operator makes one bit of a whole operand.
fn is_reduction(operator: PrefixOperator) -> bool
    ensures { result ≡ is_reduction operator }
{
    !matches!(
        operator,
        PrefixOperator::Plus | PrefixOperator::Minus | PrefixOperator::Complement
    )
}

/// Operators before an operand by itself; the innermost is the last.
pub(crate) fn lower_run(
    terms: &mut Terms,
    operators: &[PrefixOperator],
    operand: Operand,
) -> Result<Operand, NoMemory>
    requires operand { IsOfSort terms.old operand.id.0 (word operand.width) }
    ensures grows { Grows terms.old terms.new }
    ensures of_sort { IfOk result (λ r. IsOfSort terms.new r.id.0 (word r.width)) }
    ensures one { IfOk result (λ r. begins_with_reduction operators.now ≡ true → r.width ≡ 1) }
    ensures lowered { IfOk result (λ r. (s : Scope) (images : Images) (x : Expression) → HasImages s images terms.old
        → IsLoweredAlone s images terms.old x operand.width operand.id.0 → IsLoweredAlone s images terms.new (all_prefixed operators.now x) r.width r.id.0) }
{
    let mut all = operand;
    for i in (0..operators.len()).rev() {
        all = lower_one(terms, operators[i], all)?;
    }
    Ok(all)
}

/// Whether one of the operators makes one bit of a whole operand.
pub(crate) fn reduces(operators: &[PrefixOperator]) -> bool
    ensures { result ≡ has_reduction operators.now }
{
    for operator in operators {
        if is_reduction(*operator) {
            return true;
        }
    }
    false
}

/// The place of the outermost operator that makes one bit of a whole operand.
fn first_reduction(operators: &[PrefixOperator]) -> usize
    requires { has_reduction operators.now ≡ true }
    ensures within { result < length operators.now }
    ensures kept { has_reduction (take result operators.now) ≡ false }
    ensures reduces { begins_with_reduction (drop result operators.now) ≡ true }
{
    for i in 0..operators.len() {
        if is_reduction(operators[i]) {
            return i;
        }
    }
    unreachable!()
}

/// Operators before an operand by itself, in a context of `width` bits, where one of them makes one bit.
pub(crate) fn lower_reduced(
    terms: &mut Terms,
    operators: &[PrefixOperator],
    operand: Operand,
    width: u32,
) -> Result<TermId, NoMemory>
    requires reduces { has_reduction operators.now ≡ true }
    requires operand { IsOfSort terms.old operand.id.0 (word operand.width) }
    requires some_bits { 1 ≤ width }
    requires at_most_128 { width ≤ 128 }
    ensures grows { Grows terms.old terms.new }
    ensures of_sort { IfOk result (λ r. IsOfSort terms.new r.0 (word width)) }
    ensures lowered { IfOk result (λ r. (s : Scope) (images : Images) (x : Expression) (t : Bool) → HasImages s images terms.old
        → IsLoweredAlone s images terms.old x operand.width operand.id.0 → IsLowered s images terms.new (all_prefixed operators.now x) width t r.0) }
{
    let place = first_reduction(operators);
    let inner = lower_run(terms, &operators[place..], operand)?;
    let wide = lower_bit(terms, inner.id, width)?;
    let id = lower_kept(terms, &operators[..place], wide, width)?;
    Ok(id)
}

//! Values of expressions (1364-2005, 5.4.2 and 5.5.2), one after the other down the tree.
ghost use Rattle.std.specs.Prelude.{◌≡◌, false, ◌&&◌, max, IfSome, ◌+◌, ◌*◌, ◌^◌, ◌<◌, ◌≤◌};
ghost use Rattle.verilog_meaning.specs.Expression.{widened};
ghost use Rattle.verilog_meaning.specs.Expression as meaning;
ghost use Rattle.v_value.specs.Index.{integer_at};
ghost use Rattle.v_value.specs.Scope.{scope_at, valuation_at};
ghost use Rattle.v_syntax.specs.Tree.{tree_of, selects_of, expressions_of};
ghost use Rattle.v_value.specs.Narrow.{IsWidth, IsNarrow, AreNarrow, AreSelectsNarrow, HasNarrowObjects, HasFittingValues, IsReady};
ghost use Rattle.v_value.specs.Links.{has_reduction, leaves_to_left, AreLinksNarrow, AreTestsNarrow, AreChoicesNarrow};
ghost use Rattle.v_value.specs.Evaluation.{named_width, named_value, selects_width_at, selected_at, count_at, width_at, value_at, self_at, links_value, AreLinksWithin, applied, run_width, run_value, prefixes_value, is_logical, context_width, context_sign, said, compared_said, tests_value, sign_at, choices_value, AreChoicesWithin, parts_value, parts_width};

use crate::arithmetic::natural;
use crate::lookup::{number_at, word_at};
use crate::scope::{Entry, Scope};
use crate::select::{Integer, bits_of, word_number};
use crate::sign::{is_reduction, leaves_to_left, reduces, sign_of};
use crate::taken::{index_of, taken_by};
use crate::width::{object_width, width_of};
use crate::word;
use v_syntax::tree::{
    BinaryLink, BinaryOperator, Choice, Expression, PrefixOperator, Selects, TestLink, TestOperator,
};
use wb_bits::Word;

/// The value of a name that stands whole.
fn named_value(scope: &Scope<'_>, values: &[Entry<'_>], name: &str) -> Word
    requires ready { IsReady (scope_at scope.now) (valuation_at values.now) }
    ensures width { result.width ≡ named_width (scope_at scope.now) name.now }
    ensures value { result.value ≡ named_value (scope_at scope.now) (valuation_at values.now) name.now }
{
    let object = scope.object(name);
    let value = match object.constant {
        Some(number) => number,
        None => number_at(values, name),
    };
    Word::new(object_width(object), value)
}

/// The word of a memory with this address, 0 out of range.
fn addressed_word(values: &[Entry<'_>], name: &str, addresses: (u32, u32), address: Integer) -> u128
    ensures { result ≡ meaning.word_or_zero (meaning.word_number addresses (integer_at address)) (valuation_at values.now name.now) }
{
    match word_number(addresses, address) {
        Some(number) => word_at(values, name, number),
        None => 0,
    }
}

/// The word of a memory with this address, with the memory's width.
fn memory_word(scope: &Scope<'_>, values: &[Entry<'_>], name: &str, address: Integer) -> Word
    requires ready { IsReady (scope_at scope.now) (valuation_at values.now) }
    ensures width { result.width ≡ named_width (scope_at scope.now) name.now }
    ensures value { result.value ≡ meaning.indexed_word (scope_at scope.now name.now) (integer_at address) (valuation_at values.now name.now) }
{
    let object = scope.object(name);
    let word = match object.addresses {
        Some(addresses) => addressed_word(values, name, addresses, address),
        None => 0,
    };
    Word::new(object_width(object), word)
}

/// A word widened to `width` bits, with its sign bit where the whole is signed.
fn in_context(word: Word, width: u32, signed: bool) -> u128
    requires wider { word.width ≤ width }
    requires at_most_128 { width ≤ 128 }
    ensures value { result ≡ widened signed word.width width word.value }
    ensures fits { result < 2 ^ width }
{
    word::widened(signed, word.width, width, word.value)
}

/// Whether the operator is `&&` or `||`.
fn is_logical(operator: TestOperator) -> bool
    ensures { result ≡ is_logical operator }
{
    matches!(operator, TestOperator::Both | TestOperator::Either)
}

/// A number of `width` bits with a word below it.
fn extended(width: u32, value: u128, word: Word) -> u128
    requires at_most_128 { width + word.width ≤ 128 }
    requires fits { value < 2 ^ width }
    ensures value { result ≡ value * 2 ^ word.width + word.value }
    ensures fits { result < 2 ^ (width + word.width) }
{
    if width == 0 {
        word.value
    } else {
        wb_bits::concat(Word::new(width, value), word).value
    }
}

/// Operators before an operand: `own` is the operand by itself, `value` its value in the context of `width` bits.
fn prefixed(operators: &[PrefixOperator], width: u32, value: u128, own: Word) -> u128
    requires some_bits { 1 ≤ width }
    requires at_most_128 { width ≤ 128 }
    requires fits { value < 2 ^ width }
    ensures value { result ≡ prefixes_value operators.now width value own.width own.value }
    ensures fits { result < 2 ^ width }
{
    let mut outer = value;
    let mut inner = own;
    for i in (0..operators.len()).rev() {
        let operator = operators[i];
        if is_reduction(operator) {
            let bit = word::bit(word::reduction(operator, inner.width, inner.value));
            outer = bit;
            inner = Word::new(1, bit);
        } else {
            outer = word::unary(operator, width, outer);
            inner = Word::new(inner.width, word::unary(operator, inner.width, inner.value));
        }
    }
    outer
}

/// So many copies of a word side by side.
fn copies(count: u128, word: Word) -> Word
    requires some { 1 ≤ count }
    requires at_most_128 { count * word.width ≤ 128 }
    ensures width { result.width ≡ count * word.width }
    ensures value { result.value ≡ meaning.side_by_side count word.width word.value }
{
    let mut all = word;
    for _i in 1..count {
        all = wb_bits::concat(word, all);
    }
    all
}

/// The conjunction of two truth values.
fn both(x: bool, y: bool) -> bool
    ensures { result ≡ (x && y) }
{
    x && y
}

/// The width of an expression, with its bounds.
#[cycle(value)]
fn operand_width(operand: &Expression<'_>, scope: &Scope<'_>) -> u32
    requires narrow { IsNarrow (scope_at scope.now) (tree_of operand.now) }
    ensures width { result ≡ width_at (scope_at scope.now) (tree_of operand.now) }
    ensures some_bits { 1 ≤ result }
    ensures at_most_128 { result ≤ 128 }
{
    width_of(operand, scope)
}

/// The sign of an expression.
pub(crate) fn operand_sign(operand: &Expression<'_>, scope: &Scope<'_>) -> bool
    ensures { result ≡ sign_at (scope_at scope.now) (tree_of operand.now) }
{
    sign_of(operand, scope)
}

/// What stands left of a test: its width, its sign, and its value in the context that the test gives it.
#[derive(Clone, Copy)]
struct Left {
    width: u32,
    signed: bool,
    value: u128,
}

/// The width of the context in which the first operand of a chain of tests is evaluated; `width` is the whole's.
#[cycle(value)]
fn context_width(links: &[TestLink<'_>], scope: &Scope<'_>, own: u32, width: u32) -> u32
    requires narrow { AreTestsNarrow (scope_at scope.now) links.now }
    ensures { result ≡ context_width (scope_at scope.now) own links.now width }
{
    match links {
        [] => width,
        [link, ..] => {
            if is_logical(link.operator) {
                own
            } else {
                own.max(operand_width(&link.operand, scope))
            }
        }
    }
}

/// Whether the first operand of a chain of tests is widened with its sign; `signed` says so of the whole.
fn context_sign(links: &[TestLink<'_>], scope: &Scope<'_>, own: bool, signed: bool) -> bool
    ensures { result ≡ context_sign (scope_at scope.now) own links.now signed }
{
    match links {
        [] => signed,
        [link, ..] => {
            if is_logical(link.operator) {
                own
            } else {
                both(own, operand_sign(&link.operand, scope))
            }
        }
    }
}

/// The value of the expression in a context of `width` bits and this sign.
#[cycle(value)]
fn value_in(
    expression: &Expression<'_>,
    scope: &Scope<'_>,
    values: &[Entry<'_>],
    width: u32,
    signed: bool,
) -> u128
    requires ready { IsReady (scope_at scope.now) (valuation_at values.now) }
    requires narrow { IsNarrow (scope_at scope.now) (tree_of expression.now) }
    requires within { width_at (scope_at scope.now) (tree_of expression.now) ≤ width }
    requires at_most_128 { width ≤ 128 }
    ensures value { result ≡ value_at (scope_at scope.now) (valuation_at values.now) (tree_of expression.now) width signed }
    ensures fits { result < 2 ^ width }
{
    match expression {
        Expression::Number(number) => word::widened(
            signed,
            number.width as u32,
            width,
            number.value,
        ),
        Expression::Name(name, selects) => in_context(
            named(selects, scope, values, name),
            width,
            signed,
        ),
        Expression::Concatenation(parts) => in_context(joined(parts, scope, values), width, signed),
        Expression::Replication(count, parts) => in_context(
            copies(constant_of(count, scope), joined(parts, scope, values)),
            width,
            signed,
        ),
        Expression::AsSigned(operand) => in_context(
            self_value(operand, scope, values),
            width,
            signed,
        ),
        Expression::AsUnsigned(operand) => in_context(
            self_value(operand, scope, values),
            width,
            signed,
        ),
        Expression::Prefix(operators, operand) => prefixed_value(
            operand, scope, values, operators, width, signed,
        ),
        Expression::Binary(first, links) => {
            let left = value_in(first, scope, values, width, signed);
            linked_value(links, scope, values, left, width, signed)
        }
        Expression::Test(first, links) => {
            let own_width = operand_width(first, scope);
            let own_sign = operand_sign(first, scope);
            let first_width = context_width(links, scope, own_width, width);
            let first_sign = context_sign(links, scope, own_sign, signed);
            let value = value_in(first, scope, values, first_width, first_sign);
            let left = Left {
                width: own_width,
                signed: own_sign,
                value,
            };
            tests_value(links, scope, values, left, width)
        }
        Expression::Conditional(choices, last) => {
            match chosen_value(choices, scope, values, width, signed) {
                Some(value) => value,
                None => value_in(last, scope, values, width, signed),
            }
        }
    }
}

/// The expression by itself.
#[cycle(value)]
pub(crate) fn self_value(
    expression: &Expression<'_>,
    scope: &Scope<'_>,
    values: &[Entry<'_>],
) -> Word
    requires ready { IsReady (scope_at scope.now) (valuation_at values.now) }
    requires narrow { IsNarrow (scope_at scope.now) (tree_of expression.now) }
    ensures width { result.width ≡ width_at (scope_at scope.now) (tree_of expression.now) }
    ensures value { result.value ≡ self_at (scope_at scope.now) (valuation_at values.now) (tree_of expression.now) }
{
    let width = operand_width(expression, scope);
    let signed = operand_sign(expression, scope);
    Word::new(width, value_in(expression, scope, values, width, signed))
}

/// The number of a constant, read where no net or variable has a value; one below 0 counts as 0.
#[cycle(value)]
pub(crate) fn constant_of(expression: &Expression<'_>, scope: &Scope<'_>) -> u128
    requires objects { HasNarrowObjects (scope_at scope.now) }
    requires narrow { IsNarrow (scope_at scope.now) (tree_of expression.now) }
    ensures { result ≡ count_at (scope_at scope.now) (tree_of expression.now) }
{
    natural(
        operand_sign(expression, scope),
        self_value(expression, scope, &[]),
    )
}

/// What a name with selects reads.
#[cycle(value)]
fn named(selects: &Selects<'_>, scope: &Scope<'_>, values: &[Entry<'_>], name: &str) -> Word
    requires ready { IsReady (scope_at scope.now) (valuation_at values.now) }
    requires narrow { AreSelectsNarrow (scope_at scope.now) (selects_of selects.now) }
    requires width { IsWidth (selects_width_at (scope_at scope.now) name.now (selects_of selects.now)) }
    ensures width { result.width ≡ selects_width_at (scope_at scope.now) name.now (selects_of selects.now) }
    ensures value { result.value ≡ selected_at (scope_at scope.now) (valuation_at values.now) name.now (selects_of selects.now) }
{
    let object = scope.object(name);
    match selects {
        Selects::Whole => named_value(scope, values, name),
        Selects::One(select) => {
            if object.addresses.is_some() {
                memory_word(scope, values, name, index_of(select, scope, values))
            } else {
                let whole = named_value(scope, values, name);
                bits_of(whole.value, taken_by(select, scope, values, object))
            }
        }
        Selects::Two(address, select) => {
            let word = memory_word(scope, values, name, index_of(address, scope, values));
            bits_of(word.value, taken_by(select, scope, values, object))
        }
    }
}

/// The value of an operand behind operators in a context of `width` bits and this sign.
#[cycle(value)]
fn prefixed_value(
    operand: &Expression<'_>,
    scope: &Scope<'_>,
    values: &[Entry<'_>],
    operators: &[PrefixOperator],
    width: u32,
    signed: bool,
) -> u128
    requires ready { IsReady (scope_at scope.now) (valuation_at values.now) }
    requires narrow { IsNarrow (scope_at scope.now) (tree_of operand.now) }
    requires within { has_reduction operators.now ≡ false → width_at (scope_at scope.now) (tree_of operand.now) ≤ width }
    requires some_bits { 1 ≤ width }
    requires at_most_128 { width ≤ 128 }
    ensures value { result ≡ prefixes_value operators.now width (value_at (scope_at scope.now) (valuation_at values.now) (tree_of operand.now) width signed) (width_at (scope_at scope.now) (tree_of operand.now)) (self_at (scope_at scope.now) (valuation_at values.now) (tree_of operand.now)) }
    ensures fits { result < 2 ^ width }
{
    if reduces(operators) {
        prefixed(operators, width, 0, self_value(operand, scope, values))
    } else {
        let value = value_in(operand, scope, values, width, signed);
        prefixed(operators, width, value, Word::new(width, value))
    }
}

/// The value of a chain whose first operand has this value, in a context of `width` bits and this sign.
#[cycle(value)]
fn linked_value(
    links: &[BinaryLink<'_>],
    scope: &Scope<'_>,
    values: &[Entry<'_>],
    first: u128,
    width: u32,
    signed: bool,
) -> u128
    requires ready { IsReady (scope_at scope.now) (valuation_at values.now) }
    requires narrow { AreLinksNarrow (scope_at scope.now) links.now }
    requires within { AreLinksWithin (scope_at scope.now) width links.now }
    requires some_bits { 1 ≤ width }
    requires at_most_128 { width ≤ 128 }
    requires fits { first < 2 ^ width }
    ensures value { result ≡ links_value (scope_at scope.now) (valuation_at values.now) width signed first links.now }
    ensures fits { result < 2 ^ width }
{
    let mut left = first;
    for link in links {
        left = applied(
            &link.operand,
            scope,
            values,
            link.operator,
            left,
            width,
            signed,
        );
    }
    left
}

/// What an operator makes of a left operand of this value and a right operand.
#[cycle(value)]
fn applied(
    operand: &Expression<'_>,
    scope: &Scope<'_>,
    values: &[Entry<'_>],
    operator: BinaryOperator,
    left: u128,
    width: u32,
    signed: bool,
) -> u128
    requires ready { IsReady (scope_at scope.now) (valuation_at values.now) }
    requires narrow { IsNarrow (scope_at scope.now) (tree_of operand.now) }
    requires within { leaves_to_left operator ≡ false → width_at (scope_at scope.now) (tree_of operand.now) ≤ width }
    requires some_bits { 1 ≤ width }
    requires at_most_128 { width ≤ 128 }
    requires fits { left < 2 ^ width }
    ensures value { result ≡ applied (scope_at scope.now) (valuation_at values.now) operator width signed left (tree_of operand.now) }
    ensures fits { result < 2 ^ width }
{
    if leaves_to_left(operator) {
        let right = self_value(operand, scope, values);
        let right_signed = operand_sign(operand, scope);
        word::by_operand(operator, width, signed, left, right, right_signed)
    } else {
        let right = value_in(operand, scope, values, width, signed);
        word::binary(operator, width, signed, left, right)
    }
}

/// The value behind the first true condition in a context of `width` bits and this sign.
#[cycle(value)]
fn chosen_value(
    choices: &[Choice<'_>],
    scope: &Scope<'_>,
    values: &[Entry<'_>],
    width: u32,
    signed: bool,
) -> Option<u128>
    requires ready { IsReady (scope_at scope.now) (valuation_at values.now) }
    requires narrow { AreChoicesNarrow (scope_at scope.now) choices.now }
    requires within { AreChoicesWithin (scope_at scope.now) width choices.now }
    requires at_most_128 { width ≤ 128 }
    ensures value { result ≡ choices_value (scope_at scope.now) (valuation_at values.now) choices.now width signed }
    ensures fits { IfSome result (λ x. x < 2 ^ width) }
{
    for choice in choices {
        if self_value(&choice.condition, scope, values).value != 0 {
            return Some(value_in(&choice.value, scope, values, width, signed));
        }
    }
    None
}

/// The parts side by side, the first at the high end.
#[cycle(value)]
fn joined(parts: &[Expression<'_>], scope: &Scope<'_>, values: &[Entry<'_>]) -> Word
    requires ready { IsReady (scope_at scope.now) (valuation_at values.now) }
    requires narrow { AreNarrow (scope_at scope.now) (expressions_of parts.now) }
    requires some_bits { 1 ≤ parts_width (scope_at scope.now) parts.now }
    requires at_most_128 { parts_width (scope_at scope.now) parts.now ≤ 128 }
    ensures width { result.width ≡ parts_width (scope_at scope.now) parts.now }
    ensures value { result.value ≡ parts_value (scope_at scope.now) (valuation_at values.now) parts.now }
{
    let mut width = 0;
    let mut value = 0;
    for part in parts {
        let word = self_value(part, scope, values);
        value = extended(width, value, word);
        width += word.width;
    }
    Word::new(width, value)
}

/// The value of a chain of tests in a context of `width` bits.
#[cycle(value)]
fn tests_value(
    links: &[TestLink<'_>],
    scope: &Scope<'_>,
    values: &[Entry<'_>],
    first: Left,
    width: u32,
) -> u128
    requires ready { IsReady (scope_at scope.now) (valuation_at values.now) }
    requires narrow { AreTestsNarrow (scope_at scope.now) links.now }
    requires some_bits { 1 ≤ first.width }
    requires at_most_128 { first.width ≤ 128 }
    requires context { 1 ≤ width }
    requires fits { first.value < 2 ^ context_width (scope_at scope.now) first.width links.now width }
    ensures value { result ≡ tests_value (scope_at scope.now) (valuation_at values.now) first.width first.signed first.value links.now }
    ensures fits { result < 2 ^ width }
{
    let mut left = first;
    for link in links {
        let truth = tested(&link.operand, scope, values, left, link.operator);
        left = Left {
            width: 1,
            signed: false,
            value: word::bit(truth),
        };
    }
    left.value
}

/// What a test says of what stands left of it and a right operand.
#[cycle(value)]
fn tested(
    operand: &Expression<'_>,
    scope: &Scope<'_>,
    values: &[Entry<'_>],
    left: Left,
    operator: TestOperator,
) -> bool
    requires ready { IsReady (scope_at scope.now) (valuation_at values.now) }
    requires narrow { IsNarrow (scope_at scope.now) (tree_of operand.now) }
    requires some_bits { 1 ≤ left.width }
    requires at_most_128 { left.width ≤ 128 }
    requires fits { is_logical operator ≡ false → left.value < 2 ^ max left.width (width_at (scope_at scope.now) (tree_of operand.now)) }
    ensures { result ≡ said (scope_at scope.now) (valuation_at values.now) operator left.width left.signed left.value (tree_of operand.now) }
{
    if is_logical(operator) {
        let right = self_value(operand, scope, values);
        word::logical(operator, left.value != 0, right.value != 0)
    } else {
        compared(operand, scope, values, left, operator)
    }
}

/// What a comparison says of what stands left of it and a right operand, both widened to the wider of them.
#[cycle(value)]
fn compared(
    operand: &Expression<'_>,
    scope: &Scope<'_>,
    values: &[Entry<'_>],
    left: Left,
    operator: TestOperator,
) -> bool
    requires ready { IsReady (scope_at scope.now) (valuation_at values.now) }
    requires narrow { IsNarrow (scope_at scope.now) (tree_of operand.now) }
    requires some_bits { 1 ≤ left.width }
    requires at_most_128 { left.width ≤ 128 }
    requires fits { left.value < 2 ^ max left.width (width_at (scope_at scope.now) (tree_of operand.now)) }
    ensures { result ≡ compared_said (scope_at scope.now) (valuation_at values.now) operator left.width left.signed left.value (tree_of operand.now) }
{
    let width = left.width.max(operand_width(operand, scope));
    let signed = both(left.signed, operand_sign(operand, scope));
    let right = value_in(operand, scope, values, width, signed);
    word::compared(operator, signed, width, left.value, right)
}

/// The value of the expression in a context of `width` bits, at most 128 and no fewer than its own, where `signed` says
/// whether its operands are widened with their sign.
pub fn value_in_context(
    expression: &Expression<'_>,
    scope: &Scope<'_>,
    values: &[Entry<'_>],
    width: u32,
    signed: bool,
) -> u128
    requires objects { HasNarrowObjects (scope_at scope.now) }
    requires values { HasFittingValues (scope_at scope.now) (valuation_at values.now) }
    requires narrow { IsNarrow (scope_at scope.now) (tree_of expression.now) }
    requires within { meaning.width_of (scope_at scope.now) (tree_of expression.now) ≤ width }
    requires at_most_128 { width ≤ 128 }
    ensures value { result ≡ meaning.value_of (scope_at scope.now) (valuation_at values.now) (tree_of expression.now) width signed }
    ensures fits { result < 2 ^ width }
{
    value_in(expression, scope, values, width, signed)
}

/// The expression by itself, as the meaning has it.
pub(crate) fn self_word(
    expression: &Expression<'_>,
    scope: &Scope<'_>,
    values: &[Entry<'_>],
) -> Word
    requires objects { HasNarrowObjects (scope_at scope.now) }
    requires values { HasFittingValues (scope_at scope.now) (valuation_at values.now) }
    requires narrow { IsNarrow (scope_at scope.now) (tree_of expression.now) }
    ensures width { result.width ≡ meaning.width_of (scope_at scope.now) (tree_of expression.now) }
    ensures value { result.value ≡ meaning.self_value (scope_at scope.now) (valuation_at values.now) (tree_of expression.now) }
{
    self_value(expression, scope, values)
}

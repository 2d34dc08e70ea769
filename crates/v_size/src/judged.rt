//! Which rules expressions break, and their widths, one after the other down the tree.
ghost use Rattle.std.specs.Prelude.{◌≡◌, ◌&&◌, false, Some};
ghost use Rattle.std.proofs.Props.{props};
ghost use Rattle.v_size.specs.declared.rule.Position.TheVariants.{Anywhere, Constant};
ghost use Rattle.verilog_rules.specs.Expression as rules;
ghost use Rattle.v_value.specs.Scope.{object_of, scope_at};
ghost use Rattle.v_value.specs.Narrow.{HasNarrowObjects};
ghost use Rattle.v_value.specs.Links.{is_reduction, has_reduction, leaves_to_left};
ghost use Rattle.v_value.specs.Evaluation.{is_logical, sign_at};
ghost use Rattle.v_syntax.specs.Tree.{tree_of, select_of, selects_of};
ghost use Rattle.v_size.specs.Rule.{coded, both, position_of, number_at};
ghost use Rattle.v_size.specs.Judged.{own_place, sized_at, judged_at, itself_at, constant_broken_at, constant_number_at, regarded, one_bit, is_none_before, kept, prefixed_at, fits_context, divisor_test, exponent_test, constant_rule, divisor_at, exponent_at, right_at, applied, links_judged, test_place, first_place, tested_at, tests_judged, with_choice, choices_judged, with_part, no_parts, parts_judged, joined, repeated, counted, select_broken_at, taken_by, taken_at, single, bounded, many, name_at};

use crate::rule::{Broken, Judged, Position, also, constant_if, is_unbroken, nothing};
use crate::select::{Bits, Selected, by_name, number_judged, one_judged, two_judged, whole_judged};
use crate::total::{
    added, by_total, copies, fitting, is_number_below_one, is_number_below_zero, wider,
};
use v_syntax::tree::{
    BinaryLink, BinaryOperator, Choice, Expression, PrefixOperator, Select, Selects, TestLink,
    TestOperator,
};
use v_value::scope::{Object, Scope};
use v_value::select::Integer;
use v_value::sign::sign_of;
use v_value::taken::integer_of;
use v_value::value::value_in_context;

/// A scope, all of whose objects fit words.
#[derive(Clone, Copy)]
pub struct Names<'s, 't> {
    pub scope: &'s Scope<'t>,
    pub ghost narrow: { HasNarrowObjects (scope_at scope.now) } by { Prim.hlevel props },
}

/// What stands left of a test: the rules that it breaks, its width and its sign, and whether it is a number without a size.
#[derive(Clone, Copy, PartialEq, Eq, Debug)]
pub(crate) struct Left {
    pub(crate) broken: Broken,
    pub(crate) width: Option<u32>,
    pub(crate) signed: bool,
    pub(crate) unsized_number: bool,
}

/// A constant: the rules that it breaks, and its number, where it breaks none.
#[derive(Clone, Copy, PartialEq, Eq, Debug)]
pub struct ConstantNumber {
    pub broken: Broken,
    pub number: Option<Integer>,
}

/// Whether the operator makes one bit of a whole operand.
fn is_reduction(operator: PrefixOperator) -> bool
    ensures { result ≡ is_reduction operator }
{
    !matches!(
        operator,
        PrefixOperator::Plus | PrefixOperator::Minus | PrefixOperator::Complement
    )
}

/// Whether one of the operators makes one bit of a whole operand.
fn reduces(operators: &[PrefixOperator]) -> bool
    ensures { result ≡ has_reduction operators.now }
{
    for operator in operators {
        if is_reduction(*operator) {
            return true;
        }
    }
    false
}

/// Whether the operator leaves its width to the left operand alone.
fn leaves_to_left(operator: BinaryOperator) -> bool
    ensures { result ≡ leaves_to_left operator }
{
    matches!(
        operator,
        BinaryOperator::Power
            | BinaryOperator::ShiftLeft
            | BinaryOperator::ShiftRight
            | BinaryOperator::ArithmeticShiftRight
    )
}

/// Whether the operator is `&&` or `||`.
fn is_logical(operator: TestOperator) -> bool
    ensures { result ≡ is_logical operator }
{
    matches!(operator, TestOperator::Both | TestOperator::Either)
}

/// The same place in the context of another width and sign.
fn own_place(place: Position, width: Option<u32>, signed: bool) -> Position
    ensures { result ≡ own_place place width signed }
{
    match place {
        Position::Anywhere => Position::Anywhere,
        Position::Constant(_, _) => Position::Constant(width, signed),
    }
}

/// The sign of an operand.
fn operand_sign(operand: &Expression<'_>, names: Names<'_, '_>) -> bool
    ensures { result ≡ sign_at (scope_at names.entry.scope.now) (tree_of operand.now) }
{
    sign_of(operand, names.scope)
}

/// An operand that is widened by its own sign or width alone.
fn regarded(operand: Judged) -> Judged
    ensures { result ≡ regarded operand }
{
    Judged {
        broken: operand.broken,
        width: operand.width,
        unsized_number: false,
    }
}

/// An operand of which one bit is made.
fn one_bit(operand: Judged) -> Judged
    ensures { result ≡ one_bit operand }
{
    Judged {
        broken: operand.broken,
        width: Some(1),
        unsized_number: false,
    }
}

/// An operand after operators that keep its width, if any.
fn kept(operators: &[PrefixOperator], operand: Judged) -> Judged
    ensures { result ≡ kept (is_none_before operators.now) operand }
{
    if operators.is_empty() {
        operand
    } else {
        regarded(operand)
    }
}

/// An operand that breaks a rule on constants besides, where `broken` says so.
fn constant_rule(broken: bool, operand: Judged) -> Judged
    ensures { result ≡ constant_rule broken operand }
{
    Judged {
        broken: also(constant_if(broken), operand.broken),
        ..operand
    }
}

/// The number of a constant, which breaks these rules in the context of its own width and sign.
fn number_of(constant: &Expression<'_>, names: Names<'_, '_>, broken: Broken) -> Option<Integer>
    requires { broken ≡ constant_broken_at (scope_at names.scope.now) (tree_of constant.now) }
    ensures { number_at result ≡ constant_number_at (scope_at names.entry.scope.now) (tree_of constant.now) }
{
    if is_unbroken(broken) {
        Some(integer_of(constant, names.scope, &[]))
    } else {
        None
    }
}

/// Whether an exponent that breaks these rules by itself is refused: where no constant is wanted, and where it is below 0.
fn is_bad_exponent(
    exponent: &Expression<'_>,
    names: Names<'_, '_>,
    place: Position,
    broken: Broken,
) -> bool
    requires { broken ≡ (itself_at (scope_at names.scope.now) place (tree_of exponent.now)).broken }
    ensures { result ≡ exponent_test (scope_at names.entry.scope.now) place (tree_of exponent.now) broken }
{
    match place {
        Position::Anywhere => true,
        Position::Constant(_, _) => is_number_below_zero(number_of(exponent, names, broken)),
    }
}

/// Whether an expression of this width, where it has one, fits a context of `width` bits, at most 128.
fn fits_context(own: Option<u32>, width: u32) -> bool
    ensures { result ≡ fits_context own width }
{
    match own {
        Some(own) => own <= width && width <= 128,
        None => false,
    }
}

/// Whether a constant that breaks these rules in a context is 0 there. It has a value where it breaks none, and the context is no
/// narrower than it and has at most 128 bits.
fn is_zero(
    constant: &Expression<'_>,
    names: Names<'_, '_>,
    judged: Judged,
    width: u32,
    signed: bool,
) -> bool
    requires { judged ≡ judged_at (scope_at names.scope.now) (Constant (Some width) signed) (tree_of constant.now) }
    ensures { result ≡ divisor_test (scope_at names.entry.scope.now) (Constant (Some width) signed) (tree_of constant.now) judged.broken }
{
    if !is_unbroken(judged.broken) {
        return false;
    }
    if !fits_context(judged.width, width) {
        return false;
    }
    value_in_context(constant, names.scope, &[], width, signed) == 0
}

/// The same where the context may have no width.
fn is_zero_constant(
    constant: &Expression<'_>,
    names: Names<'_, '_>,
    judged: Judged,
    width: Option<u32>,
    signed: bool,
) -> bool
    requires { judged ≡ judged_at (scope_at names.scope.now) (Constant width signed) (tree_of constant.now) }
    ensures { result ≡ divisor_test (scope_at names.entry.scope.now) (Constant width signed) (tree_of constant.now) judged.broken }
{
    match width {
        Some(width) => is_zero(constant, names, judged, width, signed),
        None => false,
    }
}

/// Whether a divisor is refused: where no constant is wanted, and where it is 0.
fn is_bad_divisor(
    divisor: &Expression<'_>,
    names: Names<'_, '_>,
    place: Position,
    judged: Judged,
) -> bool
    requires { judged ≡ judged_at (scope_at names.scope.now) place (tree_of divisor.now) }
    ensures { result ≡ divisor_test (scope_at names.entry.scope.now) place (tree_of divisor.now) judged.broken }
{
    match place {
        Position::Anywhere => true,
        Position::Constant(width, signed) => is_zero_constant(
            divisor, names, judged, width, signed,
        ),
    }
}

/// An operator between two operands.
fn applied(operator: BinaryOperator, left: Judged, right: Judged) -> Judged
    ensures { result ≡ applied operator left right }
{
    let width = if leaves_to_left(operator) {
        left.width
    } else {
        wider(left.width, right.width)
    };
    Judged {
        broken: also(left.broken, right.broken),
        width,
        unsized_number: false,
    }
}

/// Whether both hold.
fn both(x: bool, y: bool) -> bool
    ensures { result ≡ (x && y) }
{
    x && y
}

/// Where the right operand of a test stands: `width` and `signed` are the left's, `own` and `own_signed` its own.
fn test_place(
    place: Position,
    operator: TestOperator,
    width: Option<u32>,
    signed: bool,
    own: Option<u32>,
    own_signed: bool,
) -> Position
    ensures { result ≡ test_place place operator width signed own own_signed }
{
    if is_logical(operator) {
        own_place(place, own, own_signed)
    } else {
        own_place(place, wider(width, own), both(signed, own_signed))
    }
}

/// What stands left of the next test, where this is `left` and the right operand breaks these rules.
fn after_test(left: Left, broken: Broken) -> Left
    ensures { result ≡ record { broken = both left.broken broken; width = Some 1; signed = false; unsized_number = false } }
{
    Left {
        broken: also(left.broken, broken),
        width: Some(1),
        signed: false,
        unsized_number: false,
    }
}

/// A condition with its value before what stands after it.
fn with_choice(after: Judged, condition: Judged, value: Judged) -> Judged
    ensures { result ≡ with_choice after condition value }
{
    Judged {
        broken: also(also(condition.broken, value.broken), after.broken),
        width: wider(value.width, after.width),
        unsized_number: false,
    }
}

/// A part after others.
fn with_part(before: Judged, part: Judged) -> Judged
    ensures { result ≡ with_part before part }
{
    Judged {
        broken: also(
            before.broken,
            also(constant_if(part.unsized_number), part.broken),
        ),
        width: added(before.width, part.width),
        unsized_number: false,
    }
}

/// No parts.
fn no_parts() -> Judged
    ensures { result ≡ no_parts }
{
    Judged {
        broken: nothing(),
        width: Some(0),
        unsized_number: false,
    }
}

/// Parts side by side.
fn joined(parts: Judged) -> Judged
    ensures { result ≡ joined parts }
{
    Judged {
        broken: also(by_total(parts.width), parts.broken),
        width: fitting(parts.width),
        unsized_number: false,
    }
}

/// Copies of parts side by side.
fn repeated(count: ConstantNumber, parts: Judged) -> Judged
    ensures { result ≡ repeated count.broken (number_at count.number) parts }
{
    let total = copies(count.number, parts.width);
    Judged {
        broken: also(counted(count), also(by_total(total), parts.broken)),
        width: fitting(total),
        unsized_number: false,
    }
}

/// What a count breaks, also where it is below 1.
fn counted(count: ConstantNumber) -> Broken
    ensures { result ≡ counted count.broken (number_at count.number) }
{
    also(constant_if(is_number_below_one(count.number)), count.broken)
}

/// What an index takes: one bit.
fn one_taken(index: Judged) -> Selected
    ensures broken { result.broken ≡ index.broken }
    ensures bits { taken_by result.bits ≡ single }
{
    Selected {
        broken: index.broken,
        bits: Bits::One,
    }
}

/// What a part select takes: the bits between two bounds.
fn between(left: ConstantNumber, right: ConstantNumber) -> Selected
    ensures broken { result.broken ≡ both left.broken right.broken }
    ensures bits { taken_by result.bits ≡ bounded (number_at left.number) (number_at right.number) }
{
    Selected {
        broken: also(left.broken, right.broken),
        bits: Bits::Between(left.number, right.number),
    }
}

/// What a select of so many bits from a base takes.
fn many_taken(base: Judged, count: ConstantNumber) -> Selected
    ensures broken { result.broken ≡ both base.broken (counted count.broken (number_at count.number)) }
    ensures bits { taken_by result.bits ≡ many (number_at count.number) }
{
    Selected {
        broken: also(base.broken, counted(count)),
        bits: Bits::Count(count.number),
    }
}

/// What an expression in this place breaks, and its width.
#[cycle(judged)]
pub(crate) fn judge(expression: &Expression<'_>, names: Names<'_, '_>, place: Position) -> Judged
    ensures { result ≡ judged_at (scope_at names.entry.scope.now) place (tree_of expression.now) }
{
    match expression {
        Expression::Number(number) => number_judged(number),
        Expression::Name(name, selects) => named(selects, names, place, names.scope.object(name)),
        Expression::Concatenation(parts) => joined(parts_judged(parts, names, place)),
        Expression::Replication(count, parts) => repeated(
            judged_constant(count, names),
            parts_judged(parts, names, place),
        ),
        Expression::AsSigned(operand) => regarded(by_itself(operand, names, place)),
        Expression::AsUnsigned(operand) => regarded(by_itself(operand, names, place)),
        Expression::Prefix(operators, operand) => prefixed(operand, names, place, operators),
        Expression::Binary(first, links) => links_judged(
            links,
            names,
            place,
            judge(first, names, place),
        ),
        Expression::Test(first, links) => {
            let own = judge(first, names, Position::Anywhere);
            let signed = operand_sign(first, names);
            let first_place = first_place(links, names, place, own.width, signed);
            let judged = in_place(first, names, first_place, own);
            let left = Left {
                broken: judged.broken,
                width: own.width,
                signed,
                unsized_number: own.unsized_number,
            };
            tests_judged(links, names, place, left)
        }
        Expression::Conditional(choices, last) => choices_judged(
            choices,
            names,
            place,
            judge(last, names, place),
        ),
    }
}

/// The same expression in another place, where `own` is what it is anywhere.
#[cycle(judged)]
fn in_place(
    expression: &Expression<'_>,
    names: Names<'_, '_>,
    place: Position,
    own: Judged,
) -> Judged
    requires { own ≡ judged_at (scope_at names.scope.now) Anywhere (tree_of expression.now) }
    ensures { result ≡ judged_at (scope_at names.entry.scope.now) place (tree_of expression.now) }
{
    match place {
        Position::Anywhere => own,
        Position::Constant(width, signed) => judge(
            expression,
            names,
            Position::Constant(width, signed),
        ),
    }
}

/// An expression by itself.
#[cycle(judged)]
fn by_itself(expression: &Expression<'_>, names: Names<'_, '_>, place: Position) -> Judged
    ensures { result ≡ itself_at (scope_at names.entry.scope.now) place (tree_of expression.now) }
{
    let own = judge(expression, names, Position::Anywhere);
    let signed = operand_sign(expression, names);
    in_place(expression, names, own_place(place, own.width, signed), own)
}

/// A constant, in the context of its own width and sign.
#[cycle(judged)]
pub(crate) fn judged_constant(expression: &Expression<'_>, names: Names<'_, '_>) -> ConstantNumber
    ensures broken { result.broken ≡ constant_broken_at (scope_at names.entry.scope.now) (tree_of expression.now) }
    ensures number { number_at result.number ≡ constant_number_at (scope_at names.entry.scope.now) (tree_of expression.now) }
{
    let judged = by_itself(expression, names, Position::Constant(None, false));
    ConstantNumber {
        broken: judged.broken,
        number: number_of(expression, names, judged.broken),
    }
}

/// An operand after operators.
#[cycle(judged)]
fn prefixed(
    operand: &Expression<'_>,
    names: Names<'_, '_>,
    place: Position,
    operators: &[PrefixOperator],
) -> Judged
    ensures { result ≡ prefixed_at (scope_at names.entry.scope.now) place operators.now (tree_of operand.now) }
{
    if reduces(operators) {
        one_bit(by_itself(operand, names, place))
    } else {
        kept(operators, judge(operand, names, place))
    }
}

/// The right operand of an operator.
#[cycle(judged)]
fn right(
    operand: &Expression<'_>,
    names: Names<'_, '_>,
    place: Position,
    operator: BinaryOperator,
) -> Judged
    ensures { result ≡ right_at (scope_at names.entry.scope.now) place operator (tree_of operand.now) }
{
    match operator {
        BinaryOperator::Power => exponent(operand, names, place),
        BinaryOperator::ShiftLeft => by_itself(operand, names, place),
        BinaryOperator::ShiftRight => by_itself(operand, names, place),
        BinaryOperator::ArithmeticShiftRight => by_itself(operand, names, place),
        BinaryOperator::Divide => divisor(operand, names, place),
        BinaryOperator::Modulo => divisor(operand, names, place),
        _ => judge(operand, names, place),
    }
}

/// An exponent.
#[cycle(judged)]
fn exponent(operand: &Expression<'_>, names: Names<'_, '_>, place: Position) -> Judged
    ensures { result ≡ exponent_at (scope_at names.entry.scope.now) place (tree_of operand.now) }
{
    let judged = by_itself(operand, names, place);
    constant_rule(
        is_bad_exponent(operand, names, place, judged.broken),
        judged,
    )
}

/// A divisor.
#[cycle(judged)]
fn divisor(operand: &Expression<'_>, names: Names<'_, '_>, place: Position) -> Judged
    ensures { result ≡ divisor_at (scope_at names.entry.scope.now) place (tree_of operand.now) }
{
    let judged = judge(operand, names, place);
    constant_rule(is_bad_divisor(operand, names, place, judged), judged)
}

/// A chain after its first operand.
#[cycle(judged)]
fn links_judged(
    links: &[BinaryLink<'_>],
    names: Names<'_, '_>,
    place: Position,
    first: Judged,
) -> Judged
    ensures { result ≡ links_judged (scope_at names.entry.scope.now) place first links.now }
{
    let mut left = first;
    for link in links {
        left = applied(
            link.operator,
            left,
            right(&link.operand, names, place, link.operator),
        );
    }
    left
}

/// Where the first operand of a chain of tests stands, whose width and sign these are.
#[cycle(judged)]
fn first_place(
    links: &[TestLink<'_>],
    names: Names<'_, '_>,
    place: Position,
    width: Option<u32>,
    signed: bool,
) -> Position
    ensures { result ≡ first_place (scope_at names.entry.scope.now) place width signed links.now }
{
    match place {
        Position::Anywhere => Position::Anywhere,
        Position::Constant(own, own_signed) => first_context(
            links,
            names,
            Position::Constant(own, own_signed),
            width,
            signed,
        ),
    }
}

/// The same where a constant is wanted.
#[cycle(judged)]
fn first_context(
    links: &[TestLink<'_>],
    names: Names<'_, '_>,
    place: Position,
    width: Option<u32>,
    signed: bool,
) -> Position
    ensures { result ≡ first_place (scope_at names.entry.scope.now) place width signed links.now }
{
    match links {
        [] => place,
        [link, ..] => {
            if is_logical(link.operator) {
                own_place(place, width, signed)
            } else {
                right_context(&link.operand, names, place, width, signed)
            }
        }
    }
}

/// The place in the context of what has this width and sign and of a right operand.
#[cycle(judged)]
fn right_context(
    operand: &Expression<'_>,
    names: Names<'_, '_>,
    place: Position,
    width: Option<u32>,
    signed: bool,
) -> Position
    ensures { result ≡ own_place place (rules.wider width (sized_at (scope_at names.entry.scope.now) (tree_of operand.now))) (signed && sign_at (scope_at names.entry.scope.now) (tree_of operand.now)) }
{
    let right = judge(operand, names, Position::Anywhere);
    let right_signed = operand_sign(operand, names);
    own_place(place, wider(width, right.width), both(signed, right_signed))
}

/// A chain of tests after its first operand.
#[cycle(judged)]
fn tests_judged(
    links: &[TestLink<'_>],
    names: Names<'_, '_>,
    place: Position,
    first: Left,
) -> Judged
    ensures { result ≡ tests_judged (scope_at names.entry.scope.now) place first links.now }
{
    let mut left = first;
    for link in links {
        left = after_test(
            left,
            tested(
                &link.operand,
                names,
                place,
                left.width,
                left.signed,
                link.operator,
            ),
        );
    }
    Judged {
        broken: left.broken,
        width: left.width,
        unsized_number: left.unsized_number,
    }
}

/// What the right operand of a test breaks, where the left has this width and sign.
#[cycle(judged)]
fn tested(
    operand: &Expression<'_>,
    names: Names<'_, '_>,
    place: Position,
    width: Option<u32>,
    signed: bool,
    operator: TestOperator,
) -> Broken
    ensures { result ≡ tested_at (scope_at names.entry.scope.now) place width signed operator (tree_of operand.now) }
{
    let own = judge(operand, names, Position::Anywhere);
    let own_signed = operand_sign(operand, names);
    let operand_place = test_place(place, operator, width, signed, own.width, own_signed);
    in_place(operand, names, operand_place, own).broken
}

/// Conditions with their values before a last value.
#[cycle(judged)]
fn choices_judged(
    choices: &[Choice<'_>],
    names: Names<'_, '_>,
    place: Position,
    last: Judged,
) -> Judged
    ensures { result ≡ choices_judged (scope_at names.entry.scope.now) place last choices.now }
{
    let mut all = last;
    for choice in choices {
        all = with_choice(
            all,
            by_itself(&choice.condition, names, place),
            judge(&choice.value, names, place),
        );
    }
    all
}

/// Parts side by side.
#[cycle(judged)]
fn parts_judged(parts: &[Expression<'_>], names: Names<'_, '_>, place: Position) -> Judged
    ensures { result ≡ parts_judged (scope_at names.entry.scope.now) place no_parts parts.now }
{
    let mut all = no_parts();
    for part in parts {
        all = with_part(all, by_itself(part, names, place));
    }
    all
}

/// A name with what stands after it.
#[cycle(judged)]
pub(crate) fn named(
    selects: &Selects<'_>,
    names: Names<'_, '_>,
    place: Position,
    object: Object,
) -> Judged
    ensures { result ≡ name_at (scope_at names.entry.scope.now) place (object_of object) (selects_of selects.now) }
{
    let own = by_name(place, object, selects);
    match selects {
        Selects::Whole => whole_judged(own, object),
        Selects::One(select) => one_judged(own, object, selected(select, names, place)),
        Selects::Two(first, second) => two_judged(
            own,
            object,
            selected(first, names, place).broken,
            selected(second, names, place),
        ),
    }
}

/// What the expressions in a select break, and the bits that it takes.
#[cycle(judged)]
fn selected(select: &Select<'_>, names: Names<'_, '_>, place: Position) -> Selected
    ensures broken { result.broken ≡ select_broken_at (scope_at names.entry.scope.now) place (select_of select.now) }
    ensures bits { taken_by result.bits ≡ taken_at (scope_at names.entry.scope.now) (select_of select.now) }
{
    match select {
        Select::Index(index) => one_taken(by_itself(index, names, place)),
        Select::Part(left, right) => between(
            judged_constant(left, names),
            judged_constant(right, names),
        ),
        Select::PartUp(base, count) => many_taken(
            by_itself(base, names, place),
            judged_constant(count, names),
        ),
        Select::PartDown(base, count) => many_taken(
            by_itself(base, names, place),
            judged_constant(count, names),
        ),
    }
}

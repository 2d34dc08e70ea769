//! The objects of parameters: a value in its context, and an overriding value carried over.
ghost use Rattle.std.specs.Prelude.{◌≡◌, ◌||◌, ◌≤◌, ◌+◌, max, IfSome, option_map, true, Some};
ghost use Rattle.verilog_meaning.specs.Expression.{object_width, no_values, widened, distance, assigned_value};
ghost use Rattle.verilog_meaning.specs.Hierarchy.{parameter_object};
ghost use Rattle.verilog_rules.specs.Expression.{wider};
ghost use Rattle.v_value.specs.Scope.{object_of, scope_at};
ghost use Rattle.v_value.specs.Narrow.{IsNarrow, IsNarrowObject};
ghost use Rattle.v_syntax.specs.Tree.{tree_of};
ghost use Rattle.v_size.specs.Rule.{position_of};
ghost use Rattle.v_constants.specs.Given.{value_of};
ghost use Rattle.v_constants.specs.Values.{fitting, range_width, context_width, place_at, numbered, own_at, ranged_at, valued_at, parameter_at, carried, overridden_by, replaced, one_by};

use crate::given::Override;
use v_scopes::Bounds;
use v_size::{Names, Position, is_unbroken, judged_in};
use v_syntax::tree::Expression;
use v_value::scope::Object;
use v_value::sign::sign_of;
use v_value::value::value_in_context;
use v_value::width::{object_width, width_of};
use wb_bits::Word;

/// How the parameters of a declaration are declared. A range of more than 128 bits counts as one without a value.
#[derive(Clone, Copy)]
pub(crate) struct Form {
    pub(crate) is_local: bool,
    pub(crate) signed: bool,
    pub(crate) range: Bounds,
    pub(crate) ghost fits: { range_width range ≤ 128 },
}

/// Whether one of the two holds.
fn either(x: bool, y: bool) -> bool
    ensures { result ≡ (x || y) }
{
    x || y
}

/// The range of parameters: one of more than 128 bits counts as one without a value.
pub(crate) fn fitting(range: Bounds) -> Bounds
    ensures fitting { result ≡ fitting range }
    ensures fits { range_width result ≤ 128 }
{
    match range {
        Bounds::Absent => range,
        Bounds::Unknown => range,
        Bounds::Known(left, right) => {
            if left.max(right) - left.min(right) < 128 {
                range
            } else {
                Bounds::Unknown
            }
        }
    }
}

/// How many bits a range has.
fn bits_of(left: u32, right: u32) -> u32
    requires { distance left right + 1 ≤ 128 }
    ensures { result ≡ distance left right + 1 }
{
    left.max(right) - left.min(right) + 1
}

/// The wider of two widths, where the second is there.
fn wider(width: u32, own: Option<u32>) -> Option<u32>
    ensures { result ≡ wider (Some width) own }
{
    match own {
        Some(own) => Some(width.max(own)),
        None => None,
    }
}

/// The width of the context of a parameter's value whose own width is this, if it has one.
fn context_width(range: Bounds, own: Option<u32>) -> Option<u32>
    requires { range_width range ≤ 128 }
    ensures { result ≡ context_width range own }
{
    match range {
        Bounds::Absent => own,
        Bounds::Unknown => own,
        Bounds::Known(left, right) => wider(bits_of(left, right), own),
    }
}

/// Where a parameter's value stands: a constant, in the context of the range that is declared, if one is.
fn place_of(value: &Expression<'_>, names: Names<'_, '_>, range: Bounds) -> Position
    requires { range_width range ≤ 128 }
    ensures { position_of result ≡ place_at (scope_at names.entry.scope.now) range (tree_of value.now) }
{
    let own = judged_in(value, names, Position::Anywhere);
    let signed = sign_of(value, names.scope);
    Position::Constant(context_width(range, own.1), signed)
}

/// A parameter of this range with a number.
fn numbered(signed: bool, left: u32, right: u32, number: u128) -> Object
    ensures { object_of result ≡ numbered signed (left, right) number }
{
    Object {
        is_declared: true,
        signed,
        has_range: true,
        left,
        right,
        addresses: None,
        constant: Some(number),
    }
}

/// A parameter without a range, of this value.
fn own_object(value: &Expression<'_>, names: Names<'_, '_>, signed: bool) -> Object
    requires narrow { IsNarrow (scope_at names.scope.now) (tree_of value.now) }
    ensures value { object_of result ≡ own_at (scope_at names.entry.scope.now) signed (tree_of value.now) }
    ensures narrow { IsNarrowObject (object_of result) }
{
    let width = width_of(value, names.scope);
    let own_sign = sign_of(value, names.scope);
    let number = value_in_context(value, names.scope, &[], width, own_sign);
    numbered(either(signed, own_sign), width.saturating_sub(1), 0, number)
}

/// A parameter with a range, of this value.
fn ranged_object(
    value: &Expression<'_>,
    names: Names<'_, '_>,
    signed: bool,
    left: u32,
    right: u32,
) -> Object
    requires fits { distance left right + 1 ≤ 128 }
    requires narrow { IsNarrow (scope_at names.scope.now) (tree_of value.now) }
    ensures value { object_of result ≡ ranged_at (scope_at names.entry.scope.now) signed left right (tree_of value.now) }
    ensures narrow { IsNarrowObject (object_of result) }
{
    let width = bits_of(left, right);
    let context = width.max(width_of(value, names.scope));
    let own_sign = sign_of(value, names.scope);
    let number = value_in_context(value, names.scope, &[], context, own_sign);
    numbered(signed, left, right, Word::lowest_bits(width, number).value)
}

/// The parameter that a value makes, which breaks no rule in its place.
fn valued(
    value: &Expression<'_>,
    names: Names<'_, '_>,
    signed: bool,
    range: Bounds,
) -> Option<Object>
    requires fits { range_width range ≤ 128 }
    requires narrow { IsNarrow (scope_at names.scope.now) (tree_of value.now) }
    ensures value { option_map object_of result ≡ valued_at (scope_at names.entry.scope.now) signed range (tree_of value.now) }
    ensures narrow { IfSome result (λ o. IsNarrowObject (object_of o)) }
{
    match range {
        Bounds::Absent => Some(own_object(value, names, signed)),
        Bounds::Unknown => None,
        Bounds::Known(left, right) => Some(ranged_object(value, names, signed, left, right)),
    }
}

/// A parameter of this value, where it has one.
pub(crate) fn parameter(
    value: &Expression<'_>,
    names: Names<'_, '_>,
    signed: bool,
    range: Bounds,
) -> Option<Object>
    requires { range_width range ≤ 128 }
    ensures value { option_map object_of result ≡ parameter_at (scope_at names.entry.scope.now) signed range (tree_of value.now) }
    ensures narrow { IfSome result (λ o. IsNarrowObject (object_of o)) }
{
    let place = place_of(value, names, range);
    let judged = judged_in(value, names, place);
    if !is_unbroken(judged.0) {
        return None;
    }
    valued(value, names, signed, range)
}

/// A word in a wider context, with its sign bit where it is signed.
fn widened(signed: bool, word: Word, width: u32) -> Word
    requires wider { word.width ≤ width }
    requires at_most_128 { width ≤ 128 }
    ensures { result.value ≡ widened signed word.width width word.value }
{
    if signed {
        wb_bits::sext(width, word)
    } else {
        wb_bits::zext(width, word)
    }
}

/// The number that overrides a parameter of so many bits.
fn carried(given: Object, width: u32) -> Word
    requires narrow { IsNarrowObject (object_of given) }
    requires some_bits { 1 ≤ width }
    requires at_most_128 { width ≤ 128 }
    ensures width { result.width ≡ width }
    ensures value { result.value ≡ carried (object_of given) width }
{
    let own = object_width(given);
    let word = Word::new(own, given.constant.unwrap_or(0));
    let wide = widened(given.signed, word, own.max(width));
    Word::lowest_bits(width, wide.value)
}

/// A parameter that is overridden by this value, where its range has one.
fn overridden(signed: bool, range: Bounds, given: Object) -> Option<Object>
    requires fits { range_width range ≤ 128 }
    requires narrow { IsNarrowObject (object_of given) }
    ensures value { option_map object_of result ≡ overridden_by signed range (object_of given) }
    ensures narrow { IfSome result (λ o. IsNarrowObject (object_of o)) }
{
    match range {
        Bounds::Absent => Some(Object {
            signed: either(signed, given.signed),
            ..given
        }),
        Bounds::Unknown => None,
        Bounds::Known(left, right) => Some(numbered(
            signed,
            left,
            right,
            carried(given, bits_of(left, right)).value,
        )),
    }
}

/// A parameter that is overridden by this, where it has a value.
fn replaced(form: Form, given: Override<'_>) -> Option<Object>
    ensures value { option_map object_of result ≡ replaced form.signed form.range (value_of given.entry) }
    ensures narrow { IfSome result (λ o. IsNarrowObject (object_of o)) }
{
    match given.value {
        Some(object) => overridden(form.signed, form.range, object),
        None => None,
    }
}

/// A parameter of this value, or overridden, where it has a value then.
pub(crate) fn one(
    value: &Expression<'_>,
    names: Names<'_, '_>,
    form: Form,
    given: Option<Override<'_>>,
) -> Option<Object>
    ensures value { option_map object_of result ≡ one_by (scope_at names.entry.scope.now) form.signed form.range (tree_of value.now) (option_map value_of given.entry) }
    ensures narrow { IfSome result (λ o. IsNarrowObject (object_of o)) }
{
    match given {
        Some(given) => replaced(form, given),
        None => parameter(value, names, form.signed, form.range),
    }
}

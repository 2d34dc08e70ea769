//! What names and selects break by themselves, once the numbers of the constants in them are known.
ghost use Rattle.std.specs.Prelude.{◌≡◌, ◌&&◌, ◌+◌, ◌^◌, ◌≤◌, not, nat_le, nat_lt, Some, int_lt};
ghost use Rattle.verilog_meaning.specs.Expression.{object_width};
ghost use Rattle.verilog_rules.specs.Expression as rules;
ghost use Rattle.v_value.specs.Scope.{object_of};
ghost use Rattle.v_value.specs.Index.{integer_at};
ghost use Rattle.v_syntax.specs.Tree.{number_of, select_of, selects_of};
ghost use Rattle.v_size.specs.Rule.{coded, both, position_of, number_at};
ghost use Rattle.v_size.specs.Judged.{number_judged, capped, fitting, taken_of, taken_by, bits_broken, read_width, whole_judged, one_judged, two_judged};

use crate::rule::{Broken, Judged, Position, also, nothing, select_if, width_if};
use crate::total::{copies, fitting};
use v_syntax::tree::{Number, Select, Selects};
use v_value::scope::Object;
use v_value::select::Integer;

/// The bits that a select takes: one, those between two bounds, or so many. A bound or a count may have no value.
#[derive(Clone, Copy, PartialEq, Eq, Debug)]
pub(crate) enum Bits {
    One,
    Between(Option<Integer>, Option<Integer>),
    Count(Option<Integer>),
}

/// What is found out of a select: the rules that the expressions in it break, and the bits that it takes.
#[derive(Clone, Copy, PartialEq, Eq, Debug)]
pub(crate) struct Selected {
    pub(crate) broken: Broken,
    pub(crate) bits: Bits,
}

/// Whether the number has no bits, or more than its width.
fn is_misshapen(width: u64, value: u128) -> bool
    requires { width ≤ 128 }
    ensures { result ≡ not (nat_le 1 width && nat_lt value (2 ^ width)) }
{
    width == 0 || value > wb_bits::mask(width as u32)
}

/// The rules that a number breaks, and its width.
pub(crate) fn number_judged(number: &Number) -> Judged
    ensures { result ≡ number_judged (number_of number.now) }
{
    let Number {
        width,
        sized,
        value,
        has_unknown,
        has_wild,
        ..
    } = *number;
    let has_xz = has_unknown || has_wild;
    if width > 128 {
        return Judged {
            broken: Broken {
                has_xz,
                width_over_128: true,
                ..nothing()
            },
            width: None,
            unsized_number: !sized,
        };
    }
    Judged {
        broken: Broken {
            has_xz,
            misshapen: is_misshapen(width, value),
            ..nothing()
        },
        width: Some(width as u32),
        unsized_number: !sized,
    }
}

/// Whether the select is a single index.
fn is_index(select: &Select<'_>) -> bool
    ensures { result ≡ rules.is_index (select_of select.now) }
{
    matches!(select, Select::Index(_))
}

/// Whether a select stands where none can: after a name without range, or as a second one after what is no memory.
fn has_bad_select(object: Object, selects: &Selects<'_>) -> bool
    ensures { result ≡ rules.has_bad_select (object_of object) (selects_of selects.now) }
{
    match selects {
        Selects::Whole => false,
        Selects::One(_) => object.addresses.is_none() && !object.has_range,
        Selects::Two(_, _) => object.addresses.is_none() || !object.has_range,
    }
}

/// Whether the selects do not begin with a single index.
fn lacks_index(selects: &Selects<'_>) -> bool
    ensures { result ≡ rules.lacks_index (selects_of selects.now) }
{
    match selects {
        Selects::Whole => true,
        Selects::One(select) => !is_index(select),
        Selects::Two(select, _) => !is_index(select),
    }
}

/// How far apart the bounds of the object's range are: one less than its width.
fn last_place(object: Object) -> u32
    ensures { result + 1 ≡ object_width (object_of object) }
{
    object.left.max(object.right) - object.left.min(object.right)
}

/// Whether a memory has more than 65,536 words.
fn has_many_words(addresses: Option<(u32, u32)>) -> bool
    ensures { result ≡ rules.has_many_words addresses }
{
    match addresses {
        Some((first, last)) => first.max(last) - first.min(last) > 65535,
        None => false,
    }
}

/// Whether all three hold.
fn all_three(x: bool, y: bool, z: bool) -> bool
    ensures { result ≡ (x && (y && z)) }
{
    x && y && z
}

/// What a name breaks with what stands after it.
pub(crate) fn by_name(place: Position, object: Object, selects: &Selects<'_>) -> Broken
    ensures { result ≡ coded (rules.by_name (position_of place) (object_of object) (selects_of selects.now)) }
{
    let declared = object.is_declared;
    let memory = object.addresses.is_some();
    let misused = lacks_index(selects) || has_many_words(object.addresses);
    Broken {
        undeclared: !declared,
        has_xz: false,
        bad_constant: all_three(
            declared,
            matches!(place, Position::Constant(_, _)),
            object.constant.is_none(),
        ),
        width_over_128: declared && last_place(object) > 127,
        bad_select: declared && has_bad_select(object, selects),
        memory_use: all_three(declared, memory, misused),
        misshapen: false,
    }
}

/// Whether one integer is below another.
fn is_below(x: Integer, y: Integer) -> bool
    ensures { result ≡ int_lt (integer_at x) (integer_at y) }
{
    match (x.negative, y.negative) {
        (true, true) => y.magnitude < x.magnitude,
        (true, false) => true,
        (false, true) => false,
        (false, false) => x.magnitude < y.magnitude,
    }
}

/// Whether a part select runs against the direction of the declared range.
fn runs_against(object: Object, left: Option<Integer>, right: Option<Integer>) -> bool
    ensures { result ≡ rules.runs_against (object_of object) (number_at left) (number_at right) }
{
    match (left, right) {
        (Some(left), Some(right)) if object.right <= object.left => is_below(left, right),
        (Some(left), Some(right)) => is_below(right, left),
        _ => false,
    }
}

/// How many bits stand between two bounds, both among them, 129 for all above 128.
fn count_between(left: Integer, right: Integer) -> u32
    ensures { Some result ≡ capped (Some (rules.count_between (integer_at left) (integer_at right))) }
{
    let most = left.magnitude.max(right.magnitude);
    let least = left.magnitude.min(right.magnitude);
    if left.negative != right.negative {
        if most > 128 || least > 128 {
            return 129;
        }
        return (most as u32 + least as u32 + 2).min(129);
    }
    if most - least > 127 {
        return 129;
    }
    (most - least) as u32 + 1
}

/// How many bits a select takes, 129 for all above 128, where its bounds or its count have values.
fn taken(bits: Bits) -> Option<u32>
    ensures { result ≡ capped (taken_of (taken_by bits)) }
{
    match bits {
        Bits::One => Some(1),
        Bits::Between(Some(left), Some(right)) => Some(count_between(left, right)),
        Bits::Between(_, _) => None,
        Bits::Count(number) => copies(number, Some(1)),
    }
}

/// Whether there are more than 128 bits.
fn is_over_128(width: Option<u32>) -> bool
    ensures { result ≡ rules.is_over_128 width }
{
    match width {
        Some(width) => width > 128,
        None => false,
    }
}

/// What a select of bits breaks by the bits that it takes of the object.
fn bits_broken(object: Object, bits: Bits) -> Broken
    ensures { result ≡ bits_broken (object_of object) (taken_by bits) }
{
    let wide = width_if(is_over_128(taken(bits)));
    match bits {
        Bits::Between(left, right) => also(
            select_if(object.is_declared && runs_against(object, left, right)),
            wide,
        ),
        _ => wide,
    }
}

/// The width of what is read of an object that is declared and has at most 128 bits.
fn read_width(object: Object, width: Option<u32>) -> Option<u32>
    ensures { result ≡ read_width (object_of object) width }
{
    if object.is_declared && last_place(object) < 128 {
        width
    } else {
        None
    }
}

/// The width of an object that is read whole, or of its words, where it is declared and has at most 128 bits.
fn whole_width(object: Object) -> Option<u32>
    ensures { result ≡ read_width (object_of object) (Some (object_width (object_of object))) }
{
    let last = last_place(object);
    if object.is_declared && last < 128 {
        Some(last + 1)
    } else {
        None
    }
}

/// A name that stands whole; `own` is what it breaks by itself.
pub(crate) fn whole_judged(own: Broken, object: Object) -> Judged
    ensures { result ≡ whole_judged own (object_of object) }
{
    Judged {
        broken: own,
        width: whole_width(object),
        unsized_number: false,
    }
}

/// A name with one select, which takes bits where the name is no memory.
pub(crate) fn one_judged(own: Broken, object: Object, selected: Selected) -> Judged
    ensures { result ≡ one_judged own (object_of object) selected }
{
    if object.addresses.is_some() {
        return Judged {
            broken: also(own, selected.broken),
            width: whole_width(object),
            unsized_number: false,
        };
    }
    Judged {
        broken: also(
            own,
            also(selected.broken, bits_broken(object, selected.bits)),
        ),
        width: read_width(object, fitting(taken(selected.bits))),
        unsized_number: false,
    }
}

/// A name with two selects, the second of which takes bits.
pub(crate) fn two_judged(own: Broken, object: Object, first: Broken, second: Selected) -> Judged
    ensures { result ≡ two_judged own (object_of object) first second }
{
    Judged {
        broken: also(
            own,
            also(first, also(second.broken, bits_broken(object, second.bits))),
        ),
        width: read_width(object, fitting(taken(second.bits))),
        unsized_number: false,
    }
}

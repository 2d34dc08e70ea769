//! The bits of a table that plain expressions copy.

ghost use Rattle.std.specs.Prelude.{◌≡◌, ℕ, ◌-◌, ◌%◌, ◌<◌, ◌≤◌, cond, ◌&&◌, ◌||◌, ◌==◌, nat_lt, is_none, IsTrue, ◌↔◌};
ghost use Rattle.verilog_trees.specs.Syntax.{name as named, one, whole};
ghost use Rattle.verilog_meaning.specs.Expression.{object_width, widths_of};
ghost use Rattle.verilog_meaning.specs.Register.{is_set};
ghost use Rattle.v_syntax.specs.Tree.{tree_of, select_of, selects_of, expressions_of};
ghost use Rattle.v_value.specs.Scope.{object_of, scope_at};
ghost use Rattle.v_value.specs.Narrow.{IsNarrow, AreNarrow, HasNarrowObjects};
ghost use Rattle.v_flow.specs.Spans.{existing};
ghost use Rattle.v_masks.specs.Masks.{masked};
ghost use Rattle.v_paths.specs.Premises.{HasNoMemory};
ghost use Rattle.v_depend.specs.Copying.{IsOfName, copies_at, parts_copy, has_none};
ghost use Rattle.v_depend.specs.Resting.{CopiesUnsettled};

use std::collections::BTreeMap;
use v_masks::mask_under;
use v_syntax::tree::{BinaryLink, Choice, Expression, PrefixOperator, Select, Selects, TestLink};
use v_value::scope::{Object, Scope};
use v_value::select::bits_of;
use v_value::taken::select_bits;
use v_value::width::{object_width, width_of};
use wb_bits::Word;

// ---- masks

/// Whether a mask has the bit at a place.
fn has_bit(mask: u128, place: u32) -> bool
    requires { place < 128 }
    ensures { result ≡ is_set mask place }
{
    mask >> place & 1 == 1
}

/// A mask, and the bit at a place where it is wanted.
fn with_bit(mask: u128, place: u32, wanted: bool) -> u128
    requires { place < 128 }
    ensures { (j : ℕ) → is_set result j ≡ (is_set mask j || (j == place && wanted)) }
{
    if wanted { mask | 1 << place } else { mask }
}

/// The bits of one mask above those of another, which has so many places.
fn beside(high: u128, low: u128, width: u32) -> u128
    ensures { (j : ℕ) → j < 128 → is_set result j ≡ cond (nat_lt j width) (is_set low j) (is_set high (j - width)) }
{
    if width >= 128 {
        return low;
    }
    high << width | low & wb_bits::mask(width)
}

/// Copies of a mask side by side, up to a place.
fn repeated(mask: u128, width: u32, places: u32) -> u128
    requires some_bits { 1 ≤ width }
    requires at_most_128 { places ≤ 128 }
    ensures { (j : ℕ) → is_set result j ≡ (nat_lt j places && is_set mask (j % width)) }
{
    let mut all = 0;
    for place in 0..places {
        all = with_bit(all, place, has_bit(mask, place % width));
    }
    all
}

// ---- names

/// The bits of a name that are in the table, in whatever range; a parameter has none.
fn held_bits(name: &str, object: Object, unsettled: &BTreeMap<&str, u128>) -> u128
    ensures { (b : ℕ) → is_set result b ≡ (is_none object.constant && masked unsettled.now name.now 0 b) }
{
    if object.constant.is_some() {
        return 0;
    }
    mask_under(unsettled, name)
}

/// The bits of a name that are in the table, in a word of the name's width.
fn held_word(name: &str, object: Object, unsettled: &BTreeMap<&str, u128>) -> Word
    requires { object_width (object_of object) ≤ 128 }
    ensures width { result.width ≡ object_width (object_of object) }
    ensures bits { IsOfName (masked unsettled.now) (object_of object) name.now result.value }
{
    Word::lowest_bits(object_width(object), held_bits(name, object, unsettled))
}

/// What a whole name copies.
fn whole_copied(name: &str, scope: &Scope<'_>, unsettled: &BTreeMap<&str, u128>) -> u128
    requires { HasNarrowObjects (scope_at scope.now) }
    ensures { (j : ℕ) → j < 128 → is_set result j ≡ copies_at (masked unsettled.now) (scope_at scope.now) (named name.now whole) j }
{
    let object = scope.object(name);
    let word = held_word(name, object, unsettled);
    if object.signed {
        return wb_bits::sext(128, word).value;
    }
    word.value
}

/// What a name with one select copies. (No word of a memory is in the table.)
fn one_copied(
    select: &Select<'_>,
    name: &str,
    scope: &Scope<'_>,
    unsettled: &BTreeMap<&str, u128>,
) -> u128
    requires objects { HasNarrowObjects (scope_at scope.now) }
    requires narrow { IsNarrow (scope_at scope.now) (named name.now (one (select_of select.now))) }
    requires variables { HasNoMemory (scope_at scope.now) (existing (scope_at scope.now) (masked unsettled.now)) }
    ensures { (j : ℕ) → j < 128 → is_set result j ≡ copies_at (masked unsettled.now) (scope_at scope.now) (named name.now (one (select_of select.now))) j }
{
    let object = scope.object(name);
    if object.addresses.is_some() {
        return 0;
    }
    let word = held_word(name, object, unsettled);
    bits_of(word.value, select_bits(select, scope, &[], object)).value
}

/// What a name with constant selects copies.
fn name_copied(
    selects: &Selects<'_>,
    name: &str,
    scope: &Scope<'_>,
    unsettled: &BTreeMap<&str, u128>,
) -> u128
    requires objects { HasNarrowObjects (scope_at scope.now) }
    requires narrow { IsNarrow (scope_at scope.now) (named name.now (selects_of selects.now)) }
    requires variables { HasNoMemory (scope_at scope.now) (existing (scope_at scope.now) (masked unsettled.now)) }
    ensures { (j : ℕ) → j < 128 → is_set result j ≡ copies_at (masked unsettled.now) (scope_at scope.now) (named name.now (selects_of selects.now)) j }
{
    match selects {
        Selects::Whole => whole_copied(name, scope, unsettled),
        Selects::One(select) => one_copied(select, name, scope, unsettled),
        Selects::Two(_, _) => 0,
    }
}

// ---- expressions

/// What an operand behind operators copies, where it copies these by itself.
fn prefixed(operators: &[PrefixOperator], mask: u128) -> u128
    ensures { result ≡ cond (has_none operators.now) mask 0 }
{
    if operators.is_empty() { mask } else { 0 }
}

fn linked(links: &[BinaryLink<'_>], mask: u128) -> u128
    ensures { result ≡ cond (has_none links.now) mask 0 }
{
    if links.is_empty() { mask } else { 0 }
}

fn tested(links: &[TestLink<'_>], mask: u128) -> u128
    ensures { result ≡ cond (has_none links.now) mask 0 }
{
    if links.is_empty() { mask } else { 0 }
}

fn chosen(choices: &[Choice<'_>], mask: u128) -> u128
    ensures { result ≡ cond (has_none choices.now) mask 0 }
{
    if choices.is_empty() { mask } else { 0 }
}

/// How many bits the parts have together.
fn parts_width(parts: &[Expression<'_>], scope: &Scope<'_>) -> u32
    requires narrow { AreNarrow (scope_at scope.now) (expressions_of parts.now) }
    requires at_most_128 { widths_of (scope_at scope.now) (expressions_of parts.now) ≤ 128 }
    ensures { result ≡ widths_of (scope_at scope.now) (expressions_of parts.now) }
{
    let mut width = 0;
    for part in parts {
        width += width_of(part, scope);
    }
    width
}

/// The places below 128 to which an expression copies a bit of the table.
#[cycle(copying)]
pub(crate) fn copied(
    expression: &Expression<'_>,
    scope: &Scope<'_>,
    unsettled: &BTreeMap<&str, u128>,
) -> u128
    requires objects { HasNarrowObjects (scope_at scope.now) }
    requires narrow { IsNarrow (scope_at scope.now) (tree_of expression.now) }
    requires variables { HasNoMemory (scope_at scope.now) (existing (scope_at scope.now) (masked unsettled.now)) }
    ensures { (j : ℕ) → j < 128 → is_set result j ≡ copies_at (masked unsettled.now) (scope_at scope.now) (tree_of expression.now) j }
{
    match expression {
        Expression::Number(_) => 0,
        Expression::Name(name, selects) => name_copied(selects, name, scope, unsettled),
        Expression::Concatenation(parts) => parts_copied(parts, scope, unsettled),
        Expression::Replication(_, parts) => repeated(
            parts_copied(parts, scope, unsettled),
            parts_width(parts, scope),
            width_of(expression, scope),
        ),
        Expression::AsSigned(_) => 0,
        Expression::AsUnsigned(_) => 0,
        Expression::Prefix(operators, operand) => prefixed(
            operators,
            copied(operand, scope, unsettled),
        ),
        Expression::Binary(first, links) => linked(links, copied(first, scope, unsettled)),
        Expression::Test(first, links) => tested(links, copied(first, scope, unsettled)),
        Expression::Conditional(choices, last) => chosen(choices, copied(last, scope, unsettled)),
    }
}

/// The same of parts side by side, the last at the low end.
#[cycle(copying)]
fn parts_copied(
    parts: &[Expression<'_>],
    scope: &Scope<'_>,
    unsettled: &BTreeMap<&str, u128>,
) -> u128
    requires objects { HasNarrowObjects (scope_at scope.now) }
    requires narrow { AreNarrow (scope_at scope.now) (expressions_of parts.now) }
    requires variables { HasNoMemory (scope_at scope.now) (existing (scope_at scope.now) (masked unsettled.now)) }
    ensures { (j : ℕ) → j < 128 → is_set result j ≡ parts_copy (masked unsettled.now) (scope_at scope.now) (expressions_of parts.now) j }
{
    let mut mask = 0;
    for part in parts {
        let width = width_of(part, scope);
        mask = beside(mask, copied(part, scope, unsettled), width);
    }
    mask
}

/// The places below 128 to which a plain expression copies bits that are not settled. (Any other expression copies none.)
pub fn copied_bits(
    expression: &Expression<'_>,
    scope: &Scope<'_>,
    unsettled: &BTreeMap<&str, u128>,
) -> u128
    requires objects { HasNarrowObjects (scope_at scope.now) }
    requires narrow { IsNarrow (scope_at scope.now) (tree_of expression.now) }
    requires variables { HasNoMemory (scope_at scope.now) (existing (scope_at scope.now) (masked unsettled.now)) }
    ensures { (j : ℕ) → j < 128 → IsTrue (is_set result j) ↔ CopiesUnsettled (masked unsettled.now) (scope_at scope.now) (tree_of expression.now) j }
{
    copied(expression, scope, unsettled)
}

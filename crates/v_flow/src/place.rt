//! The bits that names with selects mean, or may mean where an index is no constant.

ghost use Rattle.std.specs.Prelude.{◌≡◌, OnOk, ◌<◌, ◌≤◌, IfSome, ◌&&◌, ◌-ℤ◌, ◌+ℤ◌, ◌^◌, nat_lt, pos, option_and_then};
ghost use Rattle.verilog_trees.specs.Syntax.{name as named, one, two, whole};
ghost use Rattle.verilog_meaning.specs.Expression.{object_width, word_number};
ghost use Rattle.verilog_meaning.specs.Register.{is_set, is_within, is_word_number, word_count};
ghost use Rattle.verilog_designs.specs.Reads.{or_in};
ghost use Rattle.v_value.specs.Scope.{object_of, scope_at};
ghost use Rattle.v_value.specs.Index.{integer_at, span_of};
ghost use Rattle.v_value.specs.Narrow.{IsWidth, IsNarrow, IsSelectNarrow, HasNarrowObjects};
ghost use Rattle.v_syntax.specs.Tree.{select_of, selects_of};
ghost use Rattle.v_flow.specs.Spans.{is_between, bits_of, bits_in, clamped};
ghost use Rattle.v_flow.specs.Flow.{meant_word, meant_bit, select_count, place_bits};

use crate::constant::is_constant_select;
use crate::span::Span;
use std::alloc::AllocError;
use v_syntax::tree::{Select, Selects};
use v_value::scope::{Object, Scope};
use v_value::select::{self, Integer, word_number};
use v_value::taken::{select_bits, select_index};
use v_value::width::object_width;

/// Some words of a memory side by side; the word 0 alone is that of what is no memory.
#[derive(Clone, Copy)]
struct Words {
    from: u64,
    to: u64,
}

fn all_words(object: Object) -> Words
    ensures from { result.from ≡ 0 }
    ensures to { result.to ≡ word_count (object_of object) }
{
    let to = match object.addresses {
        None => 1,
        Some((first, last)) => u64::from(first.max(last) - first.min(last)) + 1,
    };
    Words { from: 0, to }
}

/// The word that an index names, or no word.
fn word_at(object: Object, index: Integer) -> Words
    ensures { (k : _) → is_between result.from result.to k
        ≡ (nat_lt k (word_count (object_of object)) && is_word_number (option_and_then (λ a. word_number a (integer_at index)) object.addresses) k) }
{
    match object.addresses {
        None => Words { from: 0, to: 0 },
        Some(addresses) => one_word(word_number(addresses, index)),
    }
}

fn one_word(number: Option<u128>) -> Words
    requires { IfSome number (λ w. w < 2 ^ 32) }
    ensures { (k : _) → is_between result.from result.to k ≡ is_word_number number k }
{
    match number {
        None => Words { from: 0, to: 0 },
        Some(word) => Words {
            from: word as u64,
            to: word as u64 + 1,
        },
    }
}

/// The words that an index may mean.
fn words_meant(select: &Select<'_>, scope: &Scope<'_>, object: Object) -> Words
    requires objects { HasNarrowObjects (scope_at scope.now) }
    requires narrow { IsSelectNarrow (scope_at scope.now) (select_of select.now) }
    ensures { (k : _) → is_between result.from result.to k ≡ meant_word (scope_at scope.now) (object_of object) (select_of select.now) k }
{
    if is_constant_select(select, scope) {
        word_at(object, select_index(select, scope, &[]))
    } else {
        all_words(object)
    }
}

/// The place `back` places below another one, or the nearest of 0 and the places up to the width.
fn lowest(width: u32, place: Integer, back: u32) -> u32
    ensures { result ≡ clamped width (integer_at place -ℤ pos back) }
{
    let back = u128::from(back);
    let width = u128::from(width);
    if place.negative || place.magnitude < back {
        0
    } else {
        (place.magnitude - back).min(width) as u32
    }
}

/// The place `count` places above the place that stands `back` places below another one, in the same way.
fn highest(width: u32, place: Integer, back: u32, count: u32) -> u32
    ensures { result ≡ clamped width ((integer_at place -ℤ pos back) +ℤ pos count) }
{
    if count <= back {
        return lowest(width, place, back - count);
    }
    let forward = u128::from(count - back);
    let width = u128::from(width);
    if !place.negative {
        return place.magnitude.saturating_add(forward).min(width) as u32;
    }
    if forward <= place.magnitude {
        0
    } else {
        (forward - place.magnitude - 1).min(width) as u32
    }
}

/// The bits from one place up to another.
fn mask_between(low: u32, high: u32) -> u128
    requires order { low ≤ high }
    requires at_most_128 { high ≤ 128 }
    ensures { (b : _) → is_set result b ≡ is_between low high b }
{
    wb_bits::mask(high) - wb_bits::mask(low)
}

/// The bits of a word of this width among those that a select takes.
fn bits_within(width: u32, span: select::Span) -> u128
    requires { width ≤ 128 }
    ensures { (b : _) → is_set result b ≡ (nat_lt b width && is_within (span_of span) b) }
{
    let low = lowest(width, span.place, span.back);
    let high = highest(width, span.place, span.back, span.count);
    mask_between(low, high)
}

fn all_bits(object: Object) -> u128
    requires { object_width (object_of object) ≤ 128 }
    ensures { (b : _) → is_set result b ≡ nat_lt b (object_width (object_of object)) }
{
    mask_between(0, object_width(object))
}

/// The bits that a select may mean.
fn bits_meant(select: &Select<'_>, scope: &Scope<'_>, object: Object) -> u128
    requires objects { HasNarrowObjects (scope_at scope.now) }
    requires width { object_width (object_of object) ≤ 128 }
    requires narrow { IsSelectNarrow (scope_at scope.now) (select_of select.now) }
    requires count { IsWidth (select_count (scope_at scope.now) (object_of object) (select_of select.now)) }
    ensures { (b : _) → is_set result b ≡ meant_bit (scope_at scope.now) (object_of object) (select_of select.now) b }
{
    if is_constant_select(select, scope) {
        bits_within(
            object_width(object),
            select_bits(select, scope, &[], object),
        )
    } else {
        all_bits(object)
    }
}

/// All bits of a name.
fn whole_place<'s>(scope: &Scope<'_>, name: &'s str) -> Span<'s>
    requires { HasNarrowObjects (scope_at scope.now) }
    ensures { bits_of result ≡ place_bits (scope_at scope.now) name.now whole }
{
    let object = scope.object(name);
    let words = all_words(object);
    Span {
        name,
        from_word: words.from,
        to_word: words.to,
        bits: all_bits(object),
    }
}

fn one_place<'s>(select: &Select<'_>, scope: &Scope<'_>, name: &'s str) -> Span<'s>
    requires objects { HasNarrowObjects (scope_at scope.now) }
    requires narrow { IsNarrow (scope_at scope.now) (named name.now (one (select_of select.now))) }
    ensures { bits_of result ≡ place_bits (scope_at scope.now) name.now (one (select_of select.now)) }
{
    let object = scope.object(name);
    if object.addresses.is_some() {
        let words = words_meant(select, scope, object);
        return Span {
            name,
            from_word: words.from,
            to_word: words.to,
            bits: all_bits(object),
        };
    }
    let words = all_words(object);
    Span {
        name,
        from_word: words.from,
        to_word: words.to,
        bits: bits_meant(select, scope, object),
    }
}

fn two_place<'s>(
    index: &Select<'_>,
    select: &Select<'_>,
    scope: &Scope<'_>,
    name: &'s str,
) -> Span<'s>
    requires objects { HasNarrowObjects (scope_at scope.now) }
    requires narrow { IsNarrow (scope_at scope.now) (named name.now (two (select_of index.now) (select_of select.now))) }
    ensures { bits_of result ≡ place_bits (scope_at scope.now) name.now (two (select_of index.now) (select_of select.now)) }
{
    let object = scope.object(name);
    let words = words_meant(index, scope, object);
    Span {
        name,
        from_word: words.from,
        to_word: words.to,
        bits: bits_meant(select, scope, object),
    }
}

/// The bits that a name with selects may mean.
fn place<'s>(selects: &Selects<'_>, scope: &Scope<'_>, name: &'s str) -> Span<'s>
    requires objects { HasNarrowObjects (scope_at scope.now) }
    requires narrow { IsNarrow (scope_at scope.now) (named name.now (selects_of selects.now)) }
    ensures { bits_of result ≡ place_bits (scope_at scope.now) name.now (selects_of selects.now) }
{
    match selects {
        Selects::Whole => whole_place(scope, name),
        Selects::One(select) => one_place(select, scope, name),
        Selects::Two(index, select) => two_place(index, select, scope, name),
    }
}

/// Adds all bits of a name.
pub(crate) fn add_whole<'s>(
    scope: &Scope<'_>,
    name: &'s str,
    found: &mut Vec<Span<'s>>,
) -> Result<(), AllocError>
    requires { HasNarrowObjects (scope_at scope.now) }
    ensures { OnOk result (bits_in found.new.items ≡ or_in (bits_in found.old.items) (place_bits (scope_at scope.now) name.now whole)) }
{
    found.push(whole_place(scope, name))?;
    Ok(())
}

/// Adds the bits that a name with selects may mean.
pub(crate) fn add_meant<'s>(
    selects: &Selects<'_>,
    scope: &Scope<'_>,
    name: &'s str,
    found: &mut Vec<Span<'s>>,
) -> Result<(), AllocError>
    requires objects { HasNarrowObjects (scope_at scope.now) }
    requires narrow { IsNarrow (scope_at scope.now) (named name.now (selects_of selects.now)) }
    ensures { OnOk result (bits_in found.new.items ≡ or_in (bits_in found.old.items) (place_bits (scope_at scope.now) name.now (selects_of selects.now))) }
{
    found.push(place(selects, scope, name))?;
    Ok(())
}

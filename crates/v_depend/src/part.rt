//! What an assignment of a value to a target does to a table of bits, part by part.

ghost use Rattle.std.specs.Prelude.{◌≡◌, ℕ, ◌+◌, ◌-◌, ◌<◌, ◌≤◌, ◌%◌, ◌^◌, ◌&&◌, ◌||◌, not, nat_lt, zero, pos, ◌-ℤ◌, IfOk, OnOk};
ghost use Rattle.verilog_trees.specs.Syntax.{name as named, joined};
ghost use Rattle.verilog_meaning.specs.Expression.{object_width, is_nonzero};
ghost use Rattle.verilog_meaning.specs.Statement.{all_bits, target_width, targets_width};
ghost use Rattle.verilog_meaning.specs.Register.{is_set, may_reach};
ghost use Rattle.verilog_designs.specs.Reads.{BitSet, surely_reaches};
ghost use Rattle.verilog_designs.specs.Dependence.{natural_in};
ghost use Rattle.v_syntax.specs.Tree.{selects_of, target_of};
ghost use Rattle.v_value.specs.Scope.{object_of, scope_at};
ghost use Rattle.v_value.specs.Index.{span_of};
ghost use Rattle.v_value.specs.Narrow.{IsNarrow, HasNarrowObjects};
ghost use Rattle.v_statement.specs.Statements.{target_list};
ghost use Rattle.v_flow.specs.Spans.{existing};
ghost use Rattle.v_flow.specs.Narrow.{HasNarrowParts, HaveNarrowParts};
ghost use Rattle.v_masks.specs.Masks.{masked};
ghost use Rattle.v_paths.specs.Premises.{HasNoMemory};
ghost use Rattle.v_depend.specs.Copying.{at_place};
ghost use Rattle.v_depend.specs.Tables.{changed, all_changed};
ghost use Rattle.v_depend.specs.Left.{part_bits, Assigns, IsPart};

use crate::change::Change;
use crate::read::index_rests;
use std::alloc::{AllocError, Global};
use std::collections::BTreeMap;
use v_flow::{add_reached, add_surely_reached};
use v_masks::mask_under;
use v_paths::mask::masks_of;
use v_syntax::tree::{Selects, Target};
use v_value::scope::{Object, Scope};
use v_value::select::{Integer, Span};
use v_value::taken::select_bits;
use v_value::width::object_width;

// ---- values

/// A value moved down by so many places.
fn lowered(value: u128, places: u128) -> u128
    ensures { (b : ℕ) → is_set result b ≡ is_set value (b + places) }
{
    if places < 128 {
        value >> places as u32
    } else {
        0
    }
}

/// A value moved up by so many places.
fn raised(value: u128, places: u128) -> u128
    ensures { (b : ℕ) → b < 128 → is_set result b ≡ (not (nat_lt b places) && is_set value (b - places)) }
{
    if places < 128 {
        value << places as u32
    } else {
        0
    }
}

/// A value at the places that a part has.
fn placed(value: u128, span: Span) -> u128
    ensures { (b : ℕ) → b < 128 → is_set result b ≡ at_place value (natural_in (pos b -ℤ (span_of span).low)) }
{
    let place = span.place.magnitude;
    let back = u128::from(span.back);
    if !span.place.negative {
        if back <= place {
            return raised(value, place - back);
        }
        return lowered(value, back - place);
    }
    if place >= 128 {
        return 0;
    }
    lowered(value, place + back + 1)
}

/// Whether a value has a bit at one of so many places.
fn has_bits(value: u128, count: u32) -> bool
    requires { count ≤ 128 }
    ensures { result ≡ is_nonzero (value % 2 ^ count) }
{
    value & wb_bits::mask(count) != 0
}

/// The bits of a name that an assignment of a value sets: `sure` are those that it assigns whatever its indexes are, among those that it
/// reaches.
fn set_bits(value: u128, span: Span, reached: u128, sure: u128, by_index: bool) -> u128
    requires { span.count ≤ 128 }
    ensures { (b : ℕ) → b < 128 → is_set result b
        ≡ ((is_set sure b && at_place value (natural_in (pos b -ℤ (span_of span).low)))
        || (is_set reached b && (by_index || (not (is_set sure b) && is_nonzero (value % 2 ^ span.count))))) }
{
    let by_place = placed(value, span) & sure;
    if by_index {
        return by_place | reached;
    }
    if has_bits(value, span.count) {
        return by_place | reached & !sure;
    }
    by_place
}

// ---- parts

/// All bits of an object.
fn whole_span(object: Object) -> Span
    requires { object_width (object_of object) ≤ 128 }
    ensures { span_of result ≡ all_bits (object_of object) }
{
    Span {
        place: Integer {
            negative: false,
            magnitude: 0,
        },
        back: 0,
        count: object_width(object),
    }
}

/// The bits that a part of a target takes, its variable indexes read as 0.
fn part_span(selects: &Selects<'_>, name: &str, scope: &Scope<'_>) -> Span
    requires objects { HasNarrowObjects (scope_at scope.now) }
    requires narrow { IsNarrow (scope_at scope.now) (named name.now (selects_of selects.now)) }
    ensures { span_of result ≡ part_bits (scope_at scope.now) (scope_at scope.now name.now) (selects_of selects.now) }
{
    let object = scope.object(name);
    match selects {
        Selects::Whole => whole_span(object),
        Selects::One(select) => {
            if object.addresses.is_some() {
                whole_span(object)
            } else {
                select_bits(select, scope, &[], object)
            }
        }
        Selects::Two(_, select) => select_bits(select, scope, &[], object),
    }
}

/// The bits of a name that an assignment to a target may assign.
fn reached_bits(
    alloc: Global,
    target: &Target<'_>,
    name: &str,
    scope: &Scope<'_>,
) -> Result<u128, AllocError>
    requires objects { HasNarrowObjects (scope_at scope.now) }
    requires narrow { HasNarrowParts (scope_at scope.now) (target_of target.now) }
    ensures { IfOk result (λ m. (b : ℕ) → is_set m b ≡ existing (scope_at scope.now) (may_reach (scope_at scope.now) (target_of target.now)) name.now zero b) }
{
    let mut spans = Vec::new(alloc);
    add_reached(target, scope, &mut spans)?;
    let table = masks_of(alloc, &spans)?;
    Ok(mask_under(&table, name))
}

/// The bits of a name that it assigns whatever its variable indexes are.
fn sure_bits(
    alloc: Global,
    target: &Target<'_>,
    name: &str,
    scope: &Scope<'_>,
) -> Result<u128, AllocError>
    requires objects { HasNarrowObjects (scope_at scope.now) }
    requires narrow { HasNarrowParts (scope_at scope.now) (target_of target.now) }
    ensures { IfOk result (λ m. (b : ℕ) → is_set m b ≡ existing (scope_at scope.now) (surely_reaches (scope_at scope.now) (target_of target.now)) name.now zero b) }
{
    let mut spans = Vec::new(alloc);
    add_surely_reached(target, scope, &mut spans)?;
    let table = masks_of(alloc, &spans)?;
    Ok(mask_under(&table, name))
}

/// What an assignment of a value to a name with selects does, where the indexes rest on what the table has.
fn part_change<'s>(
    alloc: Global,
    target: &Target<'s>,
    span: Span,
    name: &'s str,
    value: u128,
    scope: &Scope<'_>,
    unsettled: &BTreeMap<&str, u128>,
) -> Result<Change<'s>, AllocError>
    requires objects { HasNarrowObjects (scope_at scope.now) }
    requires narrow { HasNarrowParts (scope_at scope.now) (target_of target.now) }
    requires variables { HasNoMemory (scope_at scope.now) (existing (scope_at scope.now) (may_reach (scope_at scope.now) (target_of target.now))) }
    requires part { IsPart (scope_at scope.now) (target_of target.now) name.now (span_of span) }
    ensures { IfOk result (λ c. (p : BitSet) → Assigns (masked unsettled.now) (scope_at scope.now) (target_of target.now) value p (changed c p)) }
{
    let reached = reached_bits(alloc, target, name, scope)?;
    let sure = sure_bits(alloc, target, name, scope)?;
    let by_index = index_rests(alloc, target, scope, unsettled)?;
    Ok(Change {
        name,
        kept: !sure,
        set: set_bits(value, span, reached, sure, by_index),
    })
}

// ---- targets

/// Adds what an assignment of a value to a target does. What is left of the value are its bits past the target.
#[cycle(assigning)]
pub(crate) fn add_changes<'s>(
    alloc: Global,
    target: &Target<'s>,
    value: u128,
    scope: &Scope<'_>,
    unsettled: &BTreeMap<&str, u128>,
    changes: &mut Vec<Change<'s>>,
) -> Result<u128, AllocError>
    requires objects { HasNarrowObjects (scope_at scope.now) }
    requires narrow { HasNarrowParts (scope_at scope.now) (target_of target.now) }
    requires variables { HasNoMemory (scope_at scope.now) (existing (scope_at scope.now) (may_reach (scope_at scope.now) (target_of target.now))) }
    ensures rest { IfOk result (λ r. (j : ℕ) → is_set r j ≡ is_set value (j + target_width (scope_at scope.now) (target_of target.now))) }
    ensures changes { OnOk result ((p : BitSet) → Assigns (masked unsettled.now) (scope_at scope.now) (target_of target.now) value
        (all_changed changes.old.items p) (all_changed changes.new.items p)) }
{
    match target {
        Target::Place(name, selects) => {
            let span = part_span(selects, name, scope);
            let change = part_change(alloc, target, span, name, value, scope, unsettled)?;
            changes.push(change)?;
            Ok(lowered(value, u128::from(span.count)))
        }
        Target::Joined(targets) => {
            let rest = add_all_changes(alloc, targets, value, scope, unsettled, changes)?;
            Ok(rest)
        }
    }
}

/// The same for targets side by side, the last at the low end: it is written first, so that of a bit that stands twice the leftmost stays.
#[cycle(assigning)]
fn add_all_changes<'s>(
    alloc: Global,
    targets: &[Target<'s>],
    value: u128,
    scope: &Scope<'_>,
    unsettled: &BTreeMap<&str, u128>,
    changes: &mut Vec<Change<'s>>,
) -> Result<u128, AllocError>
    requires objects { HasNarrowObjects (scope_at scope.now) }
    requires narrow { HaveNarrowParts (scope_at scope.now) (target_list targets.now) }
    requires variables { HasNoMemory (scope_at scope.now) (existing (scope_at scope.now) (may_reach (scope_at scope.now) (joined (target_list targets.now)))) }
    ensures rest { IfOk result (λ r. (j : ℕ) → is_set r j ≡ is_set value (j + targets_width (scope_at scope.now) (target_list targets.now))) }
    ensures changes { OnOk result ((p : BitSet) → Assigns (masked unsettled.now) (scope_at scope.now) (joined (target_list targets.now)) value
        (all_changed changes.old.items p) (all_changed changes.new.items p)) }
{
    let mut rest = value;
    for i in (0..targets.len()).rev() {
        rest = add_changes(alloc, &targets[i], rest, scope, unsettled, changes)?;
    }
    Ok(rest)
}

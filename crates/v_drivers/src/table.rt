//! Tables of what is driven, by names, and whether two drivers meet.

ghost use Rattle.std.specs.Prelude.{◌≡◌, ◌||◌, ◌↔◌, ℕ, List, nat_lt, ◌&&◌, cond, zero, IsTrue, IfOk, OnOk};
ghost use Rattle.wb_values.specs.Value.{same_name};
ghost use Rattle.std.specs.List.{list_any};
ghost use Rattle.verilog_meaning.specs.Register.{is_set};
ghost use Rattle.v_value.specs.Scope.{scope_at};
ghost use Rattle.v_flow.specs.Spans.{is_between};
ghost use Rattle.v_masks.specs.Masks.{mask_under};
ghost use Rattle.v_drivers.specs.Tables.{span_mask, spans_mask, span_meets};
ghost use Rattle.v_drivers.specs.Lists.{sets_in};
ghost use Rattle.v_drivers.specs.Sets.{TwoMeet};
ghost use Rattle.v_drivers.specs.Bits.{AreOfBits};

use std::alloc::{AllocError, Global};
use std::collections::BTreeMap;
use v_flow::span::Span;
use v_masks::mask_under;
use v_value::scope::Scope;

/// The bits of a span in the word 0.
fn first_word(span: Span<'_>) -> u128
    ensures { result ≡ cond (is_between span.entry.from_word span.entry.to_word zero) span.entry.bits 0 }
{
    if span.from_word == 0 && span.to_word > 0 {
        span.bits
    } else {
        0
    }
}

/// The bit 0, where a span has something.
fn something(span: Span<'_>) -> u128
    ensures { result ≡ cond (nat_lt span.entry.from_word span.entry.to_word && nat_lt 0 span.entry.bits) 1 0 }
{
    if span.from_word < span.to_word && span.bits > 0 {
        1
    } else {
        0
    }
}

/// What a span has of its name, as a mask: of a memory the bit 0 where it has something.
pub fn span_mask(scope: &Scope<'_>, span: Span<'_>) -> u128
    ensures { result ≡ span_mask (scope_at scope.now) span.entry }
{
    if scope.object(span.name).addresses.is_none() {
        return first_word(span);
    }
    something(span)
}

/// Whether a span has something of what is in the table.
fn span_meets(scope: &Scope<'_>, table: &BTreeMap<&str, u128>, span: Span<'_>) -> bool
    ensures { result ≡ span_meets (scope_at scope.now) (mask_under table.now) span.entry }
{
    mask_under(table, span.name) & span_mask(scope, span) != 0
}

/// Whether some span has something of what is in the table.
fn one_meets(scope: &Scope<'_>, table: &BTreeMap<&str, u128>, spans: &[Span<'_>]) -> bool
    ensures { result ≡ list_any (span_meets (scope_at scope.now) (mask_under table.now)) spans.now }
{
    for span in spans {
        if span_meets(scope, table, *span) {
            return true;
        }
    }
    false
}

/// Adds what a span has.
fn add_mask<'s>(
    scope: &Scope<'_>,
    table: &mut BTreeMap<&'s str, u128>,
    span: Span<'s>,
) -> Result<(), AllocError>
    ensures { OnOk result ((n : List ℕ) (b : ℕ) → is_set (mask_under table.new n) b
        ≡ (is_set (mask_under table.old n) b || is_set (cond (same_name span.entry.name.now n) (span_mask (scope_at scope.now) span.entry) 0) b)) }
{
    let mask = mask_under(table, span.name) | span_mask(scope, span);
    table.insert(span.name, mask)?;
    Ok(())
}

/// Adds what spans have to a table: of a net or variable its bits, of a memory the bit 0.
pub fn add_masks<'s>(
    scope: &Scope<'_>,
    table: &mut BTreeMap<&'s str, u128>,
    spans: &[Span<'s>],
) -> Result<(), AllocError>
    ensures { OnOk result ((n : List ℕ) (b : ℕ) → is_set (mask_under table.new n) b
        ≡ (is_set (mask_under table.old n) b || is_set (spans_mask (scope_at scope.now) spans.now n) b)) }
{
    for span in spans {
        add_mask(scope, table, *span)?;
    }
    Ok(())
}

/// Whether two of the drivers meet. Each has bits of its names alone.
pub(crate) fn two_meet<'s>(
    alloc: Global,
    scope: &Scope<'_>,
    drivers: &[Vec<Span<'s>>],
) -> Result<bool, AllocError>
    requires bits { AreOfBits (scope_at scope.now) (sets_in drivers.now) }
    ensures { IfOk result (λ r. IsTrue r ↔ TwoMeet (scope_at scope.now) (sets_in drivers.now)) }
{
    let mut table = BTreeMap::new(alloc);
    for driver in drivers {
        if one_meets(scope, &table, driver) {
            return Ok(true);
        }
        add_masks(scope, &mut table, driver)?;
    }
    Ok(false)
}

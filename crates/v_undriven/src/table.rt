//! Tables of what is driven, and spans that have something besides.

ghost use Rattle.std.specs.Prelude.{◌≡◌, ◌&&◌, ◌↔◌, not, ℕ, List, IsTrue, IfOk};
ghost use Rattle.verilog_meaning.specs.Register.{is_set};
ghost use Rattle.v_value.specs.Scope.{scope_at};
ghost use Rattle.v_masks.specs.Masks.{mask_under};
ghost use Rattle.v_undriven.specs.Names.{needs_driver};
ghost use Rattle.v_undriven.specs.Tables.{drivers_mask, HasMore, OneHasMore};

use crate::name::needs_driver;
use std::alloc::{AllocError, Global};
use std::collections::BTreeMap;
use v_drivers::{add_masks, span_mask};
use v_flow::span::Span;
use v_masks::mask_under;
use v_scopes::ModuleScope;
use v_value::scope::Scope;

/// The table of what drivers drive.
pub(crate) fn table_of<'s>(
    alloc: Global,
    scope: &Scope<'_>,
    drivers: &[Vec<Span<'s>>],
) -> Result<BTreeMap<&'s str, u128>, AllocError>
    ensures { IfOk result (λ t. (n : List ℕ) (b : ℕ) → is_set (mask_under t n) b ≡ is_set (drivers_mask (scope_at scope.now) drivers.now n) b) }
{
    let mut table = BTreeMap::new(alloc);
    for driver in drivers {
        add_masks(scope, &mut table, driver)?;
    }
    Ok(table)
}

/// The bits of the first that the second has not.
fn without(bits: u128, mask: u128) -> u128
    ensures { (b : ℕ) → is_set result b ≡ (is_set bits b && not (is_set mask b)) }
{
    bits & !mask
}

/// Whether a span has something that the table lacks.
fn has_more(scope: &Scope<'_>, table: &BTreeMap<&str, u128>, span: Span<'_>) -> bool
    ensures { IsTrue result ↔ HasMore (scope_at scope.now) (mask_under table.now) span.entry }
{
    without(span_mask(scope, span), mask_under(table, span.name)) != 0
}

/// Whether one of the spans, whose name needs a driver, has something that the table lacks.
pub(crate) fn one_has_more(
    scope: &Scope<'_>,
    names: &ModuleScope<'_>,
    clock: &str,
    table: &BTreeMap<&str, u128>,
    spans: &[Span<'_>],
) -> bool
    ensures { IsTrue result ↔ OneHasMore (scope_at scope.now) names.now clock.now (mask_under table.now) spans.now }
{
    for span in spans {
        if needs_driver(scope, names, clock, span.name) {
            if has_more(scope, table, *span) {
                return true;
            }
        }
    }
    false
}

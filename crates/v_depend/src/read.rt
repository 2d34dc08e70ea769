//! Whether something that is read is not settled yet.

ghost use Rattle.std.specs.Prelude.{◌≡◌, ◌↔◌, IsTrue, IfOk};
ghost use Rattle.std.specs.List.{list_any};
ghost use Rattle.verilog_designs.specs.Reads.{reads, target_reads};
ghost use Rattle.v_syntax.specs.Tree.{tree_of, target_of};
ghost use Rattle.v_value.specs.Scope.{scope_at};
ghost use Rattle.v_value.specs.Narrow.{IsNarrow, HasNarrowObjects};
ghost use Rattle.v_flow.specs.Spans.{bits_in};
ghost use Rattle.v_flow.specs.Narrow.{HasNarrowParts};
ghost use Rattle.v_masks.specs.Masks.{mask_under, masked};
ghost use Rattle.v_depend.specs.Tables.{span_meets};
ghost use Rattle.v_depend.specs.Resting.{OneIsUnsettled};

use std::alloc::{AllocError, Global};
use std::collections::BTreeMap;
use v_flow::span::Span;
use v_flow::{add_reads, add_target_reads};
use v_masks::mask_under;
use v_syntax::tree::{Expression, Target};
use v_value::scope::Scope;

/// Whether a span has a bit that is in the table.
fn span_meets(span: Span<'_>, table: &BTreeMap<&str, u128>) -> bool
    ensures { result ≡ span_meets (mask_under table.now) span.entry }
{
    span.from_word < span.to_word && span.bits & mask_under(table, span.name) != 0
}

fn one_meets(spans: &[Span<'_>], table: &BTreeMap<&str, u128>) -> bool
    ensures { result ≡ list_any (span_meets (mask_under table.now)) spans.now }
{
    for span in spans {
        if span_meets(*span, table) {
            return true;
        }
    }
    false
}

/// Whether one of the bits of spans is in the table.
pub fn meets(spans: &[Span<'_>], table: &BTreeMap<&str, u128>) -> bool
    ensures { IsTrue result ↔ OneIsUnsettled (masked table.now) (bits_in spans.now) }
{
    one_meets(spans, table)
}

/// Whether one of the bits that an expression reads is not settled.
pub fn rests(
    alloc: Global,
    expression: &Expression<'_>,
    scope: &Scope<'_>,
    unsettled: &BTreeMap<&str, u128>,
) -> Result<bool, AllocError>
    requires objects { HasNarrowObjects (scope_at scope.now) }
    requires narrow { IsNarrow (scope_at scope.now) (tree_of expression.now) }
    ensures { IfOk result (λ r. IsTrue r ↔ OneIsUnsettled (masked unsettled.now) (reads (scope_at scope.now) (tree_of expression.now))) }
{
    let mut spans = Vec::new(alloc);
    add_reads(expression, scope, &mut spans)?;
    let met = meets(&spans, unsettled);
    Ok(met)
}

/// Whether one of the bits that the indexes of a target read is not settled.
pub(crate) fn index_rests(
    alloc: Global,
    target: &Target<'_>,
    scope: &Scope<'_>,
    unsettled: &BTreeMap<&str, u128>,
) -> Result<bool, AllocError>
    requires objects { HasNarrowObjects (scope_at scope.now) }
    requires narrow { HasNarrowParts (scope_at scope.now) (target_of target.now) }
    ensures { IfOk result (λ r. IsTrue r ↔ OneIsUnsettled (masked unsettled.now) (target_reads (scope_at scope.now) (target_of target.now))) }
{
    let mut spans = Vec::new(alloc);
    add_target_reads(target, scope, &mut spans)?;
    let met = meets(&spans, unsettled);
    Ok(met)
}

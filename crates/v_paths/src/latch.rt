//! Latches: bits that a combinational block may assign, and does not assign on each path or reads before it has assigned them.

ghost use Rattle.std.specs.Prelude.{◌≡◌, ◌&&◌, ◌↔◌, is_none, IsTrue, IfOk};
ghost use Rattle.verilog_designs.specs.Reads.{but_not_in};
ghost use Rattle.v_syntax.specs.Tree.{statement_of};
ghost use Rattle.v_value.specs.Scope.{scope_at};
ghost use Rattle.v_value.specs.Narrow.{HasNarrowObjects};
ghost use Rattle.v_flow.specs.Spans.{bits_of, bits_in};
ghost use Rattle.v_flow.specs.Narrow.{IsNarrowFlow};
ghost use Rattle.v_masks.specs.Masks.{masked, spread};
ghost use Rattle.v_paths.specs.Premises.{AssignsNoMemory};
ghost use Rattle.v_paths.specs.Latches.{HasLatchedBit, has_bit, one_has_bit};

use crate::mask::{masks_of, with_bits, without};
use crate::path::walk;
use std::alloc::{AllocError, Global};
use std::collections::BTreeMap;
use v_flow::add_assigned;
use v_flow::span::Span;
use v_masks::mask_under;
use v_syntax::tree::Statement;
use v_value::scope::Scope;

/// Whether a span has some bit.
pub(crate) fn has_bit(span: Span<'_>) -> bool
    ensures { result ≡ has_bit span.entry }
{
    span.from_word < span.to_word && span.bits > 0
}

/// Whether a span has some bit of a net or variable.
fn has_variable_bit(scope: &Scope<'_>, span: Span<'_>) -> bool
    ensures { result ≡ (has_bit span.entry && is_none (scope_at scope.now span.entry.name.now).constant) }
{
    if !has_bit(span) {
        return false;
    }
    scope.object(span.name).constant.is_none()
}

/// Whether one of the spans has some bit of a net or variable.
fn one_has_variable_bit(scope: &Scope<'_>, spans: &[Span<'_>]) -> bool
    ensures { result ≡ one_has_bit (λ n. is_none (scope_at scope.now n).constant) spans.now }
{
    for span in spans {
        if has_variable_bit(scope, *span) {
            return true;
        }
    }
    false
}

/// The bits of a span but for those that are surely assigned and not read from outside.
fn latched<'s>(
    sure: &BTreeMap<&'s str, u128>,
    outside: &BTreeMap<&'s str, u128>,
    span: Span<'s>,
) -> Span<'s>
    ensures { bits_of result ≡ but_not_in (bits_of span.entry) (but_not_in (masked sure.now) (masked outside.now)) }
{
    let own = without(mask_under(sure, span.name), mask_under(outside, span.name));
    with_bits(span, without(span.bits, own))
}

fn all_latched<'s>(
    alloc: Global,
    sure: &[Span<'s>],
    outside: &[Span<'s>],
    assigned: &[Span<'s>],
) -> Result<Vec<Span<'s>>, AllocError>
    ensures { IfOk result (λ v. bits_in v.items ≡ but_not_in (bits_in assigned.now) (but_not_in (spread (bits_in sure.now)) (spread (bits_in outside.now)))) }
{
    let own = masks_of(alloc, sure)?;
    let read = masks_of(alloc, outside)?;
    let mut found = Vec::new(alloc);
    for span in assigned {
        found.push(latched(&own, &read, *span))?;
    }
    Ok(found)
}

/// Whether a combinational block has a latch: some bit of a net or variable that it may assign is not assigned on each path, or is read
/// before it was assigned (1364-2005, 9.2). The block assigns no memory.
pub fn is_latched(
    alloc: Global,
    statement: &Statement<'_>,
    scope: &Scope<'_>,
) -> Result<bool, AllocError>
    requires objects { HasNarrowObjects (scope_at scope.now) }
    requires narrow { IsNarrowFlow (scope_at scope.now) (statement_of statement.now) }
    requires no_memory { AssignsNoMemory (scope_at scope.now) (statement_of statement.now) }
    ensures { IfOk result (λ r. IsTrue r ↔ HasLatchedBit (scope_at scope.now) (statement_of statement.now)) }
{
    let mut outside = Vec::new(alloc);
    let sure = walk(alloc, statement, scope, &mut outside)?;
    let mut assigned = Vec::new(alloc);
    add_assigned(statement, scope, &mut assigned)?;
    let found = all_latched(alloc, &sure, &outside, &assigned)?;
    Ok(one_has_variable_bit(scope, &found))
}

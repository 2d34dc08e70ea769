//! What of a target rests on bits that are not settled yet after an assignment.

ghost use Rattle.std.specs.Prelude.{◌≡◌, ◌↔◌, ◌≤◌, ◌<◌, ℕ, IsTrue, IfOk, OnOk};
ghost use Rattle.verilog_meaning.specs.Statement.{target_width};
ghost use Rattle.verilog_meaning.specs.Register.{is_set, may_reach};
ghost use Rattle.verilog_designs.specs.Dependence.{Bit, is_in};
ghost use Rattle.v_syntax.specs.Tree.{tree_of, target_of};
ghost use Rattle.v_value.specs.Scope.{scope_at};
ghost use Rattle.v_value.specs.Narrow.{IsNarrow, HasNarrowObjects};
ghost use Rattle.v_flow.specs.Spans.{existing};
ghost use Rattle.v_flow.specs.Narrow.{HasNarrowParts};
ghost use Rattle.v_masks.specs.Masks.{masked};
ghost use Rattle.v_paths.specs.Premises.{HasNoMemory};
ghost use Rattle.v_depend.specs.Resting.{IsThere, RestsAt, RestsAfterAssignment};

use crate::change::change_all;
use crate::copy::copied_bits;
use crate::part::add_changes;
use crate::plain::is_plain;
use crate::read::rests;
use std::alloc::{AllocError, Global};
use std::collections::BTreeMap;
use v_syntax::tree::{Expression, Target};
use v_value::scope::Scope;

/// All bits of a mask, or none.
fn all_or_none(all: bool) -> u128
    ensures { (j : ℕ) → j < 128 → is_set result j ≡ all }
{
    if all { u128::MAX } else { 0 }
}

/// The places below 128 of the value of an expression that rest on bits which are not settled: those to which a plain expression copies
/// one, and all or none of any other.
pub fn value_bits(
    alloc: Global,
    expression: &Expression<'_>,
    scope: &Scope<'_>,
    unsettled: &BTreeMap<&str, u128>,
) -> Result<u128, AllocError>
    requires objects { HasNarrowObjects (scope_at scope.now) }
    requires narrow { IsNarrow (scope_at scope.now) (tree_of expression.now) }
    requires variables { HasNoMemory (scope_at scope.now) (existing (scope_at scope.now) (masked unsettled.now)) }
    ensures { IfOk result (λ m. (j : ℕ) → j < 128 → IsTrue (is_set m j) ↔ RestsAt (masked unsettled.now) (scope_at scope.now) (tree_of expression.now) j) }
{
    if is_plain(expression, scope) {
        return Ok(copied_bits(expression, scope, unsettled));
    }
    let rests = rests(alloc, expression, scope, unsettled)?;
    Ok(all_or_none(rests))
}

/// Leaves in the table the bits that rest on its bits after an assignment. When memory runs out, nothing is said of the table.
pub fn take<'s>(
    alloc: Global,
    target: &Target<'s>,
    expression: &Expression<'_>,
    scope: &Scope<'_>,
    unsettled: &mut BTreeMap<&'s str, u128>,
) -> Result<(), AllocError>
    requires objects { HasNarrowObjects (scope_at scope.now) }
    requires target { HasNarrowParts (scope_at scope.now) (target_of target.now) }
    requires value { IsNarrow (scope_at scope.now) (tree_of expression.now) }
    requires at_most_128 { target_width (scope_at scope.now) (target_of target.now) ≤ 128 }
    requires reached { HasNoMemory (scope_at scope.now) (existing (scope_at scope.now) (may_reach (scope_at scope.now) (target_of target.now))) }
    requires variables { HasNoMemory (scope_at scope.now) (existing (scope_at scope.now) (masked unsettled.old)) }
    ensures { OnOk result ((u : Bit) → IsThere (scope_at scope.now) u
        → IsTrue (is_in (masked unsettled.new) u) ↔ RestsAfterAssignment (masked unsettled.old) (scope_at scope.now) (target_of target.now) (tree_of expression.now) u) }
{
    let value = value_bits(alloc, expression, scope, unsettled)?;
    let mut changes = Vec::new(alloc);
    add_changes(alloc, target, value, scope, unsettled, &mut changes)?;
    change_all(&changes, unsettled)?;
    Ok(())
}

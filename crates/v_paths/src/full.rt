//! Which cases are full: one of their items matches, whatever the value is (1364-2005, 9.5).

ghost use Rattle.std.specs.Prelude.{◌≡◌, ℕ, ◌≤◌, ◌^◌, max, ◌&&◌, ◌||◌, IfOk, OnOk};
ghost use Rattle.verilog_meaning.specs.Expression.{width_of, sign_of};
ghost use Rattle.verilog_meaning.specs.Statement.{greatest_width, all_signed, items_width};
ghost use Rattle.verilog_designs.specs.Reads.{has_default};
ghost use Rattle.v_syntax.specs.Tree.{tree_of, expressions_of, case_kind_of};
ghost use Rattle.v_value.specs.Scope.{scope_at};
ghost use Rattle.v_value.specs.Narrow.{IsNarrow, AreNarrow, HasNarrowObjects};
ghost use Rattle.v_statement.specs.Effects.{item_list};
ghost use Rattle.v_flow.specs.Flow.{IsNarrowLabel, AreNarrowItems};
ghost use Rattle.v_paths.specs.Cases.{full_at, case_width, case_signed, values_at, label_is, one_label_is, item_has, one_item_has, label_width, label_signed, has_number, all_below};

use std::alloc::{AllocError, Global};
use std::collections::BTreeSet;
use v_flow::is_constant;
use v_syntax::tree::{CaseItem, CaseKind, Expression};
use v_value::scope::Scope;
use v_value::sign::sign_of;
use v_value::value::value_in_context;
use v_value::width::width_of;

/// The width and the sign to which the expression of a case and its items are widened.
#[derive(Clone, Copy)]
struct Context {
    width: u32,
    signed: bool,
}

fn both(x: bool, y: bool) -> bool
    ensures { result ≡ (x && y) }
{
    x && y
}

/// The context, widened to a label.
fn joined(label: &Expression<'_>, scope: &Scope<'_>, context: Context) -> Context
    requires { IsNarrow (scope_at scope.now) (tree_of label.now) }
    ensures width { result.width ≡ max context.width (width_of (scope_at scope.now) (tree_of label.now)) }
    ensures signed { result.signed ≡ (context.signed && sign_of (scope_at scope.now) (tree_of label.now)) }
{
    Context {
        width: context.width.max(width_of(label, scope)),
        signed: both(context.signed, sign_of(label, scope)),
    }
}

fn joined_all(labels: &[Expression<'_>], scope: &Scope<'_>, mut context: Context) -> Context
    requires { AreNarrow (scope_at scope.now) (expressions_of labels.now) }
    ensures width { result.width ≡ max context.width (greatest_width (scope_at scope.now) (expressions_of labels.now)) }
    ensures signed { result.signed ≡ (context.signed && all_signed (scope_at scope.now) (expressions_of labels.now)) }
{
    for label in labels {
        context = joined(label, scope, context);
    }
    context
}

fn joined_item(item: &CaseItem<'_>, scope: &Scope<'_>, context: Context) -> Context
    requires { IsNarrowLabel (scope_at scope.now) item.now }
    ensures width { result.width ≡ max context.width (label_width (scope_at scope.now) item.now) }
    ensures signed { result.signed ≡ (context.signed && label_signed (scope_at scope.now) item.now) }
{
    match item {
        CaseItem::Values(labels, _) => joined_all(labels, scope, context),
        CaseItem::Default(_) => context,
    }
}

fn case_context<'s>(value: &Expression<'s>, items: &[CaseItem<'s>], scope: &Scope<'_>) -> Context
    requires narrow { IsNarrow (scope_at scope.now) (tree_of value.now) }
    requires items { AreNarrowItems (scope_at scope.now) items.now }
    ensures width { result.width ≡ case_width (scope_at scope.now) (tree_of value.now) (item_list items.now) }
    ensures signed { result.signed ≡ case_signed (scope_at scope.now) (tree_of value.now) (item_list items.now) }
{
    let mut context = Context {
        width: width_of(value, scope),
        signed: sign_of(value, scope),
    };
    for item in items {
        context = joined_item(item, scope, context);
    }
    context
}

/// Adds the value of a label, where it is constant.
fn add_value(
    label: &Expression<'_>,
    scope: &Scope<'_>,
    context: Context,
    values: &mut BTreeSet<u128>,
) -> Result<(), AllocError>
    requires objects { HasNarrowObjects (scope_at scope.now) }
    requires narrow { IsNarrow (scope_at scope.now) (tree_of label.now) }
    requires within { width_of (scope_at scope.now) (tree_of label.now) ≤ context.width }
    requires at_most_128 { context.width ≤ 128 }
    ensures { OnOk result ((x : ℕ) → has_number values.new x
        ≡ (has_number values.old x || label_is (scope_at scope.now) context.width context.signed x (tree_of label.now))) }
{
    if !is_constant(label, scope) {
        return Ok(());
    }
    let value = value_in_context(label, scope, &[], context.width, context.signed);
    values.insert(value)?;
    Ok(())
}

fn add_values(
    labels: &[Expression<'_>],
    scope: &Scope<'_>,
    context: Context,
    values: &mut BTreeSet<u128>,
) -> Result<(), AllocError>
    requires objects { HasNarrowObjects (scope_at scope.now) }
    requires narrow { AreNarrow (scope_at scope.now) (expressions_of labels.now) }
    requires within { greatest_width (scope_at scope.now) (expressions_of labels.now) ≤ context.width }
    requires at_most_128 { context.width ≤ 128 }
    ensures { OnOk result ((x : ℕ) → has_number values.new x
        ≡ (has_number values.old x || one_label_is (scope_at scope.now) context.width context.signed x labels.now)) }
{
    for label in labels {
        add_value(label, scope, context, values)?;
    }
    Ok(())
}

fn add_item_values(
    item: &CaseItem<'_>,
    scope: &Scope<'_>,
    context: Context,
    values: &mut BTreeSet<u128>,
) -> Result<(), AllocError>
    requires objects { HasNarrowObjects (scope_at scope.now) }
    requires narrow { IsNarrowLabel (scope_at scope.now) item.now }
    requires within { label_width (scope_at scope.now) item.now ≤ context.width }
    requires at_most_128 { context.width ≤ 128 }
    ensures { OnOk result ((x : ℕ) → has_number values.new x
        ≡ (has_number values.old x || item_has (scope_at scope.now) context.width context.signed x item.now)) }
{
    match item {
        CaseItem::Values(labels, _) => add_values(labels, scope, context, values),
        CaseItem::Default(_) => Ok(()),
    }
}

/// The values of the constant items, each widened so.
fn values_of(
    alloc: Global,
    items: &[CaseItem<'_>],
    scope: &Scope<'_>,
    context: Context,
) -> Result<BTreeSet<u128>, AllocError>
    requires objects { HasNarrowObjects (scope_at scope.now) }
    requires narrow { AreNarrowItems (scope_at scope.now) items.now }
    requires within { items_width (scope_at scope.now) (item_list items.now) ≤ context.width }
    requires at_most_128 { context.width ≤ 128 }
    ensures { IfOk result (λ t. (x : ℕ) → has_number t x ≡ one_item_has (scope_at scope.now) context.width context.signed x items.now) }
{
    let mut values = BTreeSet::new(alloc);
    for item in items {
        add_item_values(item, scope, context, &mut values)?;
    }
    Ok(values)
}

/// How many values have so many bits.
fn count_of(width: u32) -> u32
    requires { width ≤ 8 }
    ensures { result ≡ 2 ^ width }
{
    1 << width
}

fn has_value(values: &BTreeSet<u128>, value: u32) -> bool
    ensures { result ≡ has_number values.now value }
{
    let number = u128::from(value);
    values.contains(&number)
}

/// Whether all numbers below this one are among the values.
fn has_all_below(values: &BTreeSet<u128>, count: u32) -> bool
    ensures { result ≡ all_below (has_number values.now) count }
{
    for value in 0..count {
        if !has_value(values, value) {
            return false;
        }
    }
    true
}

/// Whether the items are at most 8 bits wide, and those that are constant have all values.
fn has_all_values<'s>(
    alloc: Global,
    value: &Expression<'s>,
    items: &[CaseItem<'s>],
    scope: &Scope<'_>,
) -> Result<bool, AllocError>
    requires objects { HasNarrowObjects (scope_at scope.now) }
    requires narrow { IsNarrow (scope_at scope.now) (tree_of value.now) }
    requires items { AreNarrowItems (scope_at scope.now) items.now }
    ensures { IfOk result (λ r. r ≡ values_at (scope_at scope.now) (tree_of value.now) (item_list items.now)) }
{
    let context = case_context(value, items, scope);
    if context.width > 8 {
        return Ok(false);
    }
    let values = values_of(alloc, items, scope, context)?;
    Ok(has_all_below(&values, count_of(context.width)))
}

/// Whether one of the items is the default.
fn has_default(items: &[CaseItem<'_>]) -> bool
    ensures { result ≡ has_default (item_list items.now) }
{
    for item in items {
        if let CaseItem::Default(_) = item {
            return true;
        }
    }
    false
}

/// Whether a case is full: it has a default, or the constant items of a `case` have all values.
pub fn is_full<'s>(
    alloc: Global,
    value: &Expression<'s>,
    items: &[CaseItem<'s>],
    scope: &Scope<'_>,
    kind: CaseKind,
) -> Result<bool, AllocError>
    requires objects { HasNarrowObjects (scope_at scope.now) }
    requires narrow { IsNarrow (scope_at scope.now) (tree_of value.now) }
    requires items { AreNarrowItems (scope_at scope.now) items.now }
    ensures { IfOk result (λ r. r ≡ full_at (scope_at scope.now) (case_kind_of kind) (tree_of value.now) (item_list items.now)) }
{
    if has_default(items) {
        return Ok(true);
    }
    match kind {
        CaseKind::Wild => Ok(false),
        CaseKind::Exact => {
            let all = has_all_values(alloc, value, items, scope)?;
            Ok(all)
        }
    }
}

//! Two drivers of one bit, and bits without a driver, asked where what these calls want can be tested.
ghost use Rattle.std.specs.Prelude.{◌≡◌, false, map};
ghost use Rattle.std.specs.List.{list_any};
ghost use Rattle.v_syntax.specs.Source.{item_of};
ghost use Rattle.v_hier.specs.Instances.{is_part};

use std::alloc::{AllocError, Global};
use v_drivers::has_two_drivers;
use v_narrow::are_objects_narrow;
use v_rules::items_rules;
use v_scopes::ModuleScope;
use v_size::{Names, is_unbroken};
use v_syntax::module::Item;
use v_undriven::has_undriven;

fn is_part(item: &Item<'_>) -> bool
    ensures { result ≡ is_part (item_of item.now) }
{
    match item {
        Item::Parameter(_) | Item::Instances(_, _, _) => true,
        Item::Port(_)
        | Item::Wires(_, _, _)
        | Item::Variables(_, _, _)
        | Item::Assign(_)
        | Item::Always(_, _) => false,
    }
}

/// Whether one of the items is a parameter or instances.
pub(crate) fn has_part(items: &[Item<'_>]) -> bool
    ensures { result ≡ list_any is_part (map item_of items.now) }
{
    for item in items {
        if is_part(item) {
            return true;
        }
    }
    false
}

/// Whether two drivers of such items drive one bit. Not so where they break a rule on expressions.
fn drive_twice(alloc: Global, items: &[Item<'_>], names: Names<'_, '_>) -> Result<bool, AllocError>
    requires alone { list_any is_part (map item_of items.now) ≡ false }
{
    let broken = items_rules(items, names);
    if !is_unbroken(broken) {
        return Ok(false);
    }
    has_two_drivers(alloc, items, names.scope)
}

/// Whether two drivers of the module drive one bit. Not so where it has parameters or instances, or breaks a rule on expressions.
pub fn two_drivers(
    alloc: Global,
    items: &[Item<'_>],
    names: &ModuleScope<'_>,
) -> Result<bool, AllocError> {
    if has_part(items) {
        return Ok(false);
    }
    let scope = names.to_scope(alloc)?;
    if !are_objects_narrow(&scope) {
        return Ok(false);
    }
    let narrow = Names { scope: &scope };
    let twice = drive_twice(alloc, items, narrow)?;
    Ok(twice)
}

/// Whether a bit that such items read has no driver. Not so where they break a rule on expressions.
fn lacks_driver<'s>(
    alloc: Global,
    items: &[Item<'s>],
    names: Names<'_, '_>,
    declared: &ModuleScope<'s>,
) -> Result<bool, AllocError>
    requires alone { list_any is_part (map item_of items.now) ≡ false }
{
    let broken = items_rules(items, names);
    if !is_unbroken(broken) {
        return Ok(false);
    }
    has_undriven(alloc, items, names.scope, declared, "c")
}

/// Whether a bit that the module reads has no driver, where its clock is `c`. Not so where it has parameters or instances, or breaks a
/// rule on expressions.
pub fn undriven<'s>(
    alloc: Global,
    items: &[Item<'s>],
    names: &ModuleScope<'s>,
) -> Result<bool, AllocError> {
    if has_part(items) {
        return Ok(false);
    }
    let scope = names.to_scope(alloc)?;
    if !are_objects_narrow(&scope) {
        return Ok(false);
    }
    let narrow = Names { scope: &scope };
    let lacks = lacks_driver(alloc, items, narrow, names)?;
    Ok(lacks)
}

//! What the values of continuous assignments use, asked for where what the calls want can be tested.
ghost use Rattle.std.specs.Prelude.{◌≡◌, false, map};
ghost use Rattle.std.specs.List.{list_any};
ghost use Rattle.v_syntax.specs.Source.{item_of};
ghost use Rattle.v_hier.specs.Instances.{is_part};
ghost use Rattle.v_value.specs.Scope.{scope_at};
ghost use Rattle.v_value.specs.Narrow.{HasNarrowObjects};
ghost use Rattle.v_fitting.specs.Wires.{HavePlainWires};

use crate::inputs::inputs_among;
use map_inputs::{comes_from_inputs, uses_input};
use std::alloc::{AllocError, Global};
use std::collections::BTreeMap;
use v_hier::has_duplicate;
use v_narrow::{are_objects_narrow, is_narrow};
use v_rules::items_rules;
use v_scopes::module_scope;
use v_size::{Names, is_unbroken};
use v_syntax::module::{Assignment, Item, Module};
use v_value::scope::Scope;

/// Whether an item is a parameter or instances.
fn is_part(item: &Item<'_>) -> bool
    ensures { result ≡ is_part (item_of item.now) }
{
    match item {
        Item::Parameter(_) | Item::Instances(_, _, _) => true,
        Item::Port(_)
        | Item::Wires(_, _, _)
        | Item::Variables(_, _, _)
        | Item::Assign(_)
        | Item::Always(_, _) => false,
    }
}

/// Whether one of the items is a parameter or instances.
fn has_part(items: &[Item<'_>]) -> bool
    ensures { result ≡ list_any is_part (map item_of items.now) }
{
    for item in items {
        if is_part(item) {
            return true;
        }
    }
    false
}

/// A letter for each of these assignments: `y` where its value uses an input, `n` where it does not, `w` where it is too wide.
fn add_letters(
    list: &[Assignment<'_>],
    scope: &Scope<'_>,
    marked: &BTreeMap<&str, u128>,
    alloc: Global,
    letters: &mut String,
) -> Result<(), AllocError>
    requires objects { HasNarrowObjects (scope_at scope.now) }
{
    for each in list {
        if !is_narrow(&each.value, scope) {
            letters.push_str("w")?;
            continue;
        }
        let names = v_renamed::Names {
            table: BTreeMap::new(alloc),
        };
        let used = uses_input(alloc, &each.value, scope, &names, marked)?;
        letters.push_str(if used { "y" } else { "n" })?;
    }
    Ok(())
}

fn letters_of(
    items: &[Item<'_>],
    scope: &Scope<'_>,
    marked: &BTreeMap<&str, u128>,
    alloc: Global,
) -> Result<String, AllocError>
    requires objects { HasNarrowObjects (scope_at scope.now) }
{
    let mut letters = String::new(alloc);
    for item in items {
        if let Item::Assign(list) = item {
            add_letters(list, scope, marked, alloc, &mut letters)?;
        }
    }
    Ok(letters)
}

/// The letters of such items; `rules` where they break a rule on expressions.
fn told_of_items<'s>(
    alloc: Global,
    items: &[Item<'s>],
    names: Names<'_, '_>,
    inputs: &[&'s str],
) -> Result<String, AllocError>
    requires alone { list_any is_part (map item_of items.now) ≡ false }
    requires plain { HavePlainWires (scope_at names.scope.now) (map item_of items.now) }
{
    let broken = items_rules(items, names);
    if !is_unbroken(broken) {
        return String::from_str(alloc, "rules");
    }
    let marked = comes_from_inputs(alloc, items, names.scope, inputs)?;
    letters_of(items, names.scope, &marked, alloc)
}

/// A letter for each continuous assignment of the module, in their order. No letters where it has parameters or instances, declares a
/// name twice, has a name of more than 128 bits, or breaks a rule on expressions.
pub(crate) fn told(alloc: Global, within: &Module<'_>) -> Result<String, AllocError> {
    let items = &within.items;
    if has_part(items) {
        return String::from_str(alloc, "parts");
    }
    let twice = has_duplicate(alloc, within)?;
    if twice {
        return String::from_str(alloc, "twice");
    }
    let declared = module_scope(alloc, within)?;
    let scope = declared.to_scope(alloc)?;
    if !are_objects_narrow(&scope) {
        return String::from_str(alloc, "wide");
    }
    let inputs = inputs_among(alloc, &declared, scope.declarations())?;
    let narrow = Names { scope: &scope };
    told_of_items(alloc, items, narrow, &inputs)
}

//! The modules that stand directly below a module, as numbers.

ghost use Rattle.std.specs.Prelude.{◌≡◌, ◌+◌, ℕ, Some, map, option_map, length, OnOk};
ghost use Rattle.std.specs.BTreeMap.{btree_map_len};
ghost use Rattle.verilog_trees.specs.Syntax.{Source};
ghost use Rattle.verilog_meaning.specs.Hierarchy.{module_named};
ghost use Rattle.v_syntax.specs.Source.{item_of, module_of};
ghost use Rattle.v_standing.specs.Standing.{module_at, left_in, numbered, items_of, IsBelow, IsBelowOne, AreAdded, AreWithin};

use std::alloc::AllocError;
use std::collections::BTreeMap;
use v_syntax::module::{Item, Module};

/// Adds the module of a name, where it was not found before.
pub(crate) fn add_named<'s>(
    name: &'s str,
    left: &mut BTreeMap<&'s str, usize>,
    found: &mut Vec<usize>,
) -> Result<(), AllocError>
    ensures added { OnOk result ((source : Source) → AreAdded source (λ n. module_named source name.now ≡ Some n)
        (left_in source left.old) (numbered source found.old.items) (left_in source left.new) (numbered source found.new.items)) }
    ensures within { OnOk result ((n : ℕ) → AreWithin n left.old found.old.items → AreWithin n left.new found.new.items) }
    ensures size { OnOk result (btree_map_len left.new + length found.new.items ≡ btree_map_len left.old + length found.old.items) }
{
    match left.remove(name) {
        Some(number) => {
            found.push(number)?;
            Ok(())
        }
        None => Ok(()),
    }
}

/// Adds the modules that stand directly below one by an item.
fn add_item<'s>(
    item: &Item<'s>,
    left: &mut BTreeMap<&'s str, usize>,
    found: &mut Vec<usize>,
) -> Result<(), AllocError>
    ensures added { OnOk result ((source : Source) → AreAdded source (IsBelow source (item_of item.now))
        (left_in source left.old) (numbered source found.old.items) (left_in source left.new) (numbered source found.new.items)) }
    ensures within { OnOk result ((n : ℕ) → AreWithin n left.old found.old.items → AreWithin n left.new found.new.items) }
    ensures size { OnOk result (btree_map_len left.new + length found.new.items ≡ btree_map_len left.old + length found.old.items) }
{
    match item {
        Item::Instances(name, _, _) => {
            add_named(*name, left, found)?;
            Ok(())
        }
        Item::Port(_)
        | Item::Parameter(_)
        | Item::Wires(_, _, _)
        | Item::Variables(_, _, _)
        | Item::Assign(_)
        | Item::Always(_, _) => Ok(()),
    }
}

/// Adds the modules that stand directly below one by its items.
fn add_items<'s>(
    items: &[Item<'s>],
    left: &mut BTreeMap<&'s str, usize>,
    found: &mut Vec<usize>,
) -> Result<(), AllocError>
    ensures added { OnOk result ((source : Source) → AreAdded source (IsBelowOne source (map item_of items.now))
        (left_in source left.old) (numbered source found.old.items) (left_in source left.new) (numbered source found.new.items)) }
    ensures within { OnOk result ((n : ℕ) → AreWithin n left.old found.old.items → AreWithin n left.new found.new.items) }
    ensures size { OnOk result (btree_map_len left.new + length found.new.items ≡ btree_map_len left.old + length found.old.items) }
{
    for item in items {
        add_item(item, left, found)?;
    }
    Ok(())
}

/// Adds the modules that stand directly below a module, if there is one.
fn add_found<'s>(
    within: Option<&Module<'s>>,
    left: &mut BTreeMap<&'s str, usize>,
    found: &mut Vec<usize>,
) -> Result<(), AllocError>
    ensures added { OnOk result ((source : Source) → AreAdded source (IsBelowOne source (items_of (option_map (λ m. module_of m.now) within.entry)))
        (left_in source left.old) (numbered source found.old.items) (left_in source left.new) (numbered source found.new.items)) }
    ensures within { OnOk result ((n : ℕ) → AreWithin n left.old found.old.items → AreWithin n left.new found.new.items) }
    ensures size { OnOk result (btree_map_len left.new + length found.new.items ≡ btree_map_len left.old + length found.old.items) }
{
    match within {
        Some(within) => {
            add_items(&within.items, left, found)?;
            Ok(())
        }
        None => Ok(()),
    }
}

/// Adds the modules that stand directly below the module with this number.
pub(crate) fn add_below<'s>(
    modules: &[Module<'s>],
    number: usize,
    left: &mut BTreeMap<&'s str, usize>,
    found: &mut Vec<usize>,
) -> Result<(), AllocError>
    ensures added { OnOk result ((source : Source) → AreAdded source (IsBelowOne source (module_at (map module_of modules.now) number).items)
        (left_in source left.old) (numbered source found.old.items) (left_in source left.new) (numbered source found.new.items)) }
    ensures within { OnOk result ((n : ℕ) → AreWithin n left.old found.old.items → AreWithin n left.new found.new.items) }
    ensures size { OnOk result (btree_map_len left.new + length found.new.items ≡ btree_map_len left.old + length found.old.items) }
{
    add_found(modules.get(number), left, found)?;
    Ok(())
}

//! The module that is the top of a design.
ghost use Rattle.std.specs.Prelude.{◌≡◌, map, option_map};
ghost use Rattle.verilog_meaning.specs.Hierarchy.{module_named};
ghost use Rattle.v_syntax.specs.Source.{item_of, module_of, source_of};
ghost use Rattle.std.specs.List.{list_any};
ghost use Rattle.v_hier.specs.Instances.{is_part, module_has_parts, has_parts};

use v_syntax::module::{Item, Module, Tree};

/// The module of this name, the first where several have it.
pub fn top_of<'t, 's>(tree: &'t Tree<'s>, top: &str) -> Option<&'t Module<'s>>
    ensures { option_map (λ m. module_of m.now) result ≡ module_named (source_of tree.now) top.now }
{
    for each in &tree.modules {
        if each.name == top {
            return Some(each);
        }
    }
    None
}

/// Whether the item is a parameter or instances.
fn is_part(item: &Item<'_>) -> bool
    ensures { result ≡ is_part (item_of item.now) }
{
    match item {
        Item::Parameter(_) => true,
        Item::Instances(_, _, _) => true,
        Item::Port(_) => false,
        Item::Wires(_, _, _) => false,
        Item::Variables(_, _, _) => false,
        Item::Assign(_) => false,
        Item::Always(_, _) => false,
    }
}

/// Whether one of the items is a parameter or instances.
fn has_part(items: &[Item<'_>]) -> bool
    ensures { result ≡ list_any is_part (map item_of items.now) }
{
    for item in items {
        if is_part(item) {
            return true;
        }
    }
    false
}

/// Whether the module has a parameter or an instance.
fn module_has_parts(within: &Module<'_>) -> bool
    ensures { result ≡ module_has_parts (module_of within.now) }
{
    !within.parameters.is_empty() || has_part(&within.items)
}

/// Whether some module of the source has a parameter or an instance.
pub fn has_parts(tree: &Tree<'_>) -> bool
    ensures { result ≡ has_parts (source_of tree.now) }
{
    for each in &tree.modules {
        if module_has_parts(each) {
            return true;
        }
    }
    false
}

//! Whether what a text says is what the calls take: all that stands in its blocks has at most 128 bits, and no name is a memory.

ghost use Rattle.std.specs.Prelude.{◌≡◌, false, map, IsTrue};
ghost use Rattle.wb_values.specs.Value.{Name};
ghost use Rattle.verilog_trees.specs.Syntax as pure;
ghost use Rattle.verilog_meaning.specs.Expression.{is_memory, scope_of};
ghost use Rattle.v_syntax.specs.Tree.{tree_of, target_of, select_of, selects_of, expressions_of};
ghost use Rattle.v_syntax.specs.Source.{item_of};
ghost use Rattle.v_value.specs.Scope.{objects_of, scope_at};
ghost use Rattle.v_value.specs.Narrow.{IsNarrow, AreNarrow, IsSelectNarrow, AreSelectsNarrow};
ghost use Rattle.v_flow.specs.Narrow.{HasNarrowParts};
ghost use Rattle.v_flow.specs.Flow.{IsNarrowLabel};
ghost use Rattle.v_paths.specs.Modules.{IsFitItem, AreFitItems};

use crate::flow::statement_fits;
use v_narrow::is_narrow;
use v_size::{Names, Position, place_in};
use v_syntax::module::Item;
use v_syntax::tree::{CaseItem, Expression, Select, Selects, Target};
use v_value::scope::Declaration;

/// Whether none of the names is a memory.
pub fn are_no_memories(declarations: &[Declaration<'_>]) -> bool
    ensures { IsTrue result → (n : Name) → is_memory (scope_of (objects_of declarations.now) n) ≡ false }
{
    for declaration in declarations {
        if declaration.object.addresses.is_some() {
            return false;
        }
    }
    true
}

/// Whether two expressions are narrow.
fn both_fit<'s>(first: &Expression<'s>, second: &Expression<'s>, names: Names<'_, '_>) -> bool
    ensures { IsTrue result → IsNarrow (scope_at names.entry.scope.now) (tree_of first.now) × IsNarrow (scope_at names.entry.scope.now) (tree_of second.now) }
{
    if !is_narrow(first, names.scope) {
        return false;
    }
    is_narrow(second, names.scope)
}

fn select_fits(select: &Select<'_>, names: Names<'_, '_>) -> bool
    ensures { IsTrue result → IsSelectNarrow (scope_at names.entry.scope.now) (select_of select.now) }
{
    match select {
        Select::Index(index) => is_narrow(index, names.scope),
        Select::Part(left, right) => both_fit(left, right, names),
        Select::PartUp(base, width) => both_fit(base, width, names),
        Select::PartDown(base, width) => both_fit(base, width, names),
    }
}

fn selects_fit(selects: &Selects<'_>, names: Names<'_, '_>) -> bool
    ensures { IsTrue result → AreSelectsNarrow (scope_at names.entry.scope.now) (selects_of selects.now) }
{
    match selects {
        Selects::Whole => true,
        Selects::One(select) => select_fits(select, names),
        Selects::Two(first, second) => {
            if !select_fits(first, names) {
                return false;
            }
            select_fits(second, names)
        }
    }
}

/// Whether a part of a target is narrow.
fn place_fits(selects: &Selects<'_>, names: Names<'_, '_>, name: &str) -> bool
    ensures { IsTrue result → IsNarrow (scope_at names.entry.scope.now) (pure.name name.now (selects_of selects.now)) }
{
    let place = place_in(selects, names, Position::Anywhere, names.scope.object(name));
    let Some(width) = place.1 else {
        return false;
    };
    if width == 0 {
        return false;
    }
    if width > 128 {
        return false;
    }
    selects_fit(selects, names)
}

/// Whether a target is a narrow part of one name.
pub fn target_fits(target: &Target<'_>, names: Names<'_, '_>) -> bool
    ensures { IsTrue result → HasNarrowParts (scope_at names.entry.scope.now) (target_of target.now) }
{
    match target {
        Target::Place(name, selects) => place_fits(selects, names, name),
        Target::Joined(_) => false,
    }
}

fn all_fit(labels: &[Expression<'_>], names: Names<'_, '_>) -> bool
    ensures { IsTrue result → AreNarrow (scope_at names.entry.scope.now) (expressions_of labels.now) }
{
    for label in labels {
        if !is_narrow(label, names.scope) {
            return false;
        }
    }
    true
}

/// Whether the labels of an item are narrow.
pub fn labels_fit(item: &CaseItem<'_>, names: Names<'_, '_>) -> bool
    ensures { IsTrue result → IsNarrowLabel (scope_at names.entry.scope.now) item.now }
{
    match item {
        CaseItem::Values(labels, _) => all_fit(labels, names),
        CaseItem::Default(_) => true,
    }
}

/// Whether an item of a module is no block, or one whose parts are narrow.
fn item_fits(item: &Item<'_>, names: Names<'_, '_>) -> bool
    requires { (n : Name) → is_memory (scope_at names.scope.now n) ≡ false }
    ensures { IsTrue result → IsFitItem (scope_at names.entry.scope.now) (item_of item.now) }
{
    match item {
        Item::Always(_, block) => statement_fits(block, names),
        Item::Port(_)
        | Item::Parameter(_)
        | Item::Wires(_, _, _)
        | Item::Variables(_, _, _)
        | Item::Assign(_)
        | Item::Instances(_, _, _) => true,
    }
}

/// Whether the parts of all blocks are narrow.
pub fn items_fit(items: &[Item<'_>], names: Names<'_, '_>) -> bool
    requires { (n : Name) → is_memory (scope_at names.scope.now n) ≡ false }
    ensures { IsTrue result → AreFitItems (scope_at names.entry.scope.now) (map item_of items.now) }
{
    for item in items {
        if !item_fits(item, names) {
            return false;
        }
    }
    true
}

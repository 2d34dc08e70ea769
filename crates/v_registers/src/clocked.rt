//! The bits that the clocked blocks of a module may assign, as spans.

ghost use Rattle.std.specs.Prelude.{◌≡◌, ◌∷◌, [], map, IfOk, OnOk};
ghost use Rattle.verilog_designs.specs.Reads.{or_in};
ghost use Rattle.verilog_meaning.specs.Register.{clocked_blocks, counts};
ghost use Rattle.v_syntax.specs.Source.{item_of};
ghost use Rattle.v_value.specs.Scope.{scope_at};
ghost use Rattle.v_value.specs.Narrow.{HasNarrowObjects};
ghost use Rattle.v_flow.specs.Spans.{bits_in};
ghost use Rattle.v_drivers.specs.Premises.{AreNarrowBlocks};

use crate::NoMemory;
use std::alloc::Global;
use v_flow::add_assigned;
use v_flow::span::Span;
use v_statement::register::is_clocked;
use v_syntax::module::Item;
use v_value::scope::Scope;

/// Adds the bits that an item may assign, where it is a clocked block.
fn add_item<'s>(
    item: &Item<'s>,
    scope: &Scope<'_>,
    found: &mut Vec<Span<'s>>,
) -> Result<(), NoMemory>
    requires objects { HasNarrowObjects (scope_at scope.now) }
    requires narrow { AreNarrowBlocks (scope_at scope.now) (clocked_blocks (item_of item.now ∷ [])) }
    ensures { OnOk result (bits_in found.new.items ≡ or_in (bits_in found.old.items) (counts (scope_at scope.now) (clocked_blocks (item_of item.now ∷ [])))) }
{
    match item {
        Item::Always(events, block) => {
            if !is_clocked(events) {
                return Ok(());
            }
            add_assigned(block, scope, found)
        }
        Item::Port(_)
        | Item::Parameter(_)
        | Item::Wires(_, _, _)
        | Item::Variables(_, _, _)
        | Item::Assign(_)
        | Item::Instances(_, _, _) => Ok(()),
    }
}

/// The bits that the clocked blocks may assign.
pub(crate) fn clocked_spans<'s>(
    alloc: Global,
    items: &[Item<'s>],
    scope: &Scope<'_>,
) -> Result<Vec<Span<'s>>, NoMemory>
    requires objects { HasNarrowObjects (scope_at scope.now) }
    requires narrow { AreNarrowBlocks (scope_at scope.now) (clocked_blocks (map item_of items.now)) }
    ensures { IfOk result (λ v. bits_in v.items ≡ counts (scope_at scope.now) (clocked_blocks (map item_of items.now))) }
{
    let mut found = Vec::new(alloc);
    for item in items {
        add_item(item, scope, &mut found)?;
    }
    Ok(found)
}

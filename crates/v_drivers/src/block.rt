//! The drivers that blocks are, the clocked ones and the others.

ghost use Rattle.std.specs.Prelude.{◌≡◌, ◌++◌, ◌∷◌, [], map, OnOk};
ghost use Rattle.verilog_meaning.specs.Register.{clocked_blocks, combinational_blocks};
ghost use Rattle.v_value.specs.Scope.{scope_at};
ghost use Rattle.v_value.specs.Narrow.{HasNarrowObjects};
ghost use Rattle.v_syntax.specs.Tree.{statement_of};
ghost use Rattle.v_syntax.specs.Source.{item_of};
ghost use Rattle.v_flow.specs.Narrow.{IsNarrowFlow};
ghost use Rattle.v_drivers.specs.Sets.{assigned_by, blocks_drivers};
ghost use Rattle.v_drivers.specs.Premises.{AreNarrowBlocks};
ghost use Rattle.v_drivers.specs.Lists.{sets_in};

use std::alloc::{AllocError, Global};
use v_flow::add_assigned;
use v_flow::span::Span;
use v_statement::register::is_clocked;
use v_syntax::module::Item;
use v_syntax::tree::Statement;
use v_value::scope::Scope;

/// Adds what a block drives, as one driver.
fn add_block<'s>(
    alloc: Global,
    block: &Statement<'s>,
    scope: &Scope<'_>,
    drivers: &mut Vec<Vec<Span<'s>>>,
) -> Result<(), AllocError>
    requires objects { HasNarrowObjects (scope_at scope.now) }
    requires narrow { IsNarrowFlow (scope_at scope.now) (statement_of block.now) }
    ensures { OnOk result (sets_in drivers.new.items ≡ sets_in drivers.old.items ++ assigned_by (scope_at scope.now) (statement_of block.now) ∷ []) }
{
    let mut spans = Vec::new(alloc);
    add_assigned(block, scope, &mut spans)?;
    drivers.push(spans)?;
    Ok(())
}

/// Adds what an item drives that is a clocked block.
fn add_if_clocked<'s>(
    alloc: Global,
    item: &Item<'s>,
    scope: &Scope<'_>,
    drivers: &mut Vec<Vec<Span<'s>>>,
) -> Result<(), AllocError>
    requires objects { HasNarrowObjects (scope_at scope.now) }
    requires narrow { AreNarrowBlocks (scope_at scope.now) (clocked_blocks (item_of item.now ∷ [])) }
    ensures { OnOk result (sets_in drivers.new.items ≡ sets_in drivers.old.items ++ blocks_drivers (scope_at scope.now) (clocked_blocks (item_of item.now ∷ []))) }
{
    match item {
        Item::Always(events, block) => {
            if !is_clocked(events) {
                return Ok(());
            }
            add_block(alloc, block, scope, drivers)
        }
        Item::Port(_)
        | Item::Parameter(_)
        | Item::Wires(_, _, _)
        | Item::Variables(_, _, _)
        | Item::Assign(_)
        | Item::Instances(_, _, _) => Ok(()),
    }
}

/// Adds what an item drives that is a block without a clock.
fn add_if_combinational<'s>(
    alloc: Global,
    item: &Item<'s>,
    scope: &Scope<'_>,
    drivers: &mut Vec<Vec<Span<'s>>>,
) -> Result<(), AllocError>
    requires objects { HasNarrowObjects (scope_at scope.now) }
    requires narrow { AreNarrowBlocks (scope_at scope.now) (combinational_blocks (item_of item.now ∷ [])) }
    ensures { OnOk result (sets_in drivers.new.items ≡ sets_in drivers.old.items ++ blocks_drivers (scope_at scope.now) (combinational_blocks (item_of item.now ∷ []))) }
{
    match item {
        Item::Always(events, block) => {
            if is_clocked(events) {
                return Ok(());
            }
            add_block(alloc, block, scope, drivers)
        }
        Item::Port(_)
        | Item::Parameter(_)
        | Item::Wires(_, _, _)
        | Item::Variables(_, _, _)
        | Item::Assign(_)
        | Item::Instances(_, _, _) => Ok(()),
    }
}

/// Adds the clocked blocks.
pub(crate) fn add_clocked<'s>(
    alloc: Global,
    items: &[Item<'s>],
    scope: &Scope<'_>,
    drivers: &mut Vec<Vec<Span<'s>>>,
) -> Result<(), AllocError>
    requires objects { HasNarrowObjects (scope_at scope.now) }
    requires narrow { AreNarrowBlocks (scope_at scope.now) (clocked_blocks (map item_of items.now)) }
    ensures { OnOk result (sets_in drivers.new.items ≡ sets_in drivers.old.items ++ blocks_drivers (scope_at scope.now) (clocked_blocks (map item_of items.now))) }
{
    for item in items {
        add_if_clocked(alloc, item, scope, drivers)?;
    }
    Ok(())
}

/// Adds the blocks without a clock.
pub(crate) fn add_combinational<'s>(
    alloc: Global,
    items: &[Item<'s>],
    scope: &Scope<'_>,
    drivers: &mut Vec<Vec<Span<'s>>>,
) -> Result<(), AllocError>
    requires objects { HasNarrowObjects (scope_at scope.now) }
    requires narrow { AreNarrowBlocks (scope_at scope.now) (combinational_blocks (map item_of items.now)) }
    ensures { OnOk result (sets_in drivers.new.items ≡ sets_in drivers.old.items ++ blocks_drivers (scope_at scope.now) (combinational_blocks (map item_of items.now))) }
{
    for item in items {
        add_if_combinational(alloc, item, scope, drivers)?;
    }
    Ok(())
}

//! What the clocked blocks of one module leave at the clock's edge.
ghost use Rattle.std.specs.Prelude.{◌≡◌, ◌≤◌, ◌++◌, ◌∷◌, [], OnOk, OnErr, map};
ghost use Rattle.verilog_meaning.specs.Statement.{run, with_updates};
ghost use Rattle.verilog_meaning.specs.Register.{is_edge, has_edge, is_clocked, clocked_blocks, updates_of_blocks, after_edge};
ghost use Rattle.v_value.specs.Scope.{scope_at, valuation_at};
ghost use Rattle.v_syntax.specs.Source.{edge_of, events_of, item_of};
ghost use Rattle.v_statement.specs.Places.{updates_of};
ghost use Rattle.v_syntax.specs.Tree.{statement_of};
ghost use Rattle.v_statement.specs.Statements.{IsReadyFor, IsNarrowStatement};
ghost use Rattle.v_statement.specs.Registers.{events_list, AreNarrowBlocks, AreNarrowUpdates};

use crate::copy::copied;
use crate::place::Update;
use crate::statement::run_statement;
use crate::write::write;
use std::alloc::{AllocError, Global};
use v_syntax::module::{EdgeKind, Event, Events, Item};
use v_syntax::tree::Statement;
use v_value::scope::{Entry, Scope, Values};

/// Whether the event is an edge.
fn is_edge(kind: EdgeKind) -> bool
    ensures { result ≡ is_edge (edge_of kind) }
{
    match kind {
        EdgeKind::Posedge | EdgeKind::Negedge => true,
        EdgeKind::AnyEdge => false,
    }
}

/// Whether one of the events is an edge.
fn has_edge(events: &[Event<'_>]) -> bool
    ensures { result ≡ has_edge (events_list events.now) }
{
    for event in events {
        if is_edge(event.edge) {
            return true;
        }
    }
    false
}

/// Whether a block with these events is clocked: whether one of them is an edge.
pub fn is_clocked(events: &Events<'_>) -> bool
    ensures { result ≡ is_clocked (events_of events.now) }
{
    match events {
        Events::AnyChange => false,
        Events::OnEvents(list) => has_edge(list),
    }
}

/// Runs a block on a copy of the values, and adds its updates after those that wait.
fn add_updates<'s>(
    alloc: Global,
    block: &Statement<'s>,
    scope: &Scope<'_>,
    values: &[Entry<'s>],
    updates: &mut Vec<Update<'s>>,
) -> Result<(), AllocError>
    requires ready { IsReadyFor (scope_at scope.now) (valuation_at values.now) }
    requires narrow { IsNarrowStatement (scope_at scope.now) (statement_of block.now) }
    ensures { OnOk result (updates_of updates.new.items
        ≡ updates_of updates.old.items ++ (run (scope_at scope.now) (statement_of block.now) (valuation_at values.now)).updates) }
{
    let mut copy = copied(alloc, values)?;
    run_statement(alloc, block, scope, &mut copy, updates)
}

/// Adds the updates of the item's block where it is clocked.
fn add_item<'s>(
    alloc: Global,
    item: &Item<'s>,
    scope: &Scope<'_>,
    values: &[Entry<'s>],
    updates: &mut Vec<Update<'s>>,
) -> Result<(), AllocError>
    requires ready { IsReadyFor (scope_at scope.now) (valuation_at values.now) }
    requires narrow { AreNarrowBlocks (scope_at scope.now) (clocked_blocks (item_of item.now ∷ [])) }
    ensures { OnOk result (updates_of updates.new.items
        ≡ updates_of updates.old.items
        ++ updates_of_blocks (scope_at scope.now) (valuation_at values.now) (clocked_blocks (item_of item.now ∷ []))) }
{
    match item {
        Item::Always(events, block) => {
            if is_clocked(events) {
                add_updates(alloc, block, scope, values, updates)
            } else {
                Ok(())
            }
        }
        Item::Port(_)
        | Item::Parameter(_)
        | Item::Wires(_, _, _)
        | Item::Variables(_, _, _)
        | Item::Assign(_)
        | Item::Instances(_, _, _) => Ok(()),
    }
}

/// Adds the updates of the clocked blocks among the items, each run on the same values, in the order of the text.
fn add_clocked<'s>(
    alloc: Global,
    items: &[Item<'s>],
    scope: &Scope<'_>,
    values: &[Entry<'s>],
    updates: &mut Vec<Update<'s>>,
) -> Result<(), AllocError>
    requires ready { IsReadyFor (scope_at scope.now) (valuation_at values.now) }
    requires narrow { AreNarrowBlocks (scope_at scope.now) (clocked_blocks (map item_of items.now)) }
    ensures { OnOk result (updates_of updates.new.items
        ≡ updates_of updates.old.items
        ++ updates_of_blocks (scope_at scope.now) (valuation_at values.now) (clocked_blocks (map item_of items.now))) }
{
    for item in items {
        add_item(alloc, item, scope, values, updates)?;
    }
    Ok(())
}

/// The updates take place in their order.
fn apply<'s>(
    alloc: Global,
    scope: &Scope<'_>,
    updates: &[Update<'s>],
    values: &mut Values<'s>,
) -> Result<(), AllocError>
    requires ready { IsReadyFor (scope_at scope.now) (valuation_at values.old.entries.items) }
    requires narrow { AreNarrowUpdates (updates_of updates.now) }
    ensures { OnOk result (valuation_at values.new.entries.items
        ≡ with_updates (scope_at scope.now) (valuation_at values.old.entries.items) (updates_of updates.now)) }
{
    for update in updates {
        write(alloc, scope, values, &update.places, update.value)?;
    }
    Ok(())
}

/// What the clocked blocks among a module's items leave at the clock's edge: each is run on the values, and their updates take
/// place in their order. A name that a block assigns and that has no value yet gets one. When memory runs out, the values
/// stay as they were.
pub fn after_edge<'s>(
    alloc: Global,
    items: &[Item<'s>],
    scope: &Scope<'_>,
    values: &mut Values<'s>,
) -> Result<(), AllocError>
    requires ready { IsReadyFor (scope_at scope.now) (valuation_at values.old.entries.items) }
    requires narrow { AreNarrowBlocks (scope_at scope.now) (clocked_blocks (map item_of items.now)) }
    ensures after { OnOk result (valuation_at values.new.entries.items
        ≡ after_edge (scope_at scope.now) (clocked_blocks (map item_of items.now)) (valuation_at values.old.entries.items)) }
    ensures kept { OnErr result (values.new.entries.items ≡ values.old.entries.items) }
{
    let mut updates = Vec::new(alloc);
    add_clocked(alloc, items, scope, &values.entries, &mut updates)?;
    let mut after = copied(alloc, &values.entries)?;
    apply(alloc, scope, &updates, &mut after)?;
    *values = after;
    Ok(())
}

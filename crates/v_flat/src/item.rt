//! What the items of the modules drive, under dotted names.
ghost use Rattle.std.specs.Prelude.{◌≡◌, ◌++◌, Some, map, IfOk, OnOk};
ghost use Rattle.verilog_trees.specs.Syntax as pure;
ghost use Rattle.verilog_meaning.specs.Settled.{wire_assignment, wire_assignments};
ghost use Rattle.verilog_renamed.specs.Renamed.{renamed_assignments};
ghost use Rattle.v_syntax.specs.Tree.{tree_of};
ghost use Rattle.v_syntax.specs.Source.{boxed_tree_of, events_of, item_of};
ghost use Rattle.v_renamed.specs.NewNames.{new_name};
ghost use Rattle.v_flat.specs.Items.{renamed_event, renamed_events, own_item, own_items};
ghost use Rattle.v_flat.specs.Views.{assignments_of, event_of};

use std::alloc::{AllocError, Global};
use v_renamed::{Names, name_for, renamed_assignment, renamed_expression, renamed_statement};
use v_syntax::module::{Assignment, Event, Events, Item, Wire};
use v_syntax::tree::{Expression, Selects, Target};

/// Assignments under new names.
fn assignments<'a, 's: 'a>(
    assigned: &[Assignment<'s>],
    names: &Names<'a>,
    alloc: Global,
) -> Result<Vec<Assignment<'a>>, AllocError>
    ensures { IfOk result (λ v. assignments_of v.items ≡ renamed_assignments (new_name names.now) (assignments_of assigned.now)) }
{
    let mut list = Vec::new(alloc);
    for each in assigned {
        let assignment = renamed_assignment(alloc, each, names)?;
        list.push(assignment)?;
    }
    Ok(list)
}

/// Adds the assignment that a declaration of a net gives it.
fn add_wire<'a, 's: 'a>(
    value: &Expression<'s>,
    wire: &'s str,
    names: &Names<'a>,
    list: &mut Vec<Assignment<'a>>,
    alloc: Global,
) -> Result<(), AllocError>
    ensures { OnOk result (assignments_of list.new.items ≡ assignments_of list.old.items ++ renamed_assignments (new_name names.now) (wire_assignment wire.now (Some (tree_of value.now)))) }
{
    let value = renamed_expression(alloc, value, names)?;
    let target = Target::Place(name_for(names, wire), Selects::Whole);
    list.push(Assignment { target, value })?;
    Ok(())
}

/// Adds the assignment that a declaration of a net gives it, if there is one.
fn add_net<'a, 's: 'a>(
    net: &Wire<'s>,
    names: &Names<'a>,
    list: &mut Vec<Assignment<'a>>,
    alloc: Global,
) -> Result<(), AllocError>
    ensures { OnOk result (assignments_of list.new.items ≡ assignments_of list.old.items ++ renamed_assignments (new_name names.now) (wire_assignment net.now.name.now (boxed_tree_of net.now.value))) }
{
    match &net.value {
        Some(value) => {
            add_wire(value, net.name, names, list, alloc)?;
            Ok(())
        }
        None => Ok(()),
    }
}

/// The assignments that declarations of nets give them, under new names.
fn wires<'a, 's: 'a>(
    nets: &[Wire<'s>],
    names: &Names<'a>,
    alloc: Global,
) -> Result<Vec<Assignment<'a>>, AllocError>
    ensures { IfOk result (λ v. assignments_of v.items ≡ renamed_assignments (new_name names.now) (wire_assignments (map (λ w. (w.name.now, boxed_tree_of w.value)) nets.now))) }
{
    let mut list = Vec::new(alloc);
    for net in nets {
        add_net(net, names, &mut list, alloc)?;
    }
    Ok(list)
}

/// Events under new names.
fn on_events<'a, 's: 'a>(
    events: &[Event<'s>],
    names: &Names<'a>,
    alloc: Global,
) -> Result<Vec<Event<'a>>, AllocError>
    ensures { IfOk result (λ v. map event_of v.items ≡ map (renamed_event (new_name names.now)) (map event_of events.now)) }
{
    let mut list = Vec::new(alloc);
    for event in events {
        list.push(Event {
            edge: event.edge,
            signal: name_for(names, event.signal),
        })?;
    }
    Ok(list)
}

/// What a block waits for, under new names.
fn events<'a, 's: 'a>(
    waited: &Events<'s>,
    names: &Names<'a>,
    alloc: Global,
) -> Result<Events<'a>, AllocError>
    ensures { IfOk result (λ e. events_of e ≡ renamed_events (new_name names.now) (events_of waited.now)) }
{
    match waited {
        Events::AnyChange => Ok(Events::AnyChange),
        Events::OnEvents(events) => {
            let events = on_events(events, names, alloc)?;
            Ok(Events::OnEvents(events))
        }
    }
}

/// Adds what an item drives, instances aside.
fn add_item<'a, 's: 'a>(
    item: &Item<'s>,
    names: &Names<'a>,
    list: &mut Vec<Item<'a>>,
    alloc: Global,
) -> Result<(), AllocError>
    ensures { OnOk result (map item_of list.new.items ≡ map item_of list.old.items ++ own_item (new_name names.now) (item_of item.now)) }
{
    match item {
        Item::Wires(_, _, nets) => {
            let links = wires(nets, names, alloc)?;
            list.push(Item::Assign(links))?;
            Ok(())
        }
        Item::Assign(links) => {
            let links = assignments(links, names, alloc)?;
            list.push(Item::Assign(links))?;
            Ok(())
        }
        Item::Always(waited, statement) => {
            let waited = events(waited, names, alloc)?;
            let statement = renamed_statement(alloc, statement, names)?;
            list.push(Item::Always(waited, statement))?;
            Ok(())
        }
        Item::Instances(_, _, _) => Ok(()),
        Item::Port(_) => Ok(()),
        Item::Parameter(_) => Ok(()),
        Item::Variables(_, _, _) => Ok(()),
    }
}

/// Adds what items drive, instances aside.
pub(crate) fn add_items<'a, 's: 'a>(
    items: &[Item<'s>],
    names: &Names<'a>,
    list: &mut Vec<Item<'a>>,
    alloc: Global,
) -> Result<(), AllocError>
    ensures { OnOk result (map item_of list.new.items ≡ map item_of list.old.items ++ own_items (new_name names.now) (map item_of items.now)) }
{
    for item in items {
        add_item(item, names, list, alloc)?;
    }
    Ok(())
}

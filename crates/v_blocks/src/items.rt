//! Assignments of the wrong kind in the blocks of a module (1364-2005, 9.9).

ghost use Rattle.std.specs.Prelude.{◌≡◌, map, position};
ghost use Rattle.verilog_meaning.specs.Register.{is_clocked, has_edge, is_edge};
ghost use Rattle.v_syntax.specs.Source.{edge_of, events_of, item_of};
ghost use Rattle.v_blocks.specs.Blocks.{event_of, is_blocking_in_clocked, is_nonblocking_in_combinational};

use crate::assignments::assignments_in;
use v_syntax::module::{EdgeKind, Event, Events, Item};

fn is_edge(kind: EdgeKind) -> bool
    ensures { result ≡ is_edge (edge_of kind) }
{
    match kind {
        EdgeKind::Posedge | EdgeKind::Negedge => true,
        EdgeKind::AnyEdge => false,
    }
}

/// Whether a block is clocked: some event of its list is an edge.
pub fn is_clocked(events: &Events<'_>) -> bool
    ensures { result ≡ is_clocked (events_of events.now) }
{
    match events {
        Events::AnyChange => false,
        Events::OnEvents(list) => has_edge(list),
    }
}

fn has_edge(events: &[Event<'_>]) -> bool
    ensures { result ≡ has_edge (map event_of events.now) }
{
    for event in events {
        if is_edge(event.edge) {
            return true;
        }
    }
    false
}

fn is_blocking_in_clocked(item: &Item<'_>) -> bool
    ensures { result ≡ is_blocking_in_clocked (item_of item.now) }
{
    match item {
        Item::Always(events, statement) => is_clocked(events) && assignments_in(statement).blocking,
        _ => false,
    }
}

fn is_nonblocking_in_combinational(item: &Item<'_>) -> bool
    ensures { result ≡ is_nonblocking_in_combinational (item_of item.now) }
{
    match item {
        Item::Always(events, statement) => {
            !is_clocked(events) && assignments_in(statement).nonblocking
        }
        _ => false,
    }
}

/// The index of the first item that is a clocked block with a blocking assignment, if some item is.
pub fn first_blocking_in_clocked(items: &[Item<'_>]) -> Option<usize>
    ensures { result ≡ position (λ i. is_blocking_in_clocked (item_of i)) items.now }
{
    items.iter().position(|item| is_blocking_in_clocked(item))
}

/// The index of the first item that is a combinational block with a nonblocking assignment, if some item is.
pub fn first_nonblocking_in_combinational(items: &[Item<'_>]) -> Option<usize>
    ensures { result ≡ position (λ i. is_nonblocking_in_combinational (item_of i)) items.now }
{
    items
        .iter()
        .position(|item| is_nonblocking_in_combinational(item))
}

//! The lists of events that blocks may have (1364-2005, 9.7).

ghost use Rattle.std.specs.Prelude.{◌≡◌, ◌↔◌, ◌≤◌, ℕ, List, ◌&&◌, ◌||◌, ◌==◌, not, false, is_none, IsTrue, IfOk};
ghost use Rattle.verilog_meaning.specs.Expression.{object_width, is_memory};
ghost use Rattle.verilog_meaning.specs.Register.{is_clocked, is_edge};
ghost use Rattle.verilog_designs.specs.Names.{is_among};
ghost use Rattle.verilog_designs.specs.Paths.{signals};
ghost use Rattle.v_syntax.specs.Tree.{statement_of};
ghost use Rattle.v_syntax.specs.Source.{edge_of, events_of};
ghost use Rattle.v_value.specs.Scope.{object_of, scope_at};
ghost use Rattle.v_value.specs.Narrow.{HasNarrowObjects};
ghost use Rattle.v_statement.specs.Registers.{events_list};
ghost use Rattle.v_flow.specs.Narrow.{IsNarrowFlow};
ghost use Rattle.v_hier.specs.Tables.{has_name};
ghost use Rattle.v_paths.specs.Premises.{AssignsNoMemory};
ghost use Rattle.v_paths.specs.Latches.{has_bit, one_has_bit};
ghost use Rattle.v_paths.specs.Events.{CoversIn, IsEventListIn, event_of, is_posedge, is_clock_edge, is_bit_edge, is_clock_pair, is_clock_list};

use crate::latch::has_bit;
use crate::path::walk;
use std::alloc::{AllocError, Global};
use std::collections::BTreeSet;
use v_flow::span::Span;
use v_statement::register::is_clocked;
use v_syntax::module::{EdgeKind, Event, Events};
use v_syntax::tree::Statement;
use v_value::scope::{Object, Scope};
use v_value::width::object_width;

/// The names of events.
fn signal_set<'s>(alloc: Global, events: &[Event<'s>]) -> Result<BTreeSet<&'s str>, AllocError>
    ensures { IfOk result (λ t. (q : List ℕ) → has_name t q ≡ is_among (signals (events_list events.now)) q) }
{
    let mut names = BTreeSet::new(alloc);
    for event in events {
        names.insert(event.signal)?;
    }
    Ok(names)
}

/// Whether a span has some bit, and its name is not among these.
fn is_unnamed<'s>(names: &BTreeSet<&'s str>, span: Span<'_>) -> bool
    ensures { result ≡ (has_bit span.entry && not (has_name names.now span.entry.name.now)) }
{
    if !has_bit(span) {
        return false;
    }
    !names.contains(span.name)
}

fn one_is_unnamed<'s>(names: &BTreeSet<&'s str>, spans: &[Span<'_>]) -> bool
    ensures { result ≡ one_has_bit (λ n. not (has_name names.now n)) spans.now }
{
    for span in spans {
        if is_unnamed(names, *span) {
            return true;
        }
    }
    false
}

/// Whether the names of events cover all that a combinational block reads from outside. The block assigns no memory.
pub fn covers_reads(
    alloc: Global,
    statement: &Statement<'_>,
    scope: &Scope<'_>,
    events: &[Event<'_>],
) -> Result<bool, AllocError>
    requires objects { HasNarrowObjects (scope_at scope.now) }
    requires narrow { IsNarrowFlow (scope_at scope.now) (statement_of statement.now) }
    requires no_memory { AssignsNoMemory (scope_at scope.now) (statement_of statement.now) }
    ensures { IfOk result (λ r. IsTrue r ↔ CoversIn (scope_at scope.now) (events_list events.now) (statement_of statement.now)) }
{
    let mut outside = Vec::new(alloc);
    let _sure = walk(alloc, statement, scope, &mut outside)?;
    let names = signal_set(alloc, events)?;
    Ok(!one_is_unnamed(&names, &outside))
}

fn is_posedge(kind: EdgeKind) -> bool
    ensures { result ≡ is_posedge (edge_of kind) }
{
    match kind {
        EdgeKind::Posedge => true,
        EdgeKind::Negedge | EdgeKind::AnyEdge => false,
    }
}

fn is_edge(kind: EdgeKind) -> bool
    ensures { result ≡ is_edge (edge_of kind) }
{
    match kind {
        EdgeKind::Posedge | EdgeKind::Negedge => true,
        EdgeKind::AnyEdge => false,
    }
}

fn is_clock_edge(clocks: &BTreeSet<&str>, event: Event<'_>) -> bool
    ensures { result ≡ is_clock_edge (has_name clocks.now) (event_of event.entry) }
{
    is_posedge(event.edge) && clocks.contains(event.signal)
}

/// Whether an object is a net or variable of one bit.
fn is_bit(object: Object) -> bool
    requires { object_width (object_of object) ≤ 128 }
    ensures { result ≡ (object.is_declared && (is_none object.constant && (not (is_memory (object_of object)) && (object_width (object_of object) == 1)))) }
{
    if !object.is_declared {
        return false;
    }
    if object.constant.is_some() {
        return false;
    }
    if object.addresses.is_some() {
        return false;
    }
    object_width(object) == 1
}

fn is_bit_edge(scope: &Scope<'_>, event: Event<'_>) -> bool
    requires { HasNarrowObjects (scope_at scope.now) }
    ensures { result ≡ is_bit_edge (scope_at scope.now) (event_of event.entry) }
{
    if !is_edge(event.edge) {
        return false;
    }
    is_bit(scope.object(event.signal))
}

/// Whether one event is a clock's edge and the other that of a bit of another name.
fn is_clock_pair(
    scope: &Scope<'_>,
    clocks: &BTreeSet<&str>,
    first: Event<'_>,
    second: Event<'_>,
) -> bool
    requires { HasNarrowObjects (scope_at scope.now) }
    ensures { result ≡ is_clock_pair (scope_at scope.now) (has_name clocks.now) (event_of first.entry) (event_of second.entry) }
{
    if !is_clock_edge(clocks, first) {
        return false;
    }
    if !is_bit_edge(scope, second) {
        return false;
    }
    first.signal != second.signal
}

fn either(x: bool, y: bool) -> bool
    ensures { result ≡ (x || y) }
{
    x || y
}

/// Whether a list with an edge is one that a clocked block may have.
fn is_clock_list(scope: &Scope<'_>, clocks: &BTreeSet<&str>, events: &[Event<'_>]) -> bool
    requires { HasNarrowObjects (scope_at scope.now) }
    ensures { result ≡ is_clock_list (scope_at scope.now) (has_name clocks.now) (events_list events.now) }
{
    if events.len() == 1 {
        return is_clock_edge(clocks, events[0]);
    }
    if events.len() != 2 {
        return false;
    }
    either(
        is_clock_pair(scope, clocks, events[0], events[1]),
        is_clock_pair(scope, clocks, events[1], events[0]),
    )
}

/// Whether a list of events is one that the block may have: a clock's edge; that and another name's edge, in either order; `*`; names
/// that cover what the block reads from outside. A block without an edge assigns no memory.
pub fn has_event_list(
    alloc: Global,
    statement: &Statement<'_>,
    scope: &Scope<'_>,
    clocks: &BTreeSet<&str>,
    events: &Events<'_>,
) -> Result<bool, AllocError>
    requires objects { HasNarrowObjects (scope_at scope.now) }
    requires narrow { IsNarrowFlow (scope_at scope.now) (statement_of statement.now) }
    requires no_memory { is_clocked (events_of events.now) ≡ false → AssignsNoMemory (scope_at scope.now) (statement_of statement.now) }
    ensures { IfOk result (λ r. IsTrue r ↔ IsEventListIn (scope_at scope.now) (has_name clocks.now) (statement_of statement.now) (events_of events.now)) }
{
    match events {
        Events::AnyChange => Ok(true),
        Events::OnEvents(list) => {
            if is_clocked(events) {
                return Ok(is_clock_list(scope, clocks, list));
            }
            let covers = covers_reads(alloc, statement, scope, list)?;
            Ok(covers)
        }
    }
}

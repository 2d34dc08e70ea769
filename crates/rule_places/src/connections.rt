//! What is connected to the ports of an instance, or overrides parameters, laid out.

use crate::expressions::{add_expression, add_output, end_assignment, is_target};
use crate::kind::RuleKind;
use crate::layout::Layout;
use crate::piece::{NO_NAME, Site, What};
use crate::rules::outer;
use crate::scopes::Scopes;
use v_instances::interface::Interface;
use v_syntax::module::{Connections, Direction, NamedConnection};
use v_syntax::tree::Expression;

/// To what something is connected: the module below, whether to a port or to a parameter, and the name in the text that has the list.
#[derive(Clone, Copy)]
pub(crate) struct Side<'n, 's> {
    pub(crate) below: Option<&'n Interface<'s>>,
    pub(crate) is_port: bool,
    pub(crate) owner: usize,
}

impl<'n, 's> Side<'n, 's> {
    /// The ports of an instance whose name stands there in the text.
    pub(crate) fn of_ports(self, owner: usize) -> Side<'n, 's> {
        let below = self.below;
        Side {
            below,
            is_port: true,
            owner,
        }
    }
}

/// Whether a name is one of the ports, or parameters.
fn has_name(side: Side<'_, '_>, name: &str) -> bool {
    match side.below {
        Some(below) if side.is_port => below.ports.set.contains(name),
        Some(below) => below.parameters.set.contains(name),
        None => false,
    }
}

/// The name of the port, or the parameter, at a place of the list.
fn name_at<'s>(side: Side<'_, 's>, place: usize) -> Option<&'s str> {
    match side.below {
        Some(below) if side.is_port => below.ports.order.get(place).copied(),
        Some(below) => below.parameters.order.get(place).copied(),
        None => None,
    }
}

/// Whether a name is an output.
fn is_output(side: Side<'_, '_>, name: &str) -> bool {
    match side.below {
        Some(below) => matches!(below.directions.get(name).copied(), Some(Direction::Output)),
        None => false,
    }
}

/// Adds the target that is connected to an output.
fn add_to_output<'s>(
    value: &Expression<'s>,
    scopes: Scopes<'_, 's>,
    port: &'s str,
    out: &mut Layout<'s>,
) {
    let from = out.pieces.len();
    add_output(value, scopes, outer(Site::Link, true), out);
    let number = out.link(port);
    out.add(What::Copied, number, u128::MAX, true, Site::Link);
    out.add(What::Assigned, number, 0, true, Site::Link);
    out.end_driver(from, Site::Link);
}

/// Adds the value that is connected to an input.
fn add_to_input<'s>(
    value: &Expression<'s>,
    scopes: Scopes<'_, 's>,
    port: &'s str,
    out: &mut Layout<'s>,
) {
    let from = out.pieces.len();
    let number = out.link(port);
    out.add(What::Into, number, u128::MAX, true, Site::Link);
    add_expression(value, scopes, outer(Site::Input, false), out);
    end_assignment(value, scopes, Site::Link, out);
    out.end_driver(from, Site::Link);
}

/// Adds what is connected to a port, or overrides a parameter. Where that is no target and has to be one, this name or number is told.
fn add_connected<'s>(
    value: &Expression<'s>,
    side: Side<'_, 's>,
    scopes: Scopes<'_, 's>,
    port: &'s str,
    token: usize,
    out: &mut Layout<'s>,
) {
    if !side.is_port {
        add_expression(value, scopes, outer(Site::Declaration, true), out);
    } else if !is_output(side, port) {
        add_to_input(value, scopes, port, out);
    } else if is_target(value) {
        add_to_output(value, scopes, port, out);
    } else {
        out.tell_at(RuleKind::BadPort, true, token);
        add_expression(value, scopes, outer(Site::Link, false), out);
    }
}

/// Goes past a name to which something is connected.
fn add_name<'s>(side: Side<'_, 's>, scopes: Scopes<'_, 's>, name: &'s str, out: &mut Layout<'s>) {
    let number = out.number(scopes, name);
    let mut is_twice = false;
    if let Some(info) = out.infos.get_mut(number) {
        is_twice = info.seen == side.owner;
        info.seen = side.owner;
    }
    out.tell(RuleKind::BadPort, is_twice || !has_name(side, name));
    out.pass();
}

fn add_named<'s>(
    named: &[NamedConnection<'s>],
    side: Side<'_, 's>,
    scopes: Scopes<'_, 's>,
    out: &mut Layout<'s>,
) {
    for connection in named {
        let token = out.at.token;
        add_name(side, scopes, connection.name, out);
        if let Some(value) = &connection.value {
            add_connected(value, side, scopes, connection.name, token, out);
        }
    }
}

/// Tells an entry that has no port, or no parameter: its first name or number, or that of the list where it is empty.
fn tell_entry(out: &mut Layout<'_>, side: Side<'_, '_>, is_some: bool) {
    let token = if is_some { out.at.token } else { side.owner };
    out.tell_at(RuleKind::BadPort, true, token);
}

fn add_ordered<'s>(
    entries: &[Option<Expression<'s>>],
    side: Side<'_, 's>,
    scopes: Scopes<'_, 's>,
    out: &mut Layout<'s>,
) {
    for (place, entry) in entries.iter().enumerate() {
        let port = name_at(side, place);
        if port.is_none() && (entry.is_some() || entries.len() > 1) {
            tell_entry(out, side, entry.is_some());
        }
        if let Some(value) = entry {
            let token = out.at.token;
            add_connected(value, side, scopes, port.unwrap_or(""), token, out);
        }
    }
}

/// Adds connections, or overrides.
pub(crate) fn add_connections<'s>(
    connections: &Connections<'s>,
    side: Side<'_, 's>,
    scopes: Scopes<'_, 's>,
    out: &mut Layout<'s>,
) {
    match connections {
        Connections::ByName(named) => add_named(named, side, scopes, out),
        Connections::ByOrder(entries) => add_ordered(entries, side, scopes, out),
    }
}

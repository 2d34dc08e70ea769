//! Where a design breaks its rule first.

use crate::blocks::in_blocks;
use crate::drivers::{second_driver, undeclared, undriven};
use crate::graph::{Edge, is_inside, reached, trim, turned};
use crate::kind::RuleKind;
use crate::layout::{Layout, earlier};
use crate::listing::add_module;
use crate::loops::first_loop;
use crate::piece::{Found, Info, Piece, What};
use crate::scopes::{scope_of, scopes_of};
use crate::tokens::token_of;
use std::alloc::{AllocError, Global};
use std::collections::{BTreeMap, BTreeSet};
use v_clocks::clock_nets;
use v_hier::top_of;
use v_instances::interface::{Interfaces, interfaces_of};
use v_narrow::are_objects_narrow;
use v_places::{Place, places};
use v_scopes::{Constants, declared_scope};
use v_size::Names;
use v_syntax::module::{Item, Module, Tree};
use v_token::token::Token;
use v_value::scope::Scope;

/// The number of the first module of each name.
fn numbers_of<'s>(
    modules: &[Module<'s>],
    alloc: Global,
) -> Result<BTreeMap<&'s str, usize>, AllocError> {
    let mut table: BTreeMap<&'s str, usize> = BTreeMap::new(alloc);
    for (number, each) in modules.iter().enumerate() {
        if !table.contains_key(each.name) {
            table.insert(each.name, number)?;
        }
    }
    Ok(table)
}

/// Adds an edge to the module of each instance.
fn add_edges(
    items: &[Item<'_>],
    numbers: &BTreeMap<&str, usize>,
    from: usize,
    edges: &mut Vec<Edge>,
) -> Result<(), AllocError> {
    for item in items {
        if let Item::Instances(name, _, _) = item {
            if let Some(to) = numbers.get(*name).copied() {
                edges.push(Edge { from, to })?;
            }
        }
    }
    Ok(())
}

/// From each module an edge to each of which it has instances.
fn edges_of(
    modules: &[Module<'_>],
    alloc: Global,
    numbers: &BTreeMap<&str, usize>,
) -> Result<Vec<Edge>, AllocError> {
    let mut edges = Vec::new(alloc);
    for (number, each) in modules.iter().enumerate() {
        add_edges(&each.items, numbers, number, &mut edges)?;
    }
    Ok(edges)
}

/// Leaves of these numbers those that lie between loops, or on one.
fn trim_both(alloc: Global, edges: &[Edge], inside: &mut Vec<bool>) -> Result<(), AllocError> {
    trim(alloc, edges, inside)?;
    let mut back = Vec::new(alloc);
    for edge in edges {
        back.push(turned(*edge))?;
    }
    trim(alloc, &back, inside)
}

/// Which modules stand in the design whose top has this number, or, of these, which stand below themselves too.
fn inside_of(
    modules: &[Module<'_>],
    alloc: Global,
    numbers: &BTreeMap<&str, usize>,
    top: usize,
    kind: RuleKind,
) -> Result<Vec<bool>, AllocError> {
    if kind == RuleKind::NoTop {
        return reached(alloc, &[], modules.len(), top);
    }
    let edges = edges_of(modules, alloc, numbers)?;
    let mut inside = reached(alloc, &edges, modules.len(), top)?;
    if kind == RuleKind::BadHierarchy {
        trim_both(alloc, &edges, &mut inside)?;
    }
    Ok(inside)
}

/// Lays out a module with these constants, which stands at this place of the list of places.
fn lay_out<'s>(
    within: &Module<'s>,
    alloc: Global,
    constants: Constants<'_, 's>,
    interfaces: &Interfaces<'s>,
    clocks: &BTreeSet<&'s str>,
    module: usize,
    place: usize,
    nets: bool,
    out: &mut Layout<'s>,
) -> Result<(), AllocError> {
    let declared = declared_scope(alloc, within, constants)?;
    let scope = scope_of(alloc, &declared, constants.scope, nets)?;
    if are_objects_narrow(&scope) {
        let names = Names { scope: &scope };
        let scopes = scopes_of(names, &declared, clocks);
        out.begin(alloc, scopes, module, place);
        add_module(within, interfaces, scopes, out);
    }
    Ok(())
}

/// Lays out the modules that stand in a design, where none of their constants is known.
fn lay_out_modules<'s>(
    modules: &[Module<'s>],
    alloc: Global,
    interfaces: &Interfaces<'s>,
    out: &mut Layout<'s>,
) -> Result<(), AllocError> {
    let none = Scope::new(alloc);
    let clocks = BTreeSet::new(alloc);
    if !are_objects_narrow(&none) {
        return Ok(());
    }
    for (number, each) in modules.iter().enumerate() {
        if is_inside(&out.inside, number) {
            let constants = Constants { scope: &none };
            lay_out(
                each, alloc, constants, interfaces, &clocks, number, 0, false, out,
            )?;
        } else if out.modules.get(each.name).copied() != Some(number) {
            out.at = Found {
                module: number,
                token: 0,
            };
            out.tell(RuleKind::DuplicateName, true);
        }
    }
    Ok(())
}

/// The first place at which a design with this top breaks the rule of a kind on names, if it can be told.
fn first_by_names<'s>(
    tree: &Tree<'s>,
    alloc: Global,
    modules: BTreeMap<&'s str, usize>,
    interfaces: &Interfaces<'s>,
    top: usize,
    clock: &'s str,
    kind: RuleKind,
) -> Result<Option<Found>, AllocError> {
    let inside = inside_of(&tree.modules, alloc, &modules, top, kind)?;
    let mut out = Layout::new(alloc, modules, clock, kind);
    out.inside = inside;
    lay_out_modules(&tree.modules, alloc, interfaces, &mut out)?;
    if out.is_cut {
        return Err(AllocError);
    }
    match kind {
        RuleKind::NoTop => Ok(Some(
            out.first.unwrap_or(Found {
                module: top,
                token: 0,
            }),
        )),
        RuleKind::Undeclared => match undeclared(&out.pieces, &out.infos) {
            Some(found) => Ok(earlier(out.first, found)),
            None => Ok(out.first),
        },
        _ => Ok(out.first),
    }
}

/// The most pieces that are laid out: a module that stands in a design often is laid out at each place.
const MOST_PIECES: usize = 1 << 22;

/// Lays out the modules at these places, where these are the clock nets of each. Says whether there was room for all.
fn lay_out_places<'t, 's>(
    list: &'t [Place<'t, 's>],
    alloc: Global,
    modules: &BTreeMap<&'s str, usize>,
    interfaces: &Interfaces<'s>,
    clocks: &[BTreeSet<&'s str>],
    nets: bool,
    out: &mut Layout<'s>,
) -> Result<bool, AllocError> {
    for (number, place) in list.iter().enumerate() {
        if let Some(own) = clocks.get(number) {
            let constants = Constants {
                scope: &place.constants,
            };
            let module = modules.get(place.within.name).copied().unwrap_or(0);
            lay_out(
                place.within,
                alloc,
                constants,
                interfaces,
                own,
                module,
                number,
                nets,
                out,
            )?;
        }
        if out.pieces.len() > MOST_PIECES {
            return Ok(false);
        }
    }
    Ok(true)
}

/// Leaves of the bits of each piece those that its name has.
fn fit(pieces: &mut Vec<Piece>, infos: &[Info]) {
    for piece in pieces.iter_mut() {
        if let Some(info) = infos.get(piece.name) {
            match piece.what {
                What::Event => {}
                What::Assigned => piece.bits = if info.signed { 1 } else { 0 },
                _ => piece.bits = piece.bits & info.bits,
            }
        }
    }
}

/// The first place that breaks the rule of a kind on blocks, drivers or loops, in what is laid out whole or not.
fn first_in_pieces(
    out: &mut Layout<'_>,
    alloc: Global,
    is_whole: bool,
) -> Result<Option<Found>, AllocError> {
    fit(&mut out.pieces, &out.infos);
    match out.kind {
        RuleKind::BadEventList => in_blocks(&out.pieces, &out.drivers, alloc, false),
        RuleKind::Latch => in_blocks(&out.pieces, &out.drivers, alloc, true),
        RuleKind::BadDriver => Ok(second_driver(&out.pieces, &mut out.infos)),
        RuleKind::Undriven => Ok(undriven(&out.pieces, &mut out.infos)),
        RuleKind::CombLoop if is_whole => {
            first_loop(&out.pieces, &out.drivers, alloc, &mut out.infos)
        }
        _ => Ok(out.first),
    }
}

/// The first place at which a design that stands at these places breaks the rule of a kind, if it can be told. There is room for so many
/// pieces from the beginning.
fn first_at_places<'t, 's>(
    list: &'t [Place<'t, 's>],
    alloc: Global,
    modules: &BTreeMap<&'s str, usize>,
    interfaces: &Interfaces<'s>,
    clock: &'s str,
    kind: RuleKind,
    room: usize,
) -> Result<Option<Found>, AllocError> {
    let clocks = clock_nets(alloc, list, interfaces, clock)?;
    let mut out = Layout::new(alloc, BTreeMap::new(alloc), clock, kind);
    out.pieces = Vec::with_capacity(alloc, room)?;
    let is_whole = lay_out_places(list, alloc, modules, interfaces, &clocks, false, &mut out)?;
    if kind == RuleKind::BadConstant && out.first.is_none() {
        lay_out_places(list, alloc, modules, interfaces, &clocks, true, &mut out)?;
    }
    if out.is_cut {
        return Err(AllocError);
    }
    first_in_pieces(&mut out, alloc, is_whole)
}

/// The same of the design with this top.
fn first_below<'t, 's>(
    tree: &'t Tree<'s>,
    alloc: Global,
    within: &'t Module<'s>,
    modules: &BTreeMap<&'s str, usize>,
    interfaces: &Interfaces<'s>,
    clock: &'s str,
    kind: RuleKind,
    room: usize,
) -> Result<Option<Found>, AllocError> {
    let found = places(alloc, tree, within)?;
    match found {
        Some(list) => {
            let mut list = list;
            first_at_places(
                list.as_mut_slice(),
                alloc,
                modules,
                interfaces,
                clock,
                kind,
                room,
            )
        }
        None => Ok(None),
    }
}

/// The name of the clock as the top has it in its list of ports, or declares it as a port.
fn own_name<'s>(within: &Module<'s>, interfaces: &Interfaces<'s>, clock: &str) -> &'s str {
    if let Some(interface) = interfaces.find(within.name) {
        for name in &interface.ports.order {
            if *name == clock {
                return *name;
            }
        }
        for (name, _) in &interface.directions {
            if *name == clock {
                return *name;
            }
        }
    }
    ""
}

/// Where the design with this top and this clock breaks the rule of a kind first, if that can be told.
fn first_place<'t, 's>(
    tree: &'t Tree<'s>,
    alloc: Global,
    within: &'t Module<'s>,
    interfaces: &Interfaces<'s>,
    clock: &str,
    kind: RuleKind,
    room: usize,
) -> Result<Option<Found>, AllocError> {
    let modules = numbers_of(&tree.modules, alloc)?;
    let own = own_name(within, interfaces, clock);
    match kind {
        RuleKind::NoTop | RuleKind::Undeclared | RuleKind::DuplicateName | RuleKind::BadHierarchy =>
            {
                let top = modules.get(within.name).copied().unwrap_or(0);
                first_by_names(tree, alloc, modules, interfaces, top, own, kind)
            }
        _ => first_below(tree, alloc, within, &modules, interfaces, own, kind, room),
    }
}

/// The token at which the design with this top and this clock breaks the rule of a kind first in the text. The tokens are those of the
/// tree. None where there is none to lead to, or where it is not found.
pub fn broken_at<'s>(
    tree: &Tree<'s>,
    tokens: &[Token<'s>],
    alloc: Global,
    top: &str,
    clock: &str,
    kind: RuleKind,
) -> Result<Option<Token<'s>>, AllocError> {
    let Some(within) = top_of(tree, top) else {
        return Ok(None);
    };
    let interfaces = interfaces_of(alloc, tree)?;
    // What is laid out has about five pieces for four tokens at most, where each module stands once.
    let room = tokens.len().saturating_add(tokens.len() / 4);
    let found = first_place(tree, alloc, within, &interfaces, clock, kind, room)?;
    match found {
        Some(place) => Ok(token_of(tokens, place)),
        None => Ok(None),
    }
}

//! Modules that are laid out one after the other: their pieces, their names, and the first place that breaks the rule of the kind that is
//! looked for.

use crate::graph::is_inside;
use crate::kind::RuleKind;
use crate::piece::{Driver, Found, Info, Piece, Site, What, unknown};
use crate::scopes::{Scopes, info_of, last_place};
use std::alloc::Global;
use std::collections::BTreeMap;
use v_scopes::Bounds;
use v_syntax::module::{Direction, NetKind};

/// The port of an instance to which something is connected: the place of its module in the list of places, and its number.
#[derive(Clone, Copy)]
pub(crate) struct LinkedPort<'s> {
    pub(crate) place: usize,
    pub(crate) name: &'s str,
    pub(crate) number: usize,
}

/// What is laid out so far.
#[derive(Drop)]
pub(crate) struct Layout<'s> {
    /// The kind that is looked for.
    pub(crate) kind: RuleKind,
    /// The number of the first module of each name.
    pub(crate) modules: BTreeMap<&'s str, usize>,
    /// Which modules stand in the design, or stand below themselves, where names are looked at.
    pub(crate) inside: Vec<bool>,
    pub(crate) pieces: Vec<Piece>,
    pub(crate) infos: Vec<Info>,
    pub(crate) drivers: Vec<Driver>,
    /// The ports that are connected, in the order of the instances.
    pub(crate) ports: Vec<LinkedPort<'s>>,
    /// How many of them stand at modules that are laid out.
    pub(crate) entered: usize,
    /// How many instances stand in the modules that are laid out.
    pub(crate) instances: usize,
    /// The numbers of the names of the module.
    pub(crate) numbers: BTreeMap<&'s str, usize>,
    /// Whether the module is the top, and the top's clock.
    pub(crate) is_top: bool,
    pub(crate) clock: &'s str,
    /// How many ports, nets and variables the module has declared.
    pub(crate) row: usize,
    /// The piece with which the block begins.
    pub(crate) block: Option<usize>,
    /// The place in the text.
    pub(crate) at: Found,
    /// Whether nothing was told of the module yet.
    pub(crate) is_silent: bool,
    /// The first place that breaks the rule, if there is one.
    pub(crate) first: Option<Found>,
    /// Whether memory ran out.
    pub(crate) is_cut: bool,
}

/// Whether one place stands before another.
fn is_before(one: Found, other: Found) -> bool {
    one.module < other.module || (one.module == other.module && one.token < other.token)
}

/// The first of a place, if there is one, and another one.
pub(crate) fn earlier(first: Option<Found>, found: Found) -> Option<Found> {
    match first {
        Some(one) if is_before(one, found) => first,
        _ => Some(found),
    }
}

/// Whether the bounds are others than those.
fn is_other(one: Bounds, other: Bounds) -> bool {
    match (one, other) {
        (Bounds::Known(left, right), Bounds::Known(first, last)) => {
            left != first || right != last
        }
        _ => false,
    }
}

impl<'s> Layout<'s> {
    /// Nothing.
    pub(crate) fn new(
        alloc: Global,
        modules: BTreeMap<&'s str, usize>,
        clock: &'s str,
        kind: RuleKind,
    ) -> Layout<'s> {
        Layout {
            kind,
            modules,
            inside: Vec::new(alloc),
            pieces: Vec::new(alloc),
            infos: Vec::new(alloc),
            drivers: Vec::new(alloc),
            ports: Vec::new(alloc),
            entered: 0,
            instances: 0,
            numbers: BTreeMap::new(alloc),
            is_top: true,
            clock,
            row: 0,
            block: None,
            at: Found {
                module: 0,
                token: 0,
            },
            is_silent: true,
            first: None,
            is_cut: false,
        }
    }

    /// Tells this name or number of the module where it breaks the rule of a kind.
    pub(crate) fn tell_at(&mut self, kind: RuleKind, is_broken: bool, token: usize) {
        if is_broken && kind == self.kind {
            self.is_silent = false;
            let module = self.at.module;
            self.first = earlier(self.first, Found { module, token });
        }
    }

    /// Tells the name or number that comes next where it breaks the rule of a kind.
    pub(crate) fn tell(&mut self, kind: RuleKind, is_broken: bool) {
        let token = self.at.token;
        self.tell_at(kind, is_broken, token);
    }

    /// Goes past a name or a number.
    pub(crate) fn pass(&mut self) {
        self.at.token = self.at.token.saturating_add(1);
    }

    /// Adds a piece.
    pub(crate) fn add(&mut self, what: What, name: usize, bits: u128, flag: bool, site: Site) {
        let piece = Piece {
            what,
            name,
            bits,
            flag,
            site,
            owner: self.block.unwrap_or(self.pieces.len()),
            found: self.at,
        };
        if self.pieces.push(piece).is_err() {
            self.is_cut = true;
        }
    }

    /// Ends what began with this piece.
    pub(crate) fn end_driver(&mut self, from: usize, site: Site) {
        let to = self.pieces.len();
        if self.drivers.push(Driver { from, to, site }).is_err() {
            self.is_cut = true;
        }
    }

    /// A number for a name of which this is known.
    fn number_for(&mut self, info: Info) -> usize {
        let number = self.infos.len();
        if self.infos.push(info).is_err() {
            self.is_cut = true;
        }
        number
    }

    /// The number of a name of the module.
    pub(crate) fn number(&mut self, scopes: Scopes<'_, 's>, name: &'s str) -> usize {
        if let Some(number) = self.numbers.get(name).copied() {
            return number;
        }
        let number = self.number_for(info_of(scopes, name));
        if self.numbers.insert(name, number).is_err() {
            self.is_cut = true;
        }
        number
    }

    /// What is known of a name.
    pub(crate) fn known_of(&self, number: usize) -> Info {
        self.infos.get(number).copied().unwrap_or(unknown())
    }

    /// A number for the port of this name of the instance that is read, to which something is connected.
    pub(crate) fn link(&mut self, name: &'s str) -> usize {
        let mut info = unknown();
        info.known = 0;
        let number = self.number_for(info);
        let place = self.instances;
        let port = LinkedPort {
            place,
            name,
            number,
        };
        if self.ports.push(port).is_err() {
            self.is_cut = true;
        }
        number
    }

    /// Begins a module, which stands at this place of the list of places.
    pub(crate) fn begin(
        &mut self,
        alloc: Global,
        scopes: Scopes<'_, 's>,
        module: usize,
        place: usize,
    ) {
        self.at = Found { module, token: 0 };
        self.numbers = BTreeMap::new(alloc);
        self.row = 0;
        self.is_silent = true;
        self.is_top = place == 0;
        for entered in self.entered..self.ports.len() {
            let Some(port) = self.ports.get(entered).copied() else {
                return;
            };
            if port.place != place {
                return;
            }
            let mut info = info_of(scopes, port.name);
            info.is_linked = true;
            if let Some(kept) = self.infos.get_mut(port.number) {
                *kept = info;
            }
            if self.numbers.insert(port.name, port.number).is_err() {
                self.is_cut = true;
            }
            self.entered = entered.saturating_add(1);
        }
    }

    /// Adds how a name is declared.
    pub(crate) fn stand(&mut self, number: usize, standing: u8) {
        let mut is_twice = false;
        if let Some(info) = self.infos.get_mut(number) {
            is_twice = info.standing & standing != 0;
            info.standing = info.standing | standing;
        }
        self.tell(RuleKind::DuplicateName, is_twice);
    }

    /// Goes past a name in a list of ports without directions.
    pub(crate) fn list(&mut self, scopes: Scopes<'_, 's>, name: &'s str) {
        let number = self.number(scopes, name);
        self.stand(number, 4);
        let is_clock = self.is_top && name == self.clock;
        self.tell(RuleKind::NoTop, is_clock);
        let info = self.known_of(number);
        self.tell(RuleKind::BadPort, !info.is_port);
        self.pass();
    }

    /// Goes past the name of a declared port, net or variable. Gives its number.
    pub(crate) fn declare(&mut self, scopes: Scopes<'_, 's>, name: &'s str, standing: u8) -> usize {
        let number = self.number(scopes, name);
        let info = self.known_of(number);
        let object = scopes.declared.object(name);
        self.stand(number, standing);
        self.tell(RuleKind::WidthOver128, last_place(object) > 127);
        self.tell(RuleKind::MemoryUse, info.is_port && info.is_memory);
        if info.is_port {
            if let (Some(row), Some(all)) = (
                scopes.declared.declarations().get(self.row),
                scopes.declared.find(name),
            ) {
                self.tell(RuleKind::BadPort, is_other(row.range, all.range));
            }
        }
        self.row = self.row.saturating_add(1);
        self.pass();
        number
    }

    /// Goes past the name of a declared port. What is connected to an input drives it, and an output that is connected is asked for.
    pub(crate) fn port(
        &mut self,
        scopes: Scopes<'_, 's>,
        name: &'s str,
        direction: Direction,
        kind: Option<NetKind>,
        is_listed: bool,
    ) {
        let listed = if is_listed { 4 } else { 0 };
        let own = if kind.is_none() { 1 } else { 3 };
        let is_clock = self.is_top && name == self.clock;
        self.tell(RuleKind::NoTop, is_clock);
        let token = self.at.token;
        let number = self.number(scopes, name);
        let info = self.known_of(number);
        if self.is_top || info.is_linked {
            let what = match direction {
                Direction::Input => What::Into,
                Direction::Output => What::Out,
            };
            self.add(what, number, info.bits, true, Site::Declaration);
        }
        self.declare(scopes, name, own | listed);
        let is_variable = matches!(kind, Some(NetKind::Reg)) && info.is_input && info.is_variable;
        let is_lone = info.standing & 4 == 0 && !is_listed;
        self.tell_at(RuleKind::BadPort, is_lone || is_variable, token);
    }

    /// Lets a parameter be used from here on.
    pub(crate) fn know(&mut self, number: usize) {
        let token = self.at.token;
        if let Some(info) = self.infos.get_mut(number) {
            info.known = info.known.min(token);
        }
    }

    /// Goes past the name of the module that instances are of.
    pub(crate) fn of_module(&mut self, name: &str) {
        match self.modules.get(name).copied() {
            Some(number) => {
                let is_inside = is_inside(&self.inside, number);
                self.tell(RuleKind::BadHierarchy, is_inside);
            }
            None => self.tell(RuleKind::Undeclared, true),
        }
        self.pass();
    }
}

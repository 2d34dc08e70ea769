//! The rule on combinational loops: which name's bits rest on themselves.

use crate::flow::{Aim, State, flow_of};
use crate::graph::{Edge, all_with, is_inside, lists_of, trim};
use crate::layout::earlier;
use crate::piece::{Driver, Found, Info, Piece, Site, What};
use std::alloc::{AllocError, Global};
use std::collections::{BTreeMap, VecDeque};

/// The most pieces that are gone through to settle bits: where many settle one by one, much is gone through again and again.
const MOST_STEPS: usize = 1 << 24;

/// A driver and bits of a name that it reads from outside, or drives.
#[derive(Clone, Copy)]
struct Part {
    driver: usize,
    name: usize,
    bits: u128,
    is_read: bool,
}

/// Adds what a driver reads and drives.
fn add_uses(
    own: &[Piece],
    alloc: Global,
    driver: usize,
    uses: &mut Vec<Part>,
) -> Result<(), AllocError> {
    for piece in own {
        if matches!(piece.what, What::Written | What::Into) {
            uses.push(Part {
                driver,
                name: piece.name,
                bits: piece.bits,
                is_read: false,
            })?;
        }
    }
    let flow = flow_of(own, alloc, &[], Aim::Paths)?;
    for (name, bits) in &flow.read {
        uses.push(Part {
            driver,
            name: *name,
            bits: *bits,
            is_read: true,
        })?;
    }
    Ok(())
}

/// What all drivers without a clock read and drive.
fn uses_of(pieces: &[Piece], drivers: &[Driver], alloc: Global) -> Result<Vec<Part>, AllocError> {
    let mut uses = Vec::new(alloc);
    for (number, driver) in drivers.iter().enumerate() {
        if driver.site != Site::Clocked {
            if let Some(own) = pieces.get(driver.from..driver.to) {
                add_uses(own, alloc, number, &mut uses)?;
            }
        }
    }
    Ok(uses)
}

/// The bits of each name that such a driver drives: none of them is settled yet.
fn unsettled_of(uses: &[Part], alloc: Global, count: usize) -> Result<Vec<u128>, AllocError> {
    let mut unsettled: Vec<u128> = Vec::new(alloc);
    for _ in 0..count {
        unsettled.push(0)?;
    }
    for each in uses {
        if !each.is_read {
            if let Some(bits) = unsettled.get_mut(each.name) {
                *bits = *bits | each.bits;
            }
        }
    }
    Ok(unsettled)
}

/// From each name an edge to each driver that reads it.
fn readers_of(uses: &[Part], alloc: Global) -> Result<Vec<Edge>, AllocError> {
    let mut edges = Vec::new(alloc);
    for each in uses {
        if each.is_read {
            edges.push(Edge {
                from: each.name,
                to: each.driver,
            })?;
        }
    }
    Ok(edges)
}

/// The search for bits that are settled: those that are not, which drivers read each name, which are to be looked at again, and how much may
/// still be gone through.
#[derive(Drop)]
struct Search {
    unsettled: Vec<u128>,
    readers: Vec<Vec<usize>>,
    queue: VecDeque<usize>,
    waits: Vec<bool>,
    left: usize,
}

/// A search in which all of so many drivers are to be looked at.
fn search_of(
    uses: &[Part],
    alloc: Global,
    names: usize,
    drivers: usize,
) -> Result<Search, AllocError> {
    let edges = readers_of(uses, alloc)?;
    let mut queue = VecDeque::new(alloc);
    for number in 0..drivers {
        queue.push_back(number)?;
    }
    Ok(Search {
        unsettled: unsettled_of(uses, alloc, names)?,
        readers: lists_of(alloc, &edges, names)?,
        queue,
        waits: all_with(alloc, drivers, true)?,
        left: MOST_STEPS,
    })
}

impl Search {
    /// Takes the next driver that is to be looked at.
    fn next(&mut self) -> Option<usize> {
        let number = self.queue.pop_front()?;
        if let Some(waits) = self.waits.get_mut(number) {
            *waits = false;
        }
        Some(number)
    }

    /// Lets the drivers wait that read a name.
    fn wait(&mut self, name: usize) -> Result<(), AllocError> {
        if let Some(list) = self.readers.get(name) {
            for number in list {
                if let Some(waits) = self.waits.get_mut(*number) {
                    if !*waits {
                        *waits = true;
                        self.queue.push_back(*number)?;
                    }
                }
            }
        }
        Ok(())
    }

    /// Takes away the bits of a name that a driver settles. Says whether there are any.
    fn settle_name(&mut self, name: usize, state: State) -> bool {
        if let Some(bits) = self.unsettled.get_mut(name) {
            let before = *bits;
            *bits = before & (!state.assigned | state.open);
            return *bits != before;
        }
        false
    }

    /// Takes away the bits that a driver settles of which this is known.
    fn settle(&mut self, known: &BTreeMap<usize, State>) -> Result<(), AllocError> {
        for (name, state) in known {
            if self.settle_name(*name, *state) {
                self.wait(*name)?;
            }
        }
        Ok(())
    }

    /// Takes away all bits that rest on no loop. Says whether it came to an end.
    fn settle_all(
        &mut self,
        pieces: &[Piece],
        drivers: &[Driver],
        alloc: Global,
    ) -> Result<bool, AllocError> {
        for _ in 0..MOST_STEPS {
            let Some(number) = self.next() else {
                return Ok(true);
            };
            if let Some(driver) = drivers.get(number) {
                if driver.site != Site::Clocked {
                    if let Some(own) = pieces.get(driver.from..driver.to) {
                        let flow = flow_of(own, alloc, &self.unsettled, Aim::Loops)?;
                        self.settle(&flow.known)?;
                        let spent = own.len().saturating_add(flow.moves);
                        self.left = self.left.saturating_sub(spent);
                    }
                }
            }
            if self.left == 0 {
                return Ok(false);
            }
        }
        Ok(false)
    }
}

/// The bits of a use that are left.
fn left_of(unsettled: &[u128], each: &Part) -> u128 {
    unsettled.get(each.name).copied().unwrap_or(0) & each.bits
}

/// From each driver an edge to each name that it reads, and from each name one to each driver that drives it, where bits of it are left. The
/// drivers have the numbers behind those of the names.
fn edges_of(uses: &[Part], unsettled: &[u128], alloc: Global) -> Result<Vec<Edge>, AllocError> {
    let mut edges = Vec::new(alloc);
    for each in uses {
        if left_of(unsettled, each) != 0 {
            let driver = unsettled.len().saturating_add(each.driver);
            let edge = if each.is_read {
                Edge {
                    from: driver,
                    to: each.name,
                }
            } else {
                Edge {
                    from: each.name,
                    to: driver,
                }
            };
            edges.push(edge)?;
        }
    }
    Ok(edges)
}

/// Notes the bits that are left and that a driver reads which is one of a loop.
fn note_loops(
    uses: &[Part],
    unsettled: &[u128],
    alloc: Global,
    drivers: usize,
    infos: &mut Vec<Info>,
) -> Result<(), AllocError> {
    let edges = edges_of(uses, unsettled, alloc)?;
    let mut inside = all_with(alloc, unsettled.len().saturating_add(drivers), true)?;
    trim(alloc, &edges, &mut inside)?;
    for each in uses {
        let driver = unsettled.len().saturating_add(each.driver);
        if each.is_read && is_inside(&inside, driver) {
            if let Some(info) = infos.get_mut(each.name) {
                info.looped = info.looped | left_of(unsettled, each);
            }
        }
    }
    Ok(())
}

/// The first assignment of a bit that rests on itself. A bit that lies between two loops is told as well.
pub(crate) fn first_loop(
    pieces: &[Piece],
    drivers: &[Driver],
    alloc: Global,
    infos: &mut Vec<Info>,
) -> Result<Option<Found>, AllocError> {
    let uses = uses_of(pieces, drivers, alloc)?;
    let mut search = search_of(&uses, alloc, infos.len(), drivers.len())?;
    if !search.settle_all(pieces, drivers, alloc)? {
        return Ok(None);
    }
    note_loops(&uses, &search.unsettled, alloc, drivers.len(), infos)?;
    let mut first = None;
    for piece in pieces {
        if piece.what == What::Written && piece.site != Site::Clocked {
            if let Some(info) = infos.get(piece.name) {
                if piece.bits & info.looped != 0 {
                    first = earlier(first, piece.found);
                }
            }
        }
    }
    Ok(first)
}

//! The rules on the events of blocks and on latches.

use crate::flow::{Aim, flow_of};
use crate::layout::earlier;
use crate::piece::{Driver, Found, Piece, Site, What};
use std::alloc::{AllocError, Global};

/// Whether the events of a clocked block are none that it may have: the edge of a clock, and perhaps one of another name of one bit.
fn has_wrong_edges(block: &[Piece]) -> bool {
    let mut count = 0u32;
    let mut name = 0;
    let mut all: u128 = 3;
    let mut some: u128 = 0;
    let mut is_twice = false;
    for piece in block {
        if piece.what == What::Event {
            is_twice = count > 0 && piece.name == name;
            count = count.saturating_add(1);
            name = piece.name;
            all = all & piece.bits;
            some = some | piece.bits;
        }
    }
    count > 2 || is_twice || all & 2 == 0 || some & 1 == 0
}

/// The first event of a block, if it may not have its events.
fn bad_events(block: &[Piece], alloc: Global, site: Site) -> Result<Option<Found>, AllocError> {
    let Some(first) = block.first() else {
        return Ok(None);
    };
    if first.what != What::Event {
        return Ok(None);
    }
    let bad = if site == Site::Clocked {
        has_wrong_edges(block)
    } else {
        let flow = flow_of(block, alloc, &[], Aim::Events)?;
        !flow.read.is_empty()
    };
    Ok(if bad { Some(first.found) } else { None })
}

/// The first place of a block at which a latch shows: an assignment of a bit that some path leaves out, or the read before it.
fn latch_in(block: &[Piece], alloc: Global) -> Result<Option<Found>, AllocError> {
    let flow = flow_of(block, alloc, &[], Aim::Paths)?;
    for piece in block {
        if let Some(state) = flow.known.get(&piece.name).copied() {
            let open = match piece.what {
                What::Written => state.open,
                What::Read => flow.read.get(&piece.name).copied().unwrap_or(0),
                _ => 0,
            };
            if piece.bits & open & state.assigned != 0 {
                return Ok(Some(piece.found));
            }
        }
    }
    Ok(None)
}

/// The first place at which a latch shows, or else the first event of a block that may not have its events.
pub(crate) fn in_blocks(
    pieces: &[Piece],
    drivers: &[Driver],
    alloc: Global,
    is_latch: bool,
) -> Result<Option<Found>, AllocError> {
    let mut first = None;
    for driver in drivers {
        if let Some(block) = pieces.get(driver.from..driver.to) {
            let found = match driver.site {
                Site::Clocked if !is_latch => bad_events(block, alloc, driver.site)?,
                Site::Combinational if is_latch => latch_in(block, alloc)?,
                Site::Combinational => bad_events(block, alloc, driver.site)?,
                _ => None,
            };
            if let Some(found) = found {
                first = earlier(first, found);
            }
        }
    }
    Ok(first)
}

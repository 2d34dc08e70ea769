//! The rules on names that are not declared, and on drivers: two for one bit, names that may not be assigned, bits that have none.

use crate::layout::earlier;
use crate::piece::{Found, Info, NO_NAME, Piece, Site, What};

/// Whether a name may not be used there.
fn is_unknown(info: &Info, piece: &Piece) -> bool {
    if info.known == NO_NAME {
        return !info.is_declared;
    }
    piece.found.token < info.known
}

/// The first name that is used and not declared before.
pub(crate) fn undeclared(pieces: &[Piece], infos: &[Info]) -> Option<Found> {
    let mut first = None;
    for piece in pieces {
        if matches!(piece.what, What::Read | What::Written | What::Event) {
            if let Some(info) = infos.get(piece.name) {
                if is_unknown(info, piece) {
                    first = earlier(first, piece.found);
                }
            }
        }
    }
    first
}

/// Whether a name may not be assigned, in a block or by a continuous assignment.
fn is_wrong(info: &Info, in_block: bool) -> bool {
    if info.is_constant {
        return true;
    }
    if !info.is_declared {
        return in_block;
    }
    info.is_input || info.is_variable != in_block
}

/// Adds a driver of a name. Says whether it may not be.
fn add_driver(info: &mut Info, piece: &Piece) -> bool {
    if info.owner != piece.owner {
        info.owner = piece.owner;
        info.before = info.driven;
    }
    info.driven = info.driven | piece.bits;
    let in_block = piece.site != Site::Link;
    info.before & piece.bits != 0 || is_wrong(info, in_block)
}

/// The first target that has a driver already, or that may not be assigned.
pub(crate) fn second_driver(pieces: &[Piece], infos: &mut Vec<Info>) -> Option<Found> {
    let mut first = None;
    for piece in pieces {
        if piece.what == What::Written {
            if let Some(info) = infos.get_mut(piece.name) {
                if add_driver(info, piece) {
                    first = earlier(first, piece.found);
                }
            }
        }
    }
    first
}

/// The first read, or the first connected output, that has a bit without a driver.
pub(crate) fn undriven(pieces: &[Piece], infos: &mut Vec<Info>) -> Option<Found> {
    for piece in pieces {
        if matches!(piece.what, What::Written | What::Into) {
            if let Some(info) = infos.get_mut(piece.name) {
                info.driven = info.driven | piece.bits;
            }
        }
    }
    let mut first = None;
    for piece in pieces {
        if matches!(piece.what, What::Read | What::Out) {
            if let Some(info) = infos.get(piece.name) {
                if piece.bits & !info.driven != 0 {
                    first = earlier(first, piece.found);
                }
            }
        }
    }
    first
}

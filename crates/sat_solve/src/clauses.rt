//! The clauses by their numbers: the formula's, then the lemmas.
ghost use Rattle.std.specs.Prelude.{◌≡◌, ◌<◌, length, map, slice_get, Some, IfOk};
ghost use Rattle.sat_solve.specs.State.{known_clauses};
ghost use Rattle.sat_base.specs.Codes.{literal_of};

use crate::arena::Arena;
use sat_base::{Cnf, Log, NoMemory};
use std::alloc::Global;

/// The codes of the clause of this number: the formula's are counted from 0, and the lemmas go on from there.
#[inline]
pub fn clause<'a>(cnf: &Cnf, log: &'a Log, arena: &'a Arena, number: u64) -> &'a [u32]
    requires number { number < length (known_clauses cnf.now log.now) }
    requires holding { arena.now ≡ cnf.now.clauses }
    ensures { slice_get (known_clauses cnf.now log.now) number ≡ Some (map literal_of result.now) }
{
    let place = number as usize;
    let count = arena.len();
    if place < count {
        return arena.codes(place);
    }
    log.codes(place - count)
}

/// The formula's clauses.
pub fn hold(alloc: Global, cnf: &Cnf) -> Result<Arena, NoMemory>
    ensures { IfOk result (λ a. a ≡ cnf.now.clauses) }
{
    // More variables would take more than 50 GiB.
    if cnf.vars() >= 1 << 31 {
        return Err(NoMemory);
    }
    let mut arena = Arena::new(alloc);
    let clauses = cnf.clauses();
    for number in 0..clauses.len() {
        arena.push(clauses[number].as_slice())?;
    }
    Ok(arena)
}

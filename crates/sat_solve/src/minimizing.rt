//! Which literals a lemma can do without, since its others imply them. The lemma is right whatever this
//! says, so nothing is proved of it but that it is safe.
ghost use Rattle.std.specs.Prelude.{◌≡◌, ◌<◌, length, map};
ghost use Rattle.sat_solve.specs.State.{known_clauses, IsState};

use crate::arena::Arena;
use crate::clauses::clause;
use crate::marks::Marks;
use crate::trail::Trail;
use sat_base::{Cnf, Log, NoMemory};
use std::alloc::Global;

// How many reasons deep it looks.
const DEPTH: u32 = 200;

/// What has been found out about variables in this lemma.
#[derive(Drop)]
pub struct Minimizer {
    // 0 where nothing is known of a variable, 1 where it is implied, 2 where it isn't.
    found: Vec<u8>,
    base: usize,
}

impl Minimizer {
    /// Nothing is known yet. `base` is how many entries are older than all decisions.
    pub fn new(alloc: Global, vars: u64, base: usize) -> Result<Self, NoMemory> {
        Ok(Minimizer {
            found: vec![in alloc; 0; vars as usize]?,
            base,
        })
    }

    /// Whether the literal of a variable is implied by those of marked variables. One that stands below all decisions
    /// counts only where a clause of one literal says it: the hints of others would lead through all that implies them, and
    /// it costs little to keep a literal that stays false.
    pub fn is_implied(
        &mut self,
        cnf: &Cnf,
        log: &Log,
        arena: &Arena,
        trail: &Trail,
        marks: &Marks,
        var: u64,
    ) -> bool
        requires state { IsState cnf.now log.now trail.now }
        requires holding { arena.now ≡ cnf.now.clauses }
        requires sized { length marks.now ≡ trail.now.vars }
    {
        self.are_implied(cnf, log, arena, trail, marks, var, DEPTH)
    }

    // Whether the literal of the variable has a reason whose other literals are implied.
    #[cycle(implied)]
    fn are_implied(
        &mut self,
        cnf: &Cnf,
        log: &Log,
        arena: &Arena,
        trail: &Trail,
        marks: &Marks,
        var: u64,
        depth: u32,
    ) -> bool
        requires state { IsState cnf.now log.now trail.now }
        requires holding { arena.now ≡ cnf.now.clauses }
        requires sized { length marks.now ≡ trail.now.vars }
    {
        match trail.reason(var) {
            None => false,
            Some(reason) => {
                let codes = clause(cnf, log, arena, reason);
                if trail.place(var) < self.base {
                    return codes.len() == 1;
                }
                for code in codes {
                    let other = (*code / 2) as u64;
                    if other != var
                        && !marks.contains(other)
                        && !self.is_known(cnf, log, arena, trail, marks, other, depth)
                    {
                        return false;
                    }
                }
                true
            }
        }
    }

    // The same, from what has been found out, or else found out now.
    #[cycle(implied)]
    fn is_known(
        &mut self,
        cnf: &Cnf,
        log: &Log,
        arena: &Arena,
        trail: &Trail,
        marks: &Marks,
        var: u64,
        depth: u32,
    ) -> bool
        requires state { IsState cnf.now log.now trail.now }
        requires holding { arena.now ≡ cnf.now.clauses }
        requires sized { length marks.now ≡ trail.now.vars }
    {
        let found = match self.found.get(var as usize) {
            Some(found) => *found,
            None => 2,
        };
        if found != 0 || depth == 0 {
            return found == 1;
        }
        let implied = self.are_implied(cnf, log, arena, trail, marks, var, depth - 1);
        if let Some(own) = self.found.get_mut(var as usize) {
            *own = if implied { 1 } else { 2 };
        }
        implied
    }
}

//! The order in which variables of a circuit are copied. Nothing is proved of it but that it is safe.

use crate::bits::Gate;
use crate::building::Builder;
use sat_base::{Lit, NoMemory};
use std::alloc::Global;

/// The variables on which known ones stand: for each known one, the lowest first, those on which it stands and the ones before it do not, in
/// ascending order.
pub(crate) fn order_of(
    alloc: Global,
    circuit: &Builder,
    facts: &[Option<bool>],
    vars: usize,
) -> Result<Vec<usize>, NoMemory> {
    let mut needs = vec![in alloc; usize::MAX; vars]?;
    let count = number(&mut needs, facts);
    for done in 0..circuit.gate_count() {
        let place = circuit.gate_count() - 1 - done;
        let need = need_of(&needs, vars.wrapping_sub(1).wrapping_sub(done));
        match circuit.gate(place) {
            Gate::And(x, y) | Gate::Xor(x, y) => {
                lower(&mut needs, x, need);
                lower(&mut needs, y, need);
            }
            Gate::Ite(condition, x, y) => {
                lower(&mut needs, condition, need);
                lower(&mut needs, x, need);
                lower(&mut needs, y, need);
            }
        }
    }
    sorted(alloc, &needs, count)
}

/// Numbers the known variables in their places. Gives how many they are.
fn number(needs: &mut Vec<usize>, facts: &[Option<bool>]) -> usize {
    let mut count: usize = 0;
    for (need, fact) in needs.iter_mut().zip(facts) {
        if fact.is_some() {
            *need = count;
            count = count.wrapping_add(1);
        }
    }
    count
}

/// The first known variable that stands on this one, by its number.
fn need_of(needs: &[usize], var: usize) -> usize {
    match needs.get(var) {
        Some(need) => *need,
        None => usize::MAX,
    }
}

/// What stands on an operand is needed no later than this.
fn lower(needs: &mut Vec<usize>, operand: Lit, need: usize) {
    if let Some(own) = needs.get_mut(operand.var as usize) {
        if need < *own {
            *own = need;
        }
    }
}

/// The places of the numbers below a bound, by these numbers and then in ascending order.
fn sorted(alloc: Global, needs: &[usize], bound: usize) -> Result<Vec<usize>, NoMemory> {
    let mut starts = vec![in alloc; 0usize; bound]?;
    for need in needs {
        if let Some(start) = starts.get_mut(*need) {
            *start = start.wrapping_add(1);
        }
    }
    let mut sum: usize = 0;
    for start in starts.iter_mut() {
        let own = *start;
        *start = sum;
        sum = sum.wrapping_add(own);
    }
    let mut order = vec![in alloc; 0usize; sum]?;
    for var in 0..needs.len() {
        if let Some(start) = starts.get_mut(needs[var]) {
            if let Some(slot) = order.get_mut(*start) {
                *slot = var;
            }
            *start = start.wrapping_add(1);
        }
    }
    Ok(order)
}

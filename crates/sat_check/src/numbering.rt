//! Numbers in place of the literals that occur in a formula and a log.
ghost use Rattle.std.specs.Prelude.{◌≡◌, ◌*◌, ◌^◌, ◌<◌, ◌≤◌, ◌++◌, length, map, All, Contains, slice_index, IfOk, OnOk};
ghost use Rattle.std.specs.List.Sorted.{IsStrictlyIncreasing};
ghost use Rattle.sat_check.specs.Numbering.{literal_at, HasVariables, KeepsAll, Numbers, AddsNumbered};

use crate::arena::Arena;
use sat_base::{Clause, Lit, Log, NoMemory};
use std::alloc::Global;

/// The variables that occur in the clauses or in the log's lemmas, in ascending order.
pub fn variables_of(alloc: Global, clauses: &[Clause], log: &Log) -> Result<Vec<u64>, NoMemory>
    ensures increasing { IfOk result (λ v. IsStrictlyIncreasing v.items) }
    ensures clauses { IfOk result (λ v. HasVariables v.items clauses.now) }
    ensures lemmas { IfOk result (λ v. HasVariables v.items (map (λ s. s.lits) log.now)) }
{
    let mut variables = Vec::new(alloc);
    push_clauses(&mut variables, clauses)?;
    push_lemmas(alloc, &mut variables, log)?;
    variables.sort_unstable();
    variables.dedup();
    Ok(variables)
}

// Adds the variables of the literals.
fn push_variables(variables: &mut Vec<u64>, lits: &[Lit]) -> Result<(), NoMemory>
    ensures { OnOk result (variables.new.items ≡ variables.old.items ++ map (λ l. l.var) lits.now) }
{
    for lit in lits {
        variables.push(lit.var)?;
    }
    Ok(())
}

// Adds the variables of the clauses.
fn push_clauses(variables: &mut Vec<u64>, clauses: &[Clause]) -> Result<(), NoMemory>
    ensures kept { OnOk result (KeepsAll variables.old.items variables.new.items) }
    ensures added { OnOk result (HasVariables variables.new.items clauses.now) }
{
    for clause in clauses {
        push_variables(variables, clause.as_slice())?;
    }
    Ok(())
}

// Adds the variables of the lemmas.
fn push_lemmas(alloc: Global, variables: &mut Vec<u64>, log: &Log) -> Result<(), NoMemory>
    ensures kept { OnOk result (KeepsAll variables.old.items variables.new.items) }
    ensures added { OnOk result (HasVariables variables.new.items (map (λ s. s.lits) log.now)) }
{
    let mut limit = 0;
    for k in 0..log.len() {
        let lits = log.lits(alloc, k)?;
        push_variables(variables, lits.as_slice())?;
        limit = thinned(variables, limit);
    }
    Ok(())
}

// Takes repeated variables out where there are more than `limit`. Gives the next limit, which is so far away that all the sorting takes
// no more than n log n.
fn thinned(variables: &mut Vec<u64>, limit: usize) -> usize
    ensures { KeepsAll variables.old.items variables.new.items }
{
    if variables.len() <= limit {
        return limit;
    }
    variables.sort_unstable();
    variables.dedup();
    variables.len().saturating_mul(2).saturating_add(1 << 16)
}

// Where a variable of the list stands. Where all variables from 0 on occur, it stands at its own number.
fn place_of(variables: &[u64], var: u64) -> usize
    requires increasing { IsStrictlyIncreasing variables.now }
    requires known { Contains variables.now var }
    ensures within { result < length variables.now }
    ensures found { slice_index variables.now result ≡ var }
{
    if var < variables.len() as u64 && variables[var as usize] == var {
        return var as usize;
    }
    match variables.binary_search(&var) {
        Ok(place) => place,
        Err(_) => unreachable!(),
    }
}

/// The number of a literal whose variable is in the list.
pub fn number_of(variables: &[u64], lit: Lit) -> u32
    requires increasing { IsStrictlyIncreasing variables.now }
    requires known { Contains variables.now lit.var }
    requires fits { 2 * length variables.now ≤ 2 ^ 32 }
    ensures literal { literal_at variables.now result ≡ lit }
    ensures range { result < 2 * length variables.now }
{
    (2 * place_of(variables, lit.var) + usize::from(lit.negative)) as u32
}

/// Puts the numbers of the literals in place of what `numbers` holds.
pub fn number_all(variables: &[u64], lits: &[Lit], numbers: &mut Vec<u32>) -> Result<(), NoMemory>
    requires increasing { IsStrictlyIncreasing variables.now }
    requires known { All (λ l. Contains variables.now l.var) lits.now }
    requires fits { 2 * length variables.now ≤ 2 ^ 32 }
    ensures { OnOk result (Numbers variables.now numbers.new.items lits.now) }
{
    numbers.clear();
    for lit in lits {
        numbers.push(number_of(variables, *lit))?;
    }
    Ok(())
}

/// Adds the clauses, by the numbers of their literals.
pub fn add_clauses(
    alloc: Global,
    variables: &[u64],
    clauses: &[Clause],
    arena: &mut Arena,
) -> Result<(), NoMemory>
    requires increasing { IsStrictlyIncreasing variables.now }
    requires known { HasVariables variables.now clauses.now }
    requires fits { 2 * length variables.now ≤ 2 ^ 32 }
    ensures { OnOk result (AddsNumbered variables.now arena.old arena.new clauses.now) }
{
    let mut numbers = Vec::new(alloc);
    for clause in clauses {
        number_all(variables, clause.as_slice(), &mut numbers)?;
        arena.push(numbers.as_slice())?;
    }
    Ok(())
}

/// Adds the clauses of the lemmas, by the numbers of their literals.
pub fn add_lemmas(
    alloc: Global,
    variables: &[u64],
    log: &Log,
    arena: &mut Arena,
) -> Result<(), NoMemory>
    requires increasing { IsStrictlyIncreasing variables.now }
    requires known { HasVariables variables.now (map (λ s. s.lits) log.now) }
    requires fits { 2 * length variables.now ≤ 2 ^ 32 }
    ensures { OnOk result (AddsNumbered variables.now arena.old arena.new (map (λ s. s.lits) log.now)) }
{
    let mut numbers = Vec::new(alloc);
    for k in 0..log.len() {
        let lits = log.lits(alloc, k)?;
        number_all(variables, lits.as_slice(), &mut numbers)?;
        arena.push(numbers.as_slice())?;
    }
    Ok(())
}

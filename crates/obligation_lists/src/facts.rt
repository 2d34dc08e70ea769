//! Hypotheses as lists of facts.

ghost use Rattle.std.specs.Prelude.{ℕ, ◌≡◌, ◌<◌, ◌≤◌, ◌++◌, [], ◌∷◌, length, map, ⊤, IfOk, OnOk};
ghost use Rattle.model_meaning.specs.Model.{Model};
ghost use Rattle.refinement.specs.Map.{Map};
ghost use Rattle.refinement.specs.Obligation.{for_each, assumed, reset_active, no_commit, invariants_at, premises_at, start_hypotheses, started_by, running_at, not_ended, ended_at};
ghost use Rattle.obligation_lists.specs.Claims.{fact_of, hypotheses_of};
ghost use Rattle.obligation_lists.specs.Counts.{AreCountsOf};
ghost use Rattle.obligation_lists.specs.Within.{Each, IsFactOf, AreHypothesesOf, IsInstructionPlace};
ghost use Rattle.obligation_lists.specs.Growth.{AddsFacts};
ghost use Rattle.obligation_lists.specs.declared.claims.Hypotheses.TheVariants.{Idle};

use crate::claims::{Fact, Hypotheses, MapCounts};
use std::alloc::Global;
use wb_terms::NoMemory;

/// Each invariant holds at a cycle.
fn add_invariants_at(
    facts: &mut Vec<Fact<'_>>,
    counts: MapCounts<'_>,
    cycle: u64,
) -> Result<(), NoMemory>
    ensures { OnOk result (AddsFacts counts.entry facts.old.items facts.new.items (λ p. invariants_at p cycle) (λ m last. cycle ≤ last)) }
{
    for place in 0..counts.invariants {
        facts.push(Fact::Invariant(place, cycle))?;
    }
    Ok(())
}

/// Each assumption holds at a cycle.
fn add_assumed(facts: &mut Vec<Fact<'_>>, counts: MapCounts<'_>, cycle: u64) -> Result<(), NoMemory>
    ensures { OnOk result (AddsFacts counts.entry facts.old.items facts.new.items
        (λ p. for_each (λ k. assumed k cycle ∷ []) 0 (length p.assume)) (λ m last. cycle ≤ last)) }
{
    for place in 0..counts.assume {
        facts.push(Fact::Assumed(place, cycle))?;
    }
    Ok(())
}

/// Reset is inactive at a cycle, and each assumption holds.
fn add_premises(
    facts: &mut Vec<Fact<'_>>,
    counts: MapCounts<'_>,
    cycle: u64,
) -> Result<(), NoMemory>
    ensures { OnOk result (AddsFacts counts.entry facts.old.items facts.new.items (λ p. premises_at p cycle) (λ m last. cycle ≤ last)) }
{
    facts.push(Fact::ResetInactive(cycle))?;
    add_assumed(facts, counts, cycle)?;
    Ok(())
}

/// Reset is active at each of its cycles.
fn add_reset(facts: &mut Vec<Fact<'_>>, counts: MapCounts<'_>) -> Result<(), NoMemory>
    ensures { OnOk result (AddsFacts counts.entry facts.old.items facts.new.items
        (λ p. for_each (λ t. reset_active t ∷ []) 0 p.reset_cycles) (λ m last. counts.entry.reset_cycles ≤ last)) }
{
    for cycle in 0..counts.reset_cycles {
        facts.push(Fact::ResetActive(cycle))?;
    }
    Ok(())
}

/// A cycle 0 without start.
fn add_idle(facts: &mut Vec<Fact<'_>>, counts: MapCounts<'_>) -> Result<(), NoMemory>
    ensures { OnOk result (AddsFacts counts.entry facts.old.items facts.new.items (λ p. hypotheses_of p Idle) (λ m last. ⊤)) }
{
    add_invariants_at(facts, counts, 0)?;
    add_premises(facts, counts, 0)?;
    facts.push(Fact::NoStart(0))?;
    Ok(())
}

/// A start at cycle 0.
fn add_started(facts: &mut Vec<Fact<'_>>, counts: MapCounts<'_>) -> Result<(), NoMemory>
    ensures { OnOk result (AddsFacts counts.entry facts.old.items facts.new.items start_hypotheses (λ m last. ⊤)) }
{
    add_invariants_at(facts, counts, 0)?;
    add_premises(facts, counts, 0)?;
    facts.push(Fact::Start(0))?;
    Ok(())
}

/// A start of this instruction at cycle 0.
fn add_started_by(
    facts: &mut Vec<Fact<'_>>,
    counts: MapCounts<'_>,
    instruction: usize,
) -> Result<(), NoMemory>
    ensures { OnOk result (AddsFacts counts.entry facts.old.items facts.new.items (λ p. started_by p instruction) (λ m last. IsInstructionPlace m instruction)) }
{
    add_started(facts, counts)?;
    facts.push(Fact::Decoded(instruction))?;
    Ok(())
}

/// A cycle after the start: the premises, and no start.
fn add_running_at(
    facts: &mut Vec<Fact<'_>>,
    counts: MapCounts<'_>,
    cycle: u64,
) -> Result<(), NoMemory>
    ensures { OnOk result (AddsFacts counts.entry facts.old.items facts.new.items (λ p. running_at p cycle) (λ m last. cycle ≤ last)) }
{
    add_premises(facts, counts, cycle)?;
    facts.push(Fact::NoStart(cycle))?;
    Ok(())
}

/// A cycle in which the instruction's command goes on without commit.
fn add_running(
    facts: &mut Vec<Fact<'_>>,
    counts: MapCounts<'_>,
    instruction: usize,
    cycle: u64,
) -> Result<(), NoMemory>
    ensures { OnOk result (AddsFacts counts.entry facts.old.items facts.new.items (λ p. running_at p cycle ++ no_commit instruction cycle ∷ [])
        (λ m last. IsInstructionPlace m instruction × (cycle ≤ last))) }
{
    add_running_at(facts, counts, cycle)?;
    facts.push(Fact::NoCommit(instruction, cycle))?;
    Ok(())
}

/// A command of this instruction that has not ended in its first so many cycles.
fn add_not_ended(
    facts: &mut Vec<Fact<'_>>,
    counts: MapCounts<'_>,
    instruction: usize,
    cycles: u64,
) -> Result<(), NoMemory>
    ensures { OnOk result (AddsFacts counts.entry facts.old.items facts.new.items (λ p. not_ended p instruction cycles)
        (λ m last. IsInstructionPlace m instruction × (cycles ≤ last))) }
{
    add_started_by(facts, counts, instruction)?;
    facts.push(Fact::NoCommit(instruction, 0))?;
    for cycle in 1..cycles {
        add_running(facts, counts, instruction, cycle)?;
    }
    Ok(())
}

/// A command of this instruction whose first commit is at a cycle.
fn add_ended_at(
    facts: &mut Vec<Fact<'_>>,
    counts: MapCounts<'_>,
    instruction: usize,
    cycle: u64,
) -> Result<(), NoMemory>
    ensures { OnOk result (AddsFacts counts.entry facts.old.items facts.new.items (λ p. ended_at p instruction cycle)
        (λ m last. IsInstructionPlace m instruction × (cycle < last))) }
{
    if cycle == 0 {
        add_started_by(facts, counts, instruction)?;
        facts.push(Fact::Commit(instruction, 0))?;
        return Ok(());
    }
    add_not_ended(facts, counts, instruction, cycle)?;
    add_running_at(facts, counts, cycle)?;
    facts.push(Fact::Commit(instruction, cycle))?;
    Ok(())
}

/// The facts that hypotheses are.
fn add_hypotheses(
    facts: &mut Vec<Fact<'_>>,
    counts: MapCounts<'_>,
    hypotheses: Hypotheses,
) -> Result<(), NoMemory>
    ensures { OnOk result (AddsFacts counts.entry facts.old.items facts.new.items (λ p. hypotheses_of p hypotheses)
        (λ m last. AreHypothesesOf m counts.entry last hypotheses)) }
{
    match hypotheses {
        Hypotheses::Reset => add_reset(facts, counts)?,
        Hypotheses::Idle => add_idle(facts, counts)?,
        Hypotheses::Started => add_started(facts, counts)?,
        Hypotheses::StartedBy(instruction) => add_started_by(facts, counts, instruction)?,
        Hypotheses::NotEnded(instruction, cycles) => {
            add_not_ended(facts, counts, instruction, cycles)?
        }
        Hypotheses::EndedAt(instruction, cycle) => {
            add_ended_at(facts, counts, instruction, cycle)?
        }
    }
    Ok(())
}

/// The facts that hypotheses are, in order.
pub fn hypotheses<'a>(
    alloc: Global,
    counts: MapCounts<'_>,
    hypotheses: Hypotheses,
) -> Result<Vec<Fact<'a>>, NoMemory>
    ensures listed { IfOk result (λ facts. (m : Model) (p : Map) → AreCountsOf m p counts.entry → map fact_of facts.items ≡ hypotheses_of p hypotheses) }
    ensures within { IfOk result (λ facts. (m : Model) (last : ℕ) → AreHypothesesOf m counts.entry last hypotheses
        → Each (IsFactOf m counts.entry last) facts.items) }
{
    let mut facts = Vec::new(alloc);
    add_hypotheses(&mut facts, counts, hypotheses)?;
    Ok(facts)
}

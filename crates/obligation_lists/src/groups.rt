//! Obligations with the same hypotheses: one for each invariant, and one for each state.

ghost use Rattle.std.specs.Prelude.{◌≡◌, ◌<◌, ◌++◌, [], ◌∷◌, length, slice_get, Some, IfOk, OnOk, string_bytes};
ghost use Rattle.model_meaning.specs.Model.{Model, StateDeclaration, states_of};
ghost use Rattle.refinement.specs.Obligation.{initial, numbered, invariant_obligations, state_obligations, with_initial_values};
ghost use Rattle.ila_model.specs.Model.{model_of};
ghost use Rattle.obligation_lists.specs.Claims.{fact_of, hypotheses_of};
ghost use Rattle.obligation_lists.specs.Within.{AreHypothesesOf, IsStateIn, IsFactOf};
ghost use Rattle.obligation_lists.specs.Growth.{Adds, claim_by, AreClaimsOf};

use crate::claims::{Fact, Hypotheses, MapCounts, Obligation, StateAt};
use ila_model::IlaModel;
use itoa::Buffer;
use std::alloc::Global;
use wb_terms::NoMemory;

/// What obligations of a group have in common.
#[derive(Clone, Copy)]
pub(crate) struct Group<'b> {
    /// The first part of their names.
    pub text: &'b str,
    /// How many cycles they speak of. What they claim of invariants and values is claimed after the last one.
    pub cycles: u64,
    pub hypotheses: Hypotheses,
}

/// What is claimed of each state.
#[derive(Clone, Copy)]
pub(crate) enum StateClaims {
    Initial,
    Same,
    ResultOf(usize),
}

/// A text and what comes after it.
pub(crate) fn joined(alloc: Global, text: &str, rest: &str) -> Result<String, NoMemory>
    ensures { IfOk result (λ t. string_bytes t ≡ text.now ++ rest.now) }
{
    let mut joined = String::from_str(alloc, text)?;
    joined.push_str(rest)?;
    Ok(joined)
}

/// A text with a number after it.
pub(crate) fn numbered(alloc: Global, text: &str, number: u64) -> Result<String, NoMemory>
    ensures { IfOk result (λ t. string_bytes t ≡ numbered text.now number) }
{
    let mut buffer = Buffer::new();
    joined(alloc, text, buffer.format(number))
}

/// Adds an obligation of a group.
pub(crate) fn add<'a>(
    list: &mut Vec<Obligation<'a>>,
    group: Group<'_>,
    name: String,
    claim: Fact<'a>,
) -> Result<(), NoMemory>
    ensures { OnOk result (list.new.items ≡ list.old.items ++ record {
      name = name;
      cycles = group.entry.cycles;
      hypotheses = group.entry.hypotheses;
      claim = claim.entry;
    } ∷ []) }
{
    list.push(Obligation {
        name,
        cycles: group.cycles,
        hypotheses: group.hypotheses,
        claim,
    })?;
    Ok(())
}

/// For each invariant: it holds after the group's cycles.
pub(crate) fn add_invariants(
    alloc: Global,
    list: &mut Vec<Obligation<'_>>,
    group: Group<'_>,
    counts: MapCounts<'_>,
) -> Result<(), NoMemory>
    ensures { OnOk result ((m : Model) → AreHypothesesOf m counts.entry group.entry.cycles group.entry.hypotheses
        → Adds m counts.entry list.old.items list.new.items
        (λ p. invariant_obligations p group.entry.text.now group.entry.cycles (hypotheses_of p group.entry.hypotheses) group.entry.cycles)) }
{
    for place in 0..counts.invariants {
        let name = numbered(alloc, group.text, place as u64)?;
        add(list, group, name, Fact::Invariant(place, group.cycles))?;
    }
    Ok(())
}

/// What is claimed of a state at a cycle.
fn claim<'a>(claims: StateClaims, state: StateAt<'a>, cycle: u64) -> Fact<'a>
    ensures claimed { fact_of result ≡ claim_by claims cycle state.entry.name.now }
    ensures within { (m : Model) (counts : MapCounts) → IsStateIn m state.entry → AreClaimsOf m cycle claims → IsFactOf m counts cycle result }
{
    match claims {
        StateClaims::Initial => Fact::Initial(state, cycle),
        StateClaims::Same => Fact::Same(state),
        StateClaims::ResultOf(instruction) => Fact::ResultOf(instruction, state, cycle),
    }
}

/// The claim of one state.
fn add_state<'a>(
    alloc: Global,
    list: &mut Vec<Obligation<'a>>,
    model: &'a IlaModel,
    group: Group<'_>,
    claims: StateClaims,
    place: usize,
) -> Result<(), NoMemory>
    requires { place < length (states_of (model_of model.now).top) }
    ensures { OnOk result ((counts : MapCounts) (d : StateDeclaration) → slice_get (states_of (model_of model.now).top) place ≡ Some d
        → AreHypothesesOf (model_of model.now) counts group.entry.cycles group.entry.hypotheses → AreClaimsOf (model_of model.now) group.entry.cycles claims
        → Adds (model_of model.now) counts list.old.items list.new.items
        (λ p. state_obligations group.entry.text.now group.entry.cycles (hypotheses_of p group.entry.hypotheses) (claim_by claims group.entry.cycles) (d ∷ []))) }
{
    let name = model.state_name(place);
    let full = joined(alloc, group.text, name)?;
    let claim = claim(claims, StateAt { name, place }, group.cycles);
    add(list, group, full, claim)?;
    Ok(())
}

/// The claim of each state.
pub(crate) fn add_states<'a>(
    alloc: Global,
    list: &mut Vec<Obligation<'a>>,
    model: &'a IlaModel,
    group: Group<'_>,
    claims: StateClaims,
) -> Result<(), NoMemory>
    ensures { OnOk result ((counts : MapCounts) → AreHypothesesOf (model_of model.now) counts group.entry.cycles group.entry.hypotheses
        → AreClaimsOf (model_of model.now) group.entry.cycles claims → Adds (model_of model.now) counts list.old.items list.new.items
        (λ p. state_obligations group.entry.text.now group.entry.cycles (hypotheses_of p group.entry.hypotheses) (claim_by claims group.entry.cycles)
        (states_of (model_of model.now).top))) }
{
    for place in 0..model.state_count() {
        add_state(alloc, list, model, group, claims, place)?;
    }
    Ok(())
}

/// Where the state has a stated initial value: it has it.
fn add_initial_of<'a>(
    alloc: Global,
    list: &mut Vec<Obligation<'a>>,
    model: &'a IlaModel,
    group: Group<'_>,
    place: usize,
) -> Result<(), NoMemory>
    requires { place < length (states_of (model_of model.now).top) }
    ensures { OnOk result ((counts : MapCounts) (d : StateDeclaration) → slice_get (states_of (model_of model.now).top) place ≡ Some d
        → AreHypothesesOf (model_of model.now) counts group.entry.cycles group.entry.hypotheses
        → Adds (model_of model.now) counts list.old.items list.new.items
        (λ p. state_obligations group.entry.text.now group.entry.cycles (hypotheses_of p group.entry.hypotheses) (λ n. initial n group.entry.cycles)
        (with_initial_values (d ∷ [])))) }
{
    if model.initial_value(place).is_none() {
        return Ok(());
    }
    add_state(alloc, list, model, group, StateClaims::Initial, place)?;
    Ok(())
}

/// The claim of each state with a stated initial value: it has it.
pub(crate) fn add_initial<'a>(
    alloc: Global,
    list: &mut Vec<Obligation<'a>>,
    model: &'a IlaModel,
    group: Group<'_>,
) -> Result<(), NoMemory>
    ensures { OnOk result ((counts : MapCounts) → AreHypothesesOf (model_of model.now) counts group.entry.cycles group.entry.hypotheses
        → Adds (model_of model.now) counts list.old.items list.new.items
        (λ p. state_obligations group.entry.text.now group.entry.cycles (hypotheses_of p group.entry.hypotheses) (λ n. initial n group.entry.cycles)
        (with_initial_values (states_of (model_of model.now).top)))) }
{
    for place in 0..model.state_count() {
        add_initial_of(alloc, list, model, group, place)?;
    }
    Ok(())
}

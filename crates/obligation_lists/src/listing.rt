//! All obligations of a model and a map, in order, and the names of covers.

ghost use Rattle.std.specs.Prelude.{◌≡◌, ◌<◌, ◌+◌, ◌^◌, ◌++◌, [], ◌∷◌, length, map, slice_index_or, codes, decimal, IfOk, OnOk, string_bytes};
ghost use Rattle.model_meaning.specs.Model.{Model, instruction_name, child_program, instructions_in};
ghost use Rattle.refinement.specs.Map.{Map};
ghost use Rattle.refinement.specs.Obligation.{for_each, obligations as all_obligations, reset_obligations, idle_obligations, decode_obligation, child_obligations, bound_obligation, commit_obligations, all_instruction_obligations};
ghost use Rattle.ila_model.specs.Model.{model_of};
ghost use Rattle.ila_model.specs.Sorted.{IsChildBelow};
ghost use Rattle.obligation_lists.specs.Claims.{obligation_of};
ghost use Rattle.obligation_lists.specs.Counts.{AreCountsOf};
ghost use Rattle.obligation_lists.specs.Within.{Each, IsObligationOf, IsInstructionPlace};
ghost use Rattle.obligation_lists.specs.Growth.{Adds};
ghost use Rattle.obligation_lists.specs.Parts.{top_instruction};

use crate::claims::{Fact, Hypotheses, MapCounts, Obligation};
use crate::groups::{
    Group, StateClaims, add, add_initial, add_invariants, add_states, joined, numbered,
};
use ila_model::{IlaModel, Instruction};
use std::alloc::Global;
use wb_terms::NoMemory;

/// After the reset: each invariant, and each stated initial value.
fn add_reset<'a>(
    alloc: Global,
    list: &mut Vec<Obligation<'a>>,
    model: &'a IlaModel,
    counts: MapCounts<'_>,
) -> Result<(), NoMemory>
    ensures { OnOk result (Adds (model_of model.now) counts.entry list.old.items list.new.items (reset_obligations (model_of model.now))) }
{
    let cycles = counts.reset_cycles;
    let hypotheses = Hypotheses::Reset;
    let invariants = Group {
        text: "reset.inv.",
        cycles,
        hypotheses,
    };
    add_invariants(alloc, list, invariants, counts)?;
    let states = Group {
        text: "reset.init.",
        cycles,
        hypotheses,
    };
    add_initial(alloc, list, model, states)?;
    Ok(())
}

/// After a cycle without start: each invariant, and each state as it was.
fn add_idle<'a>(
    alloc: Global,
    list: &mut Vec<Obligation<'a>>,
    model: &'a IlaModel,
    counts: MapCounts<'_>,
) -> Result<(), NoMemory>
    ensures { OnOk result (Adds (model_of model.now) counts.entry list.old.items list.new.items (idle_obligations (model_of model.now))) }
{
    let hypotheses = Hypotheses::Idle;
    let invariants = Group {
        text: "idle.inv.",
        cycles: 1,
        hypotheses,
    };
    add_invariants(alloc, list, invariants, counts)?;
    let states = Group {
        text: "idle.state.",
        cycles: 1,
        hypotheses,
    };
    add_states(alloc, list, model, states, StateClaims::Same)?;
    Ok(())
}

/// At a start exactly one instruction decodes.
fn add_decode(alloc: Global, list: &mut Vec<Obligation<'_>>) -> Result<(), NoMemory>
    ensures { OnOk result ((m : Model) (counts : MapCounts) → Adds m counts list.old.items list.new.items (λ p. decode_obligation p ∷ [])) }
{
    let group = Group {
        text: "decode",
        cycles: 1,
        hypotheses: Hypotheses::Started,
    };
    let name = String::from_str(alloc, group.text)?;
    add(list, group, name, Fact::OneDecodes)?;
    Ok(())
}

/// Where an instruction has a child: its steps end.
fn add_child(
    alloc: Global,
    list: &mut Vec<Obligation<'_>>,
    model: &IlaModel,
    place: usize,
    instruction: &Instruction,
) -> Result<(), NoMemory>
    requires linked { IsChildBelow (length model.now.parts.children.items) instruction.now.child }
    requires there { IsInstructionPlace (model_of model.now) place }
    ensures { OnOk result ((counts : MapCounts) → Adds (model_of model.now) counts list.old.items list.new.items
        (λ p. child_obligations p place (string_bytes instruction.now.name) (child_program (top_instruction model.now instruction.now)))) }
{
    if instruction.child.is_none() {
        return Ok(());
    }
    let group = Group {
        text: "child.",
        cycles: 1,
        hypotheses: Hypotheses::StartedBy(place),
    };
    let name = joined(alloc, group.text, instruction.name.as_str())?;
    add(list, group, name, Fact::Ends(place))?;
    Ok(())
}

/// A commit comes within the bound.
fn add_bound(
    alloc: Global,
    list: &mut Vec<Obligation<'_>>,
    place: usize,
    name: &str,
    bound: u64,
) -> Result<(), NoMemory>
    ensures { OnOk result ((m : Model) (counts : MapCounts) → IsInstructionPlace m place
        → Adds m counts list.old.items list.new.items (λ p. bound_obligation p place name.now bound ∷ [])) }
{
    let group = Group {
        text: "bound.",
        cycles: bound,
        hypotheses: Hypotheses::NotEnded(place, bound),
    };
    let full = joined(alloc, group.text, name)?;
    add(list, group, full, Fact::Never)?;
    Ok(())
}

/// The first part of the names of what is claimed after an instruction's commit at a cycle.
fn commit_text(alloc: Global, name: &str, cycle: u64) -> Result<String, NoMemory>
    ensures { IfOk result (λ t. string_bytes t ≡ codes "commit." ++ name.now ++ codes "." ++ decimal cycle) }
{
    let mut text = joined(alloc, "commit.", name)?;
    text.push_str(".")?;
    let full = numbered(alloc, text.as_str(), cycle)?;
    Ok(full)
}

/// After a commit at a cycle: each invariant, and each state as the instruction leaves it.
fn add_commit<'a>(
    alloc: Global,
    list: &mut Vec<Obligation<'a>>,
    model: &'a IlaModel,
    counts: MapCounts<'_>,
    place: usize,
    name: &str,
    cycle: u64,
) -> Result<(), NoMemory>
    requires below { cycle + 1 < 2 ^ 64 }
    requires there { IsInstructionPlace (model_of model.now) place }
    ensures { OnOk result (Adds (model_of model.now) counts.entry list.old.items list.new.items
        (λ p. commit_obligations (model_of model.now) p place name.now cycle)) }
{
    let text = commit_text(alloc, name, cycle)?;
    let cycles = cycle + 1;
    let hypotheses = Hypotheses::EndedAt(place, cycle);
    let of_invariants = joined(alloc, text.as_str(), ".inv.")?;
    let invariants = Group {
        text: of_invariants.as_str(),
        cycles,
        hypotheses,
    };
    add_invariants(alloc, list, invariants, counts)?;
    let of_states = joined(alloc, text.as_str(), ".state.")?;
    let states = Group {
        text: of_states.as_str(),
        cycles,
        hypotheses,
    };
    add_states(alloc, list, model, states, StateClaims::ResultOf(place))?;
    Ok(())
}

/// After a commit at each cycle below the bound.
fn add_commits<'a>(
    alloc: Global,
    list: &mut Vec<Obligation<'a>>,
    model: &'a IlaModel,
    counts: MapCounts<'_>,
    place: usize,
    name: &str,
    bound: u64,
) -> Result<(), NoMemory>
    requires there { IsInstructionPlace (model_of model.now) place }
    ensures { OnOk result (Adds (model_of model.now) counts.entry list.old.items list.new.items
        (λ p. for_each (commit_obligations (model_of model.now) p place name.now) 0 bound)) }
{
    for cycle in 0..bound {
        add_commit(alloc, list, model, counts, place, name, cycle)?;
    }
    Ok(())
}

/// Those of one instruction.
fn add_instruction<'a>(
    alloc: Global,
    list: &mut Vec<Obligation<'a>>,
    model: &'a IlaModel,
    counts: MapCounts<'_>,
    place: usize,
    instruction: &Instruction,
    bound: u64,
) -> Result<(), NoMemory>
    requires linked { IsChildBelow (length model.now.parts.children.items) instruction.now.child }
    requires there { IsInstructionPlace (model_of model.now) place }
    ensures { OnOk result (Adds (model_of model.now) counts.entry list.old.items list.new.items
        (λ p. child_obligations p place (string_bytes instruction.now.name) (child_program (top_instruction model.now instruction.now))
        ++ bound_obligation p place (string_bytes instruction.now.name) bound
        ∷ for_each (commit_obligations (model_of model.now) p place (string_bytes instruction.now.name)) 0 bound)) }
{
    let name = instruction.name.as_str();
    add_child(alloc, list, model, place, instruction)?;
    add_bound(alloc, list, place, name, bound)?;
    add_commits(alloc, list, model, counts, place, name, bound)?;
    Ok(())
}

/// The bound of an instruction.
fn bound_of(counts: MapCounts<'_>, place: usize) -> u64
    requires { place < length counts.bounds.now }
    ensures { result ≡ slice_index_or counts.entry.bounds.now place 0 }
{
    counts.bounds[place]
}

/// Those of all instructions.
fn add_instructions<'a>(
    alloc: Global,
    list: &mut Vec<Obligation<'a>>,
    model: &'a IlaModel,
    counts: MapCounts<'_>,
) -> Result<(), NoMemory>
    requires { length counts.bounds.now ≡ length (instructions_in (model_of model.now).top) }
    ensures { OnOk result (Adds (model_of model.now) counts.entry list.old.items list.new.items
        (λ p. all_instruction_obligations (model_of model.now) p 0 (instructions_in (model_of model.now).top))) }
{
    for place in 0..model.parts.instructions.len() {
        let instruction = &model.parts.instructions[place];
        let bound = bound_of(counts, place);
        add_instruction(alloc, list, model, counts, place, instruction, bound)?;
    }
    Ok(())
}

/// The obligations of a model and of each map with these counts, in order. The counts have a bound for each instruction.
pub fn obligations<'a>(
    alloc: Global,
    model: &'a IlaModel,
    counts: MapCounts<'_>,
) -> Result<Vec<Obligation<'a>>, NoMemory>
    requires { length counts.bounds.now ≡ length (instructions_in (model_of model.now).top) }
    ensures listed { IfOk result (λ list. (p : Map) → AreCountsOf (model_of model.now) p counts.entry
        → map (obligation_of p) list.items ≡ all_obligations (model_of model.now) p) }
    ensures within { IfOk result (λ list. Each (IsObligationOf (model_of model.now) counts.entry) list.items) }
{
    let mut list = Vec::new(alloc);
    add_reset(alloc, &mut list, model, counts)?;
    add_idle(alloc, &mut list, model, counts)?;
    add_decode(alloc, &mut list)?;
    add_instructions(alloc, &mut list, model, counts)?;
    Ok(list)
}

/// The names of the covers: one for each instruction, in order.
pub fn cover_names(alloc: Global, model: &IlaModel) -> Result<Vec<String>, NoMemory>
    ensures { IfOk result (λ names. map string_bytes names.items
        ≡ map (λ i. codes "cover." ++ instruction_name i) (instructions_in (model_of model.now).top)) }
{
    let mut names = Vec::new(alloc);
    for place in 0..model.parts.instructions.len() {
        let name = model.parts.instructions[place].name.as_str();
        names.push(joined(alloc, "cover.", name)?)?;
    }
    Ok(names)
}

//! The terms of a model at a state and inputs that are terms.

ghost use Rattle.std.specs.Prelude.{◌≡◌, ◌&&◌, true, None, map, length, IfOk, OnErr};
ghost use Rattle.model_meaning.specs.Model.{states_of};
ghost use Rattle.term_copies.specs.Copies.{IsExtended, AreLeaves};
ghost use Rattle.ila_model.specs.Sorted.{is_condition, are_updates};
ghost use Rattle.ila_model.specs.Model.{model_of};
ghost use Rattle.ila_child.specs.State.{sorts_of_states, sorts_of_inputs};
ghost use Rattle.ila_child.specs.Running.{IsLinked};
ghost use Rattle.model_terms.specs.Symbolic.{is_true, IsCondition, IsTest};
ghost use Rattle.model_terms.specs.Copied.{HasCopies, terms_of_instruction, terms_of_instructions};
ghost use Rattle.model_terms.specs.Terms.{AreTermsOf};
ghost use Rattle.model_terms.specs.Puts.{IsPut, ArePut, AreDecodes, exactly_one};

use crate::NoMemory;
use crate::choices::{put_both, put_test, put_truth};
use crate::joining::put_unless;
use crate::listing::{put_copies_of, terms_of_machine};
use crate::points::{copy_of, updated};
use crate::programs::put_program;
use crate::starts::start;
use ila_model::{IlaModel, Instruction};
use std::alloc::Global;
use wanted_terms::closed;
use wb_terms::{TermId, Terms};

/// The terms of an instruction at a state and inputs.
#[derive(Drop)]
pub struct InstructionTerms {
    /// Whether it decodes.
    pub decode: TermId,
    /// Whether it leads to a state: its child programs end.
    pub ends: TermId,
    /// The state that it leads to, where it does: a term for each state of the model, in order.
    pub results: Vec<TermId>,
}

/// The terms of a model at a state and inputs.
#[derive(Drop)]
pub struct ModelTerms {
    /// Whether the valid condition holds.
    pub valid: TermId,
    /// Whether it holds and exactly one instruction decodes.
    pub started: TermId,
    /// For each instruction of the model, in order.
    pub instructions: Vec<InstructionTerms>,
}

/// Puts a condition as a test, which is worth a truth value whatever the names' values are.
fn put_condition(terms: &mut Terms, condition: TermId) -> Result<TermId, NoMemory>
    requires condition { IsCondition terms.old condition.0 }
    ensures extended { IsExtended terms.old terms.new }
    ensures test { IfOk result (λ r. IsTest terms.new r.0) }
    ensures value { IfOk result (λ r. (v : _) → is_true terms.new r.0 v ≡ is_true terms.old condition.0 v) }
{
    let always = put_truth(terms, true)?;
    let id = put_both(terms, always, condition)?;
    Ok(id)
}

/// Puts the terms of an instruction of the top at a point, over whose terms those of the instruction are copied.
fn put_instruction(
    alloc: Global,
    terms: &mut Terms,
    model: &IlaModel,
    instruction: &Instruction,
    copies: &[TermId],
    point: &[TermId],
) -> Result<InstructionTerms, NoMemory>
    requires decode { is_condition model.now.parts None instruction.now.decode.0 ≡ true }
    requires updates { are_updates model.now.parts None 0 instruction.now.updates.items ≡ true }
    requires linked { IsLinked model.now.parts.children.items None instruction.now.child }
    requires leaves { AreLeaves terms.old model.now.parts.terms.names point.now }
    requires room { length copies.now ≡ length model.now.parts.terms.nodes }
    requires copies { HasCopies terms.old model.now.parts.terms point.now copies.now (terms_of_instruction instruction.now) }
    ensures extended { IsExtended terms.old terms.new }
    ensures put { IfOk result (IsPut terms.old terms.new model.now.parts point.now instruction.now) }
{
    let source = &model.parts.terms;
    let after = updated(alloc, source, point, copies, &instruction.updates)?;
    let reached = put_program(alloc, terms, model, None, 0, instruction.child, after)?;
    let copy = copy_of(copies, instruction.decode);
    let decode = put_condition(terms, copy)?;
    let mut results = reached.point;
    results.truncate(model.state_count());
    Ok(InstructionTerms {
        decode,
        ends: reached.ended,
        results,
    })
}

/// Puts the terms of all instructions of the top.
fn put_instructions(
    alloc: Global,
    terms: &mut Terms,
    model: &IlaModel,
    copies: &[TermId],
    point: &[TermId],
) -> Result<Vec<InstructionTerms>, NoMemory>
    requires leaves { AreLeaves terms.old model.now.parts.terms.names point.now }
    requires room { length copies.now ≡ length model.now.parts.terms.nodes }
    requires copies { HasCopies terms.old model.now.parts.terms point.now copies.now (terms_of_instructions model.now.parts.instructions.items) }
    ensures extended { IsExtended terms.old terms.new }
    ensures put { IfOk result (λ r. ArePut terms.old terms.new model.now.parts point.now model.now.parts.instructions.items r.items) }
{
    let mut all = Vec::new(alloc);
    for place in 0..model.parts.instructions.len() {
        let instruction = &model.parts.instructions[place];
        let one = put_instruction(alloc, terms, model, instruction, copies, point)?;
        all.push(one)?;
    }
    Ok(all)
}

/// Puts the test that a condition holds and exactly one of the instructions decodes.
fn put_started(
    terms: &mut Terms,
    valid: TermId,
    instructions: &[InstructionTerms],
) -> Result<TermId, NoMemory>
    requires valid { IsTest terms.old valid.0 }
    requires decodes { AreDecodes terms.old instructions.now }
    ensures extended { IsExtended terms.old terms.new }
    ensures test { IfOk result (λ r. IsTest terms.new r.0) }
    ensures value { IfOk result (λ r. (v : _) → is_true terms.new r.0 v ≡ (exactly_one (map (λ t. is_true terms.old t.decode.0 v) instructions.now) && is_true terms.old valid.0 v)) }
{
    let mut none = put_truth(terms, true)?;
    let mut one = put_truth(terms, false)?;
    for done in 0..instructions.len() {
        let instruction = &instructions[instructions.len() - 1 - done];
        one = put_test(terms, instruction.decode, none, one)?;
        none = put_unless(terms, instruction.decode, none)?;
    }
    let started = put_both(terms, one, valid)?;
    Ok(started)
}

/// Puts the terms of a model, and leaves those that were put where it fails.
fn put_all(
    alloc: Global,
    terms: &mut Terms,
    model: &IlaModel,
    states: &[TermId],
    inputs: &[TermId],
) -> Result<ModelTerms, NoMemory>
    requires states { AreLeaves terms.old (sorts_of_states (states_of (model_of model.now).top)) states.now }
    requires inputs { AreLeaves terms.old (sorts_of_inputs (model_of model.now).inputs) inputs.now }
    ensures extended { IsExtended terms.old terms.new }
    ensures meaning { IfOk result (AreTermsOf (model_of model.now) terms.new states.now inputs.now) }
{
    let source = &model.parts.terms;
    let point = start(alloc, terms, model, states, inputs)?;
    let listed = terms_of_machine(alloc, model.parts.valid, &model.parts.instructions)?;
    let wanted = closed(alloc, source, &listed)?;
    let copies = put_copies_of(alloc, terms, source, &point, &wanted, &listed)?;
    let copy = copy_of(&copies, model.parts.valid);
    let valid = put_condition(terms, copy)?;
    let instructions = put_instructions(alloc, terms, model, &copies, &point)?;
    let started = put_started(terms, valid, &instructions)?;
    Ok(ModelTerms {
        valid,
        started,
        instructions,
    })
}

/// Puts the terms that say what the model does where its states and inputs have the values of these terms: one for each state and each
/// input, in order, of its sort. Child programs are unrolled to their limits of steps, so the time and the number of terms are those of
/// `unrolled_steps`.
pub fn put_model(
    alloc: Global,
    terms: &mut Terms,
    model: &IlaModel,
    states: &[TermId],
    inputs: &[TermId],
) -> Result<ModelTerms, NoMemory>
    requires states { AreLeaves terms.old (sorts_of_states (states_of (model_of model.now).top)) states.now }
    requires inputs { AreLeaves terms.old (sorts_of_inputs (model_of model.now).inputs) inputs.now }
    ensures extended { IsExtended terms.old terms.new }
    ensures meaning { IfOk result (AreTermsOf (model_of model.now) terms.new states.now inputs.now) }
    ensures err { OnErr result (terms.new ≡ terms.old) }
{
    let before = terms.len();
    match put_all(alloc, terms, model, states, inputs) {
        Ok(all) => Ok(all),
        Err(stop) => {
            terms.cut(before);
            Err(stop)
        }
    }
}

//! What is found of each obligation, and of each instruction's cover.

ghost use Rattle.std.specs.Prelude.{◌≡◌, ◌<◌, length, map, IfOk, OnOk};
ghost use Rattle.model_meaning.specs.Model.{instructions_in};
ghost use Rattle.ila_model.specs.Model.{model_of};
ghost use Rattle.refinement.specs.Map.{Setting};
ghost use Rattle.refinement.specs.Obligation.{obligations as all_obligations};
ghost use Rattle.reports.specs.Report.{AreCovers};
ghost use Rattle.mapped_designs.specs.Mapped.{IsSortedFor};
ghost use Rattle.mapped_designs.specs.View.{mapped_of};
ghost use Rattle.obligation_lists.specs.Claims.{obligation_of};
ghost use Rattle.obligation_terms.specs.Asked.{IsStated, IsReadyFor};
ghost use Rattle.obligation_check.specs.Found.{AreFound, cover_by};
ghost use Rattle.obligation_check.specs.Decided.{IsSettingBy, AreStated, IsFoundBy, AreFoundBy, IsCoveredBy, AreCoveredBy};

use crate::NoMemory;
use crate::findings::{Finding, find};
use fixed_terms::with_fixed;
use ila_model::IlaModel;
use mapped_designs::MappedDesign;
use obligation_lists::Obligation;
use obligation_terms::ObligationTerms;
use std::alloc::Global;

/// What is found of a model and a design with a map.
#[derive(Drop)]
pub struct Found {
    /// Of each obligation, in order.
    pub obligations: Vec<Finding>,
    /// Of each instruction, in order: whether it has no whole command, or the values of one.
    pub covers: Vec<Finding>,
}

/// Begins with a new store where the one that is there is of another number of cycles.
fn prepare(
    alloc: Global,
    model: &IlaModel,
    mapped: &MappedDesign,
    terms: &mut ObligationTerms,
    cycles: u64,
) -> Result<(), NoMemory>
    requires sorted { IsSortedFor (model_of model.now) (mapped_of mapped.now) }
    requires ready { IsReadyFor (model_of model.now) (mapped_of mapped.now) terms.old }
    ensures ready { IsReadyFor (model_of model.now) (mapped_of mapped.now) terms.new }
    ensures cycles { OnOk result (terms.new.cycles ≡ cycles) }
{
    if terms.cycles != cycles {
        *terms = ObligationTerms::new(alloc, model, mapped, cycles)?;
    }
    Ok(())
}

/// What is found of an obligation.
fn find_obligation(
    alloc: Global,
    model: &IlaModel,
    mapped: &MappedDesign,
    terms: &mut ObligationTerms,
    obligation: &Obligation<'_>,
    budget: u64,
) -> Result<Finding, NoMemory>
    requires sorted { IsSortedFor (model_of model.now) (mapped_of mapped.now) }
    requires ready { IsReadyFor (model_of model.now) (mapped_of mapped.now) terms.old }
    requires stated { IsStated (model_of model.now) (mapped_of mapped.now) obligation.now }
    requires budget { 0 < budget }
    ensures ready { IsReadyFor (model_of model.now) (mapped_of mapped.now) terms.new }
    ensures found { IfOk result (IsFoundBy (model_of model.now) (mapped_of mapped.now) budget obligation.now) }
{
    prepare(alloc, model, mapped, terms, obligation.cycles)?;
    let asked = terms.obligation(alloc, model, mapped, obligation)?;
    let id = with_fixed(alloc, &mut terms.terms, asked)?;
    let _names = terms.terms.name_count();
    let found = find(
        alloc,
        &mapped.design,
        obligation.cycles,
        &terms.terms,
        id,
        budget,
    )?;
    Ok(found)
}

/// What is found of each obligation of a list.
fn find_obligations(
    alloc: Global,
    model: &IlaModel,
    mapped: &MappedDesign,
    terms: &mut ObligationTerms,
    obligations: &[Obligation<'_>],
    budget: u64,
) -> Result<Vec<Finding>, NoMemory>
    requires sorted { IsSortedFor (model_of model.now) (mapped_of mapped.now) }
    requires ready { IsReadyFor (model_of model.now) (mapped_of mapped.now) terms.old }
    requires stated { AreStated (model_of model.now) (mapped_of mapped.now) obligations.now }
    requires budget { 0 < budget }
    ensures ready { IsReadyFor (model_of model.now) (mapped_of mapped.now) terms.new }
    ensures count { IfOk result (λ xs. length xs.items ≡ length obligations.now) }
    ensures found { IfOk result (λ xs. AreFoundBy (model_of model.now) (mapped_of mapped.now) budget obligations.now xs.items) }
{
    let mut found = Vec::new(alloc);
    for obligation in obligations {
        let next = find_obligation(alloc, model, mapped, terms, obligation, budget)?;
        found.push(next)?;
    }
    Ok(found)
}

/// What is found of the cover of an instruction.
fn find_cover(
    alloc: Global,
    model: &IlaModel,
    mapped: &MappedDesign,
    terms: &mut ObligationTerms,
    instruction: usize,
    budget: u64,
) -> Result<Finding, NoMemory>
    requires sorted { IsSortedFor (model_of model.now) (mapped_of mapped.now) }
    requires ready { IsReadyFor (model_of model.now) (mapped_of mapped.now) terms.old }
    requires own { instruction < length mapped.now.instructions.items }
    requires budget { 0 < budget }
    ensures ready { IsReadyFor (model_of model.now) (mapped_of mapped.now) terms.new }
    ensures cover { IfOk result (IsCoveredBy (model_of model.now) (mapped_of mapped.now) budget instruction) }
{
    let cycles = mapped.instructions[instruction].bound;
    prepare(alloc, model, mapped, terms, cycles)?;
    let asked = terms.cover(alloc, model, mapped, instruction)?;
    let id = with_fixed(alloc, &mut terms.terms, asked)?;
    let _names = terms.terms.name_count();
    let found = find(alloc, &mapped.design, cycles, &terms.terms, id, budget)?;
    Ok(found)
}

/// What is found of the cover of each instruction.
fn find_covers(
    alloc: Global,
    model: &IlaModel,
    mapped: &MappedDesign,
    terms: &mut ObligationTerms,
    budget: u64,
) -> Result<Vec<Finding>, NoMemory>
    requires sorted { IsSortedFor (model_of model.now) (mapped_of mapped.now) }
    requires ready { IsReadyFor (model_of model.now) (mapped_of mapped.now) terms.old }
    requires budget { 0 < budget }
    ensures count { IfOk result (λ xs. length xs.items ≡ length mapped.now.instructions.items) }
    ensures found { IfOk result (λ xs. AreCoveredBy (model_of model.now) (mapped_of mapped.now) budget xs.items) }
{
    let mut found = Vec::new(alloc);
    for instruction in 0..mapped.instructions.len() {
        let next = find_cover(alloc, model, mapped, terms, instruction, budget)?;
        found.push(next)?;
    }
    Ok(found)
}

/// What is found of each obligation of a list and of each instruction's cover, with so many lemmas for each, more than none. For every
/// setting of the model and the design with its map whose obligations these are, they are found so.
pub fn decide(
    alloc: Global,
    model: &IlaModel,
    mapped: &MappedDesign,
    obligations: &[Obligation<'_>],
    budget: u64,
) -> Result<Found, NoMemory>
    requires sorted { IsSortedFor (model_of model.now) (mapped_of mapped.now) }
    requires stated { AreStated (model_of model.now) (mapped_of mapped.now) obligations.now }
    requires budget { 0 < budget }
    ensures found { IfOk result (λ x. (s : Setting) → IsSettingBy (model_of model.now) (mapped_of mapped.now) s
        → map (obligation_of s.map) obligations.now ≡ all_obligations s.model s.map
        → AreFound s (mapped_of mapped.now).parts budget (all_obligations s.model s.map) x.obligations.items) }
    ensures covers { IfOk result (λ x. (s : Setting) → IsSettingBy (model_of model.now) (mapped_of mapped.now) s
        → AreCovers s budget 0 (instructions_in s.model.top)
        (map (cover_by (mapped_of mapped.now).parts) x.covers.items)) }
    ensures obligation_count { IfOk result (λ x. length x.obligations.items ≡ length obligations.now) }
    ensures cover_count { IfOk result (λ x. length x.covers.items ≡ length (instructions_in (model_of model.now).top)) }
{
    let mut terms = ObligationTerms::new(alloc, model, mapped, 1)?;
    let found = find_obligations(alloc, model, mapped, &mut terms, obligations, budget)?;
    let covers = find_covers(alloc, model, mapped, &mut terms, budget)?;
    Ok(Found {
        obligations: found,
        covers,
    })
}

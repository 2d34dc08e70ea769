//! Terms of obligations and covers over a run of so many cycles.

ghost use Rattle.std.specs.Prelude.{◌≡◌, IfOk};
ghost use Rattle.refinement.specs.Map.{Map};
ghost use Rattle.ila_model.specs.Model.{model_of};
ghost use Rattle.mapped_designs.specs.Mapped.{IsSortedFor};
ghost use Rattle.mapped_designs.specs.Broken.{BreaksObligation, HasCountsOf, IsCommandBy};
ghost use Rattle.mapped_designs.specs.View.{mapped_of};
ghost use Rattle.obligation_lists.specs.Claims.{obligation_of};
ghost use Rattle.obligation_terms.specs.Asked.{IsCondition, IsFalseWhere, IsReadyFor, IsStated, HasEnd};

use crate::NoMemory;
use crate::covers::put_cover;
use crate::first::{first_inputs, first_states};
use crate::obligations::put_obligation;
use crate::rest::put_rest;
use condition_terms::check_sorts;
use fact_terms::Shared;
use ila_model::IlaModel;
use mapped_designs::MappedDesign;
use model_terms::{ModelTerms, put_model};
use obligation_lists::Obligation;
use run_terms::run_terms;
use std::alloc::Global;
use wb_terms::{TermId, Terms};

/// The store of a run of so many cycles, in which terms of obligations and covers are put.
#[derive(Drop)]
pub struct ObligationTerms {
    pub terms: Terms,
    pub cycles: u64,
    /// For each cycle the terms of the design at it, by their places in the design's store.
    pub read: Vec<Vec<TermId>>,
    /// For each cycle and the one after the last the terms of the design with inputs that are 0, by their places.
    pub shown: Vec<Vec<TermId>>,
    /// The model's step at the first cycle.
    pub modelled: ModelTerms,
    /// Whether what does not count of the first registers is 0.
    pub rest: TermId,
}

impl ObligationTerms {
    /// Unrolls the design over so many cycles, and puts the model's step at the first of them.
    pub fn new(
        alloc: Global,
        model: &IlaModel,
        mapped: &MappedDesign,
        cycles: u64,
    ) -> Result<ObligationTerms, NoMemory>
        requires sorted { IsSortedFor (model_of model.now) (mapped_of mapped.now) }
        ensures ready { IfOk result (IsReadyFor (model_of model.now) (mapped_of mapped.now)) }
        ensures cycles { IfOk result (λ t. t.cycles ≡ cycles) }
    {
        let mut run = run_terms(alloc, &mapped.design, cycles)?;
        let states = first_states(alloc, &run, mapped)?;
        let inputs = first_inputs(alloc, &run, mapped)?;
        let modelled = put_model(alloc, &mut run.terms, model, &states, &inputs)?;
        check_sorts(&run.terms);
        let rest = put_rest(&mut run.terms, &mapped.design, &run.registers)?;
        Ok(ObligationTerms {
            terms: run.terms,
            cycles,
            read: run.read,
            shown: run.shown,
            modelled,
            rest,
        })
    }

    /// A term that is false exactly where the obligation is broken.
    pub fn obligation(
        &mut self,
        alloc: Global,
        model: &IlaModel,
        mapped: &MappedDesign,
        obligation: &Obligation<'_>,
    ) -> Result<TermId, NoMemory>
        requires ready { IsReadyFor (model_of model.now) (mapped_of mapped.now) self.old }
        requires stated { IsStated (model_of model.now) (mapped_of mapped.now) obligation.now }
        requires cycles { obligation.now.cycles ≡ self.old.cycles }
        ensures ready { IsReadyFor (model_of model.now) (mapped_of mapped.now) self.new }
        ensures cycles { self.new.cycles ≡ self.old.cycles }
        ensures term { IfOk result (λ id. IsCondition self.new.terms id.0) }
        ensures means { IfOk result (λ id. (p : Map) → HasCountsOf p (mapped_of mapped.now) → p.reset_cycles ≡ (mapped_of mapped.now).reset_cycles
            → IsFalseWhere self.new.terms id.0 (mapped_of mapped.now).parts self.new.cycles
            (λ x. BreaksObligation (model_of model.now) (mapped_of mapped.now) x (obligation_of p obligation.now))) }
    {
        let shared = Shared {
            model,
            mapped,
            read: &self.read,
            shown: &self.shown,
            modelled: &self.modelled,
        };
        let id = put_obligation(alloc, &mut self.terms, &shared, self.rest, obligation)?;
        Ok(id)
    }

    /// A term that is false exactly under a whole command of the instruction.
    pub fn cover(
        &mut self,
        alloc: Global,
        model: &IlaModel,
        mapped: &MappedDesign,
        instruction: usize,
    ) -> Result<TermId, NoMemory>
        requires ready { IsReadyFor (model_of model.now) (mapped_of mapped.now) self.old }
        requires own { HasEnd (mapped_of mapped.now) instruction self.old.cycles }
        ensures ready { IsReadyFor (model_of model.now) (mapped_of mapped.now) self.new }
        ensures cycles { self.new.cycles ≡ self.old.cycles }
        ensures term { IfOk result (λ id. IsCondition self.new.terms id.0) }
        ensures means { IfOk result (λ id. (p : Map) → HasCountsOf p (mapped_of mapped.now)
            → IsFalseWhere self.new.terms id.0 (mapped_of mapped.now).parts self.new.cycles
            (λ x. IsCommandBy (model_of model.now) (mapped_of mapped.now) p x instruction)) }
    {
        let shared = Shared {
            model,
            mapped,
            read: &self.read,
            shown: &self.shown,
            modelled: &self.modelled,
        };
        let id = put_cover(alloc, &mut self.terms, &shared, self.rest, instruction)?;
        Ok(id)
    }
}

//! What the terms of all obligations stand on.

use ila_model::IlaModel;
use mapped_designs::MappedDesign;
use model_terms::ModelTerms;
use wb_terms::TermId;

/// The terms of a run and of the model's step at its first cycle, which all obligations share.
#[derive(Clone, Copy)]
pub struct Shared<'a> {
    pub model: &'a IlaModel,
    pub mapped: &'a MappedDesign,
    /// For each cycle the terms of the design at it, by their places in the design's store.
    pub read: &'a [Vec<TermId>],
    /// For each cycle and the one after the last the terms of the design with inputs that are 0, by their places.
    pub shown: &'a [Vec<TermId>],
    pub modelled: &'a ModelTerms,
}

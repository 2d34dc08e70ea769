//! The terms of one place of a design, and the places that stand in it.

use std::collections::BTreeMap;
use wb_terms::TermId;

/// A place of a design, where one of its modules stands: the terms that the nets and variables of the module settle to, by their own names,
/// and the numbers of the places that stand in it, by the names of their instances.
#[derive(Drop)]
pub struct PlaceTerms {
    pub terms: BTreeMap<String, TermId>,
    pub below: BTreeMap<String, usize>,
}

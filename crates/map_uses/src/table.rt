//! The bits of a design that come from inputs of its top.

use map_paths::Instances;
use std::collections::BTreeMap;
use v_renamed::Names;

/// The bits of a design in one scope that come from inputs of its top, and what its names are called there.
#[derive(Drop)]
pub(crate) struct InputTable<'a, 's> {
    /// For each module that stands in the design, what its own names are called in the one scope.
    pub(crate) names: Vec<Names<'a>>,
    /// The instances in each module.
    pub(crate) instances: Instances<'s>,
    /// For each name the bits that come from inputs.
    pub(crate) marked: BTreeMap<&'a str, u128>,
}

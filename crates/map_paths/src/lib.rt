//! Dotted names in a design: from the path of a name, as maps have it, to the number of its module and its own name there.
#![tactic(auto)]

mod instances;
pub mod laws;

pub use instances::Instances;

//! The rules that refuse a model file, judged on the file as it is written.
#![tactic(auto)]

mod declared_names;
mod findings;
mod judge;
mod limits;
mod rule;
mod scope;
mod sorts;
mod terms;
mod walk;

pub use judge::broken_rule;
pub use rule::{ModelRefusal, ModelRule};

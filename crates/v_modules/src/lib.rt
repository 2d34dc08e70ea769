//! Which rules on expressions, targets, statements, declarations and connections a module breaks, where its parameters have such values.
#![tactic(auto)]

mod first;
mod module;
mod name;
mod object;
mod parameter;
mod scope;

pub use first::first_rule;
pub use module::module_rule;

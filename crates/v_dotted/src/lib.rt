//! Expressions with dotted names, as maps have them: a path below the top is one name.
#![tactic(auto)]

pub mod dotted;

pub use dotted::{OwnedToken, dotted_tokens, whole_expression};

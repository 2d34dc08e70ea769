//! Copies of syntax trees whose names are replaced by those of a table.
#![tactic(auto)]

mod expression;
mod module;
mod names;
mod output;
mod statement;
mod target;

pub use module::{
    renamed_as_target, renamed_assignment, renamed_expression, renamed_statement, renamed_target,
};
pub use names::{Names, name_for};

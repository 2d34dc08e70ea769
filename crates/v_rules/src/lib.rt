//! Which of the rules on expressions, targets, statements and declarations the ports and items of a module break.
#![tactic(auto)]

mod expression;
mod item;
mod statement;
mod target;
mod text;

pub use text::{items_rules, ports_rules};

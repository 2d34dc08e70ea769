//! Where in the Verilog text a refused design breaks its rule.
#![tactic(auto)]

mod bits;
mod blocks;
mod broken;
mod connections;
mod drivers;
mod expressions;
mod flow;
mod full;
mod graph;
mod kind;
mod layout;
mod listing;
mod loops;
mod piece;
mod rules;
mod scopes;
mod statements;
mod tokens;

pub use broken::broken_at;
pub use kind::RuleKind;

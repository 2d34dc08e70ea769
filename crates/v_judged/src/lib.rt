//! By which kind a design is refused, if by any: one answer for all rules on designs, over the top and all modules below it.
#![tactic(auto)]

mod blocks;
mod design;
mod drivers;
mod flat;
mod kind;
mod place;
mod rules;
mod scopes;

pub use design::{design_refusal, judged};
pub use kind::{DesignKind, Judged};

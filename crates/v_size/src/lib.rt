//! First pass over designs: the width and the sign of each expression, and what is refused in it.
#![tactic(auto)]

mod breaking;
mod constant;
mod judged;
mod rule;
mod select;
mod sizing;
mod total;

pub use breaking::{broken_in, constant_in, judged_in, place_in};
pub use constant::constant_number;
pub use judged::{ConstantNumber, Names};
pub use rule::{Broken, Kind, Position, also, constant_if, is_unbroken, nothing, width_if};
pub use sizing::{SizeRefusal, size};
pub use total::{added, by_total};

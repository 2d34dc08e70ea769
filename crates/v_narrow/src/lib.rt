//! Tests of what the programs of v_syntax ask: whether expressions, objects and values fit words of at most 128 bits.
#![tactic(auto)]

mod expression;
mod object;
mod width;

pub use expression::is_narrow;
pub use object::{are_objects_narrow, values_fit};

//! The constants of a module: its parameters that have values, overridden or not, and what overrides those of an instance (IEEE
//! 1364-2005, 12.2).
#![tactic(auto)]

mod constants;
mod given;
mod overrides;
mod table;
mod value;

pub use constants::constants_of;
pub use given::Override;
pub use overrides::overrides_of;

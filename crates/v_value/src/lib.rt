//! Plain programs that say what expressions of Verilog sources are worth.
#![tactic(auto)]

mod arithmetic;
pub mod expression;
pub mod hash;
mod lookup;
pub mod scope;
pub mod select;
pub mod sign;
mod table;
pub mod taken;
pub mod value;
pub mod width;
mod word;
pub mod worked;

//! What is refused in whole designs: rules over the top and the modules below it, one for each kind of refusal (IEEE 1364-2005). The
//! functions have no code: each carries worked cases.
#![tactic(auto)]

pub mod worked;

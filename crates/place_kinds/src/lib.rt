//! Laws by which the rules on a design are judged place by place, and those on drivers and loops in one scope. The functions have no code:
//! each carries laws.
#![tactic(auto)]

pub mod laws;

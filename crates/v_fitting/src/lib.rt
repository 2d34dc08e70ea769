//! What is asked of a module before drivers, bits without drivers and loops are looked for, as laws: modules that break no rule have it.
#![tactic(auto)]

pub mod laws;

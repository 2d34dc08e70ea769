//! The registers of a design and the outputs of its top, in their order. It has no code.
#![tactic(auto)]

//! Scripts, and simulations of models under them. It has no code.
#![tactic(auto)]

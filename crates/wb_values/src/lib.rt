//! Names, sorts, values and the number formulas of words: what all other definitions speak of. It has no code.
#![tactic(auto)]

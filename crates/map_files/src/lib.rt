//! What a map file says: as it is written, and the first three of the rules that refuse it. It has no code.
#![tactic(auto)]

//! What a script says of a design, and the text that tells what the design does under it. It has no code.
#![tactic(auto)]

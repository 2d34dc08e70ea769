//! What a trace file says, by which rule one is refused, and what a replay of it tells. It has no code.
#![tactic(auto)]

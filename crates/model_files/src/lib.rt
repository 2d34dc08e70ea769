//! What a model file says: as it is written, the rules that refuse it, the model that it stands for. It has no code.
#![tactic(auto)]

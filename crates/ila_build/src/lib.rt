//! The code's model of a model file as it is written: its terms in a store, shared and never copied.
#![tactic(auto)]

mod child;
mod counting;
mod declaring;
mod defining;
mod empty;
mod inside;
mod instructions;
mod machine;
mod nodes;
mod putting;
mod seen;
mod table;
mod updating;

pub use child::put_child;
pub use counting::links_of;
pub use declaring::{declare_inputs, declare_states, initial_values};
pub use defining::put_definitions;
pub use empty::empty_table;
pub use inside::put_children;
pub use instructions::put_instructions;
pub use machine::put_machine;
pub use putting::put_term;
pub use seen::states_of;

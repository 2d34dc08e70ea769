//! The names that a script may set.

ghost use Rattle.std.specs.Prelude.{IsTrue, map};
ghost use Rattle.ila_sim.specs.Names.{settable_of, are_apart};

use crate::names::Settable;

/// The names that a script may set: by a state line, and by an input line. Of each kind no name stands twice.
#[derive(Drop)]
pub struct Names {
    pub states: Vec<Settable>,
    pub inputs: Vec<Settable>,
    pub ghost states_apart: { IsTrue (are_apart (map settable_of states.items)) },
    pub ghost inputs_apart: { IsTrue (are_apart (map settable_of inputs.items)) },
}

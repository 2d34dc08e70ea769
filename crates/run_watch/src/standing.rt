//! Where a watch stands before a cycle, and what it finds at one.

use crate::answers::Disagreement;
use ila_child::State;

/// Where a watch stands before a cycle, with the number of commands that have ended.
#[derive(Drop)]
pub(crate) enum WatchPosition {
    /// In the reset, up to the cycle after it.
    Reset,
    /// At an idle cycle, with the model's state.
    Idle(u64, State),
    /// Inside a command: the cycle at which it began, the number of its instruction, and the state to which it leads the model.
    Running(u64, u64, usize, State),
}

/// What is found at a cycle at which no premise fails.
#[derive(Drop)]
pub(crate) enum Turn {
    /// The run disagrees.
    Differs(Disagreement),
    /// The watch goes on.
    Goes(WatchPosition),
}

/// A mapped state that is not the model's, and the first place at which the two differ.
#[derive(Drop)]
pub(crate) struct Other {
    pub(crate) place: usize,
    pub(crate) mapped: State,
}

/// A command that begins: the number of its instruction, and the state to which it leads the model.
#[derive(Drop)]
pub(crate) struct Begun {
    pub(crate) instruction: usize,
    pub(crate) next: State,
}

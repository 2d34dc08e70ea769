//! The names that are visible in a machine: one frame for the inputs, and one for each machine around.

ghost use Rattle.std.specs.Prelude.{◌≡◌, IfOk, Some, None, option_map};
ghost use Rattle.wb_values.specs.Choice.{some_if};
ghost use Rattle.model_meaning.specs.Term.{is_sort};
ghost use Rattle.ila_file.specs.View.{sort_view};
ghost use Rattle.ila_rules.specs.Seen.{with_name, brief_declared};
ghost use Rattle.ila_rules.specs.Flaws.{with_state};
ghost use Rattle.ila_rules.specs.View.{brief_view, look_frames, look_of, states_frames, states_of, look_frame, states_frame, no_names};

use crate::sorts::valid_sort;
use ila_file::{NoMemory, WrittenSort};
use std::alloc::Global;
use std::collections::BTreeMap;

/// What is known of a name: its sort where it has one, and the memory that it is with words stored to it, if it is one.
#[derive(Clone, Copy)]
pub(crate) struct Seen<'v> {
    pub(crate) sort: Option<WrittenSort>,
    pub(crate) memory: Option<&'v str>,
}

/// The names that a machine declares, or those of the inputs.
#[derive(Drop)]
pub(crate) struct Frame<'v> {
    names: BTreeMap<&'v str, Seen<'v>>,
    /// The sorts of the states, as they are written.
    states: BTreeMap<&'v str, WrittenSort>,
}

impl<'v> Frame<'v> {
    pub(crate) fn new(alloc: Global) -> Frame<'v>
        ensures look { look_frame result ≡ no_names }
        ensures states { states_frame result ≡ (λ n. None) }
    {
        Frame {
            names: BTreeMap::new(alloc),
            states: BTreeMap::new(alloc),
        }
    }

    /// Makes a name visible.
    pub(crate) fn declare(&mut self, name: &'v str, seen: Seen<'v>) -> Result<(), NoMemory>
        ensures look { IfOk result (λ _. look_frame self.new ≡ with_name name.now (brief_view seen.entry) (look_frame self.old)) }
        ensures states { IfOk result (λ _. states_frame self.new ≡ states_frame self.old) }
    {
        self.names.insert(name, seen)?;
        Ok(())
    }

    /// Adds a state that updates may set, unless there is one of its name.
    pub(crate) fn add_state(&mut self, name: &'v str, sort: WrittenSort) -> Result<(), NoMemory>
        ensures states { IfOk result (λ _. states_frame self.new ≡ with_state name.now (sort_view sort) (states_frame self.old)) }
        ensures look { IfOk result (λ _. look_frame self.new ≡ look_frame self.old) }
    {
        if !self.states.contains_key(&name) {
            self.states.insert(name, sort)?;
        }
        Ok(())
    }

    fn find(&self, name: &'v str) -> Option<Seen<'v>>
        ensures { option_map brief_view result ≡ look_frame self.now name.now }
    {
        self.names.get(&name).copied()
    }

    fn state(&self, name: &'v str) -> Option<WrittenSort>
        ensures { option_map sort_view result ≡ states_frame self.now name.now }
    {
        self.states.get(&name).copied()
    }
}

/// What a state or an input stands for.
pub(crate) fn declared<'v>(name: &'v str, sort: WrittenSort) -> Seen<'v>
    ensures { brief_view result ≡ brief_declared name.now (sort_view sort) }
{
    Seen {
        sort: valid_sort(sort),
        memory: Some(name),
    }
}

/// What is known of a name in the frames, the innermost last.
fn find_in_all<'v>(frames: &[Frame<'v>], name: &'v str) -> Option<Seen<'v>>
    ensures { option_map brief_view result ≡ look_frames frames.now name.now }
{
    let mut found = None;
    for frame in frames {
        found = frame.find(name).or(found);
    }
    found
}

/// What is known of a name in the frames and one more behind them.
pub(crate) fn find_in<'v>(frames: &[Frame<'v>], last: &Frame<'v>, name: &'v str) -> Option<Seen<'v>>
    ensures { option_map brief_view result ≡ look_of frames.now last.now name.now }
{
    match last.find(name) {
        Some(seen) => Some(seen),
        None => find_in_all(frames, name),
    }
}

/// The sort of a state of the name in the frames, the outermost first.
pub(crate) fn state_in<'v>(frames: &[Frame<'v>], name: &'v str) -> Option<WrittenSort>
    ensures { option_map sort_view result ≡ states_frames frames.now name.now }
{
    for frame in frames {
        if let Some(sort) = frame.state(name) {
            return Some(sort);
        }
    }
    None
}

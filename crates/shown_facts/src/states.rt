//! Facts on invariants and on states of the model.

ghost use Rattle.std.specs.Prelude.{◌≡◌, ◌<◌, ◌↔◌, length, IsTrue};
ghost use Rattle.refinement.specs.Obligation.{initial, invariant, same};
ghost use Rattle.obligation_lists.specs.Within.{IsStateIn};
ghost use Rattle.mapped_designs.specs.Runs.{Shows};
ghost use Rattle.shown_facts.specs.Values.{model_in, map_in, values_in};
ghost use Rattle.shown_facts.specs.Noted.{IsShown, IsNoted};

use crate::given::Given;
use crate::shown::{Shown, seen_at};
use obligation_lists::StateAt;

/// Whether an invariant of the map holds at a cycle that is noted.
pub(crate) fn keeps_invariant(given: &Given<'_>, shown: &Shown, place: usize, cycle: u64) -> bool
    requires shown { IsShown given.now shown.now }
    requires place { place < length (map_in given.now).invariants }
    ensures { IsNoted shown.now.later_cycle cycle → IsTrue result ↔ Shows (model_in given.now) (map_in given.now) (values_in given.now) (invariant place cycle) }
{
    let seen = seen_at(shown, cycle);
    seen.invariants[place]
}

/// Whether a state has its stated initial value at a cycle that is noted, if one is stated.
pub(crate) fn has_initial(given: &Given<'_>, shown: &Shown, state: StateAt<'_>, cycle: u64) -> bool
    requires shown { IsShown given.now shown.now }
    requires state { IsStateIn (model_in given.now) state }
    ensures { IsNoted shown.now.later_cycle cycle
        → IsTrue result ↔ Shows (model_in given.now) (map_in given.now) (values_in given.now) (initial state.entry.name.now cycle) }
{
    let seen = seen_at(shown, cycle);
    let there = seen.state.values();
    match given.model.initial_value(state.place) {
        Some(value) => there.is_value_at(state.place, value),
        None => true,
    }
}

/// Whether a state is equal at the first two cycles, where the later cycle that is noted is cycle 1.
pub(crate) fn is_same(given: &Given<'_>, shown: &Shown, state: StateAt<'_>) -> bool
    requires shown { IsShown given.now shown.now }
    requires state { IsStateIn (model_in given.now) state }
    ensures { shown.now.later_cycle ≡ 1 → IsTrue result ↔ Shows (model_in given.now) (map_in given.now) (values_in given.now) (same state.entry.name.now) }
{
    let before = shown.first.state.values();
    let after = shown.later.state.values();
    after.is_same_at(state.place, before, state.place)
}

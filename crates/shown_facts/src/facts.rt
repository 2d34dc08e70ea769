//! Facts of a run: whether its values show them.

ghost use Rattle.std.specs.Prelude.{◌↔◌, IfOk, IsTrue};
ghost use Rattle.obligation_lists.specs.Claims.{fact_of};
ghost use Rattle.mapped_designs.specs.Runs.{Shows};
ghost use Rattle.shown_facts.specs.Values.{IsGiven, model_in, map_in, values_in, cycles_in};
ghost use Rattle.shown_facts.specs.Noted.{IsShown, IsReadAt};
ghost use Rattle.shown_facts.specs.Asked.{IsAsked};

use crate::conditions::{
    commits, does_not_commit, is_assumed, is_no_start, is_reset_active, is_reset_inactive, is_start,
};
use crate::given::Given;
use crate::instructions::{decodes, does_end, has_result, one_decodes};
use crate::shown::Shown;
use crate::states::{has_initial, is_same, keeps_invariant};
use obligation_lists::Fact;
use std::alloc::Global;
use wb_terms::NoMemory;

/// Whether the values of a run show a fact. What it says of states and invariants it says of cycles that are noted.
pub fn is_shown(
    alloc: Global,
    given: &Given<'_>,
    shown: &Shown,
    fact: &Fact<'_>,
) -> Result<bool, NoMemory>
    requires given { IsGiven given.now }
    requires shown { IsShown given.now shown.now }
    requires asked { IsAsked (model_in given.now) (map_in given.now) (cycles_in given.now) fact.now }
    ensures { IfOk result (λ b. IsReadAt shown.now.later_cycle (fact_of fact.now)
        → IsTrue b ↔ Shows (model_in given.now) (map_in given.now) (values_in given.now) (fact_of fact.now)) }
{
    match fact {
        Fact::ResetActive(cycle) => Ok(is_reset_active(given, shown, *cycle)),
        Fact::ResetInactive(cycle) => Ok(is_reset_inactive(given, shown, *cycle)),
        Fact::Assumed(place, cycle) => Ok(is_assumed(given, shown, *place, *cycle)),
        Fact::Invariant(place, cycle) => Ok(keeps_invariant(given, shown, *place, *cycle)),
        Fact::Start(cycle) => Ok(is_start(given, shown, *cycle)),
        Fact::NoStart(cycle) => Ok(is_no_start(given, shown, *cycle)),
        Fact::Decoded(place) => decodes(alloc, given, shown, *place),
        Fact::Commit(place, cycle) => Ok(commits(given, shown, *place, *cycle)),
        Fact::NoCommit(place, cycle) => Ok(does_not_commit(given, shown, *place, *cycle)),
        Fact::Initial(state, cycle) => Ok(has_initial(given, shown, *state, *cycle)),
        Fact::Same(state) => Ok(is_same(given, shown, *state)),
        Fact::OneDecodes => one_decodes(alloc, given, shown),
        Fact::Ends(place) => does_end(alloc, given, shown, *place),
        Fact::ResultOf(place, state, cycle) => {
            has_result(alloc, given, shown, *place, *state, *cycle)
        }
        Fact::Never => Ok(false),
    }
}

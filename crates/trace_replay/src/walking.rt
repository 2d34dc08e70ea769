//! Hypotheses walked in their order.

ghost use Rattle.std.specs.Prelude.{◌≡◌, IfOk, map};
ghost use Rattle.obligation_lists.specs.Claims.{fact_of};
ghost use Rattle.shown_facts.specs.Values.{IsGiven, model_in, map_in, values_in, cycles_in};
ghost use Rattle.shown_facts.specs.Noted.{IsShown};
ghost use Rattle.trace_replay.specs.Asked.{AreAsked};
ghost use Rattle.trace_replay.specs.Found.{AreReadAt, IsFirstFailing, later_of};

use obligation_lists::Fact;
use shown_facts::{Given, Shown, is_shown};
use std::alloc::Global;
use wb_terms::NoMemory;

/// The cycle besides cycle 0 of whose states and invariants a claim speaks.
pub(crate) fn later_cycle(claim: &Fact<'_>) -> u64
    ensures { result ≡ later_of claim.now }
{
    match claim {
        Fact::Invariant(_, cycle) | Fact::Initial(_, cycle) | Fact::ResultOf(_, _, cycle) => *cycle,
        Fact::Same(_) => 1,
        Fact::ResetActive(_) | Fact::ResetInactive(_) | Fact::Start(_) | Fact::NoStart(_) => 0,
        Fact::Assumed(_, _) | Fact::Commit(_, _) | Fact::NoCommit(_, _) => 0,
        Fact::Decoded(_) | Fact::Ends(_) | Fact::OneDecodes | Fact::Never => 0,
    }
}

/// The first of some facts that the values of a run do not show, by its place from 0, if there is one.
pub(crate) fn first_failing(
    alloc: Global,
    given: &Given<'_>,
    shown: &Shown,
    facts: &[Fact<'_>],
) -> Result<Option<usize>, NoMemory>
    requires given { IsGiven given.now }
    requires shown { IsShown given.now shown.now }
    requires asked { AreAsked (model_in given.now) (map_in given.now) (cycles_in given.now) facts.now }
    ensures { IfOk result (λ o. AreReadAt shown.now.later_cycle (map fact_of facts.now)
        → IsFirstFailing (model_in given.now) (map_in given.now) (values_in given.now) (map fact_of facts.now) o) }
{
    for place in 0..facts.len() {
        let fact = &facts[place];
        let holds = is_shown(alloc, given, shown, fact)?;
        if !holds {
            return Ok(Some(place));
        }
    }
    Ok(None)
}

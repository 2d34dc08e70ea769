//! Facts on conditions of the map at a cycle, read off the rows.

ghost use Rattle.std.specs.Prelude.{◌<◌, ◌≤◌, ◌↔◌, length, IsTrue};
ghost use Rattle.refinement.specs.Obligation.{reset_active, reset_inactive, assumed, start, no_start, commit, no_commit};
ghost use Rattle.obligation_lists.specs.Within.{IsInstructionPlace};
ghost use Rattle.mapped_designs.specs.Runs.{Shows};
ghost use Rattle.shown_facts.specs.Values.{IsGiven, model_in, map_in, values_in, cycles_in};
ghost use Rattle.shown_facts.specs.Noted.{IsShown};

use crate::given::Given;
use crate::shown::Shown;

/// Whether reset is active at a cycle.
pub(crate) fn is_reset_active(given: &Given<'_>, shown: &Shown, cycle: u64) -> bool
    requires shown { IsShown given.now shown.now }
    requires cycle { cycle ≤ cycles_in given.now }
    ensures { IsTrue result ↔ Shows (model_in given.now) (map_in given.now) (values_in given.now) (reset_active cycle) }
{
    shown.rows[cycle as usize].reset
}

/// Whether a command starts at a cycle.
pub(crate) fn is_start(given: &Given<'_>, shown: &Shown, cycle: u64) -> bool
    requires shown { IsShown given.now shown.now }
    requires cycle { cycle ≤ cycles_in given.now }
    ensures { IsTrue result ↔ Shows (model_in given.now) (map_in given.now) (values_in given.now) (start cycle) }
{
    shown.rows[cycle as usize].start
}

/// Whether an assumption of the map holds at a cycle.
pub(crate) fn is_assumed(given: &Given<'_>, shown: &Shown, place: usize, cycle: u64) -> bool
    requires shown { IsShown given.now shown.now }
    requires place { place < length (map_in given.now).assume }
    requires cycle { cycle ≤ cycles_in given.now }
    ensures { IsTrue result ↔ Shows (model_in given.now) (map_in given.now) (values_in given.now) (assumed place cycle) }
{
    let row = &shown.rows[cycle as usize];
    row.assume[place]
}

/// Whether the commit of an instruction holds at a cycle.
pub(crate) fn commits(given: &Given<'_>, shown: &Shown, place: usize, cycle: u64) -> bool
    requires given { IsGiven given.now }
    requires shown { IsShown given.now shown.now }
    requires place { IsInstructionPlace (model_in given.now) place }
    requires cycle { cycle ≤ cycles_in given.now }
    ensures { IsTrue result ↔ Shows (model_in given.now) (map_in given.now) (values_in given.now) (commit place cycle) }
{
    let row = &shown.rows[cycle as usize];
    row.commits[place]
}

/// Whether reset is inactive at a cycle.
pub(crate) fn is_reset_inactive(given: &Given<'_>, shown: &Shown, cycle: u64) -> bool
    requires shown { IsShown given.now shown.now }
    requires cycle { cycle ≤ cycles_in given.now }
    ensures { IsTrue result ↔ Shows (model_in given.now) (map_in given.now) (values_in given.now) (reset_inactive cycle) }
{
    !is_reset_active(given, shown, cycle)
}

/// Whether no command starts at a cycle.
pub(crate) fn is_no_start(given: &Given<'_>, shown: &Shown, cycle: u64) -> bool
    requires shown { IsShown given.now shown.now }
    requires cycle { cycle ≤ cycles_in given.now }
    ensures { IsTrue result ↔ Shows (model_in given.now) (map_in given.now) (values_in given.now) (no_start cycle) }
{
    !is_start(given, shown, cycle)
}

/// Whether the commit of an instruction does not hold at a cycle.
pub(crate) fn does_not_commit(given: &Given<'_>, shown: &Shown, place: usize, cycle: u64) -> bool
    requires given { IsGiven given.now }
    requires shown { IsShown given.now shown.now }
    requires place { IsInstructionPlace (model_in given.now) place }
    requires cycle { cycle ≤ cycles_in given.now }
    ensures { IsTrue result ↔ Shows (model_in given.now) (map_in given.now) (values_in given.now) (no_commit place cycle) }
{
    !commits(given, shown, place, cycle)
}

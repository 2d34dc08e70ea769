//! The premise that fails at a cycle, if one does.

ghost use Rattle.std.specs.Prelude.{◌≡◌, ◌&&◌, List, IsTrue, All, option_map};
ghost use Rattle.wb_values.specs.Value.{truth, Value};
ghost use Rattle.v_design.specs.Seen.{parts_of};
ghost use Rattle.v_design.specs.Parts.{is_term_of};
ghost use Rattle.v_cycle.specs.Running.{IsRun, HasRun};
ghost use Rattle.mapped_designs.specs.Mapped.{conditions_of};
ghost use Rattle.mapped_designs.specs.View.{mapped_of};
ghost use Rattle.run_watch.specs.View.{premise_of};
ghost use Rattle.run_watch.specs.Failing.{holding, first_broken, failing_at};

use crate::answers::Premise;
use mapped_cycles::holds_in;
use mapped_designs::MappedDesign;
use v_cycle::Cycle;

/// The first assumption that does not hold in the last cycle.
fn first_broken(cycle: &Cycle, mapped: &MappedDesign) -> Option<usize>
    requires run { IsRun (parts_of mapped.now.design) cycle.now }
    requires conditions { All (λ id. IsTrue (is_term_of (parts_of mapped.now.design).graph truth id)) (conditions_of (mapped_of mapped.now)) }
    ensures { (rs is : List Value) → HasRun (parts_of mapped.now.design) cycle.now rs is
        → result ≡ first_broken (holding (parts_of mapped.now.design) rs is) 0 (mapped_of mapped.now).assume }
{
    for k in 0..mapped.assume.len() {
        if !holds_in(cycle, mapped, mapped.assume[k]) {
            return Some(k);
        }
    }
    None
}

/// Whether there is a start in the last cycle, where it is inside a command.
fn starts_inside(cycle: &Cycle, mapped: &MappedDesign, is_running: bool) -> bool
    requires run { IsRun (parts_of mapped.now.design) cycle.now }
    requires conditions { All (λ id. IsTrue (is_term_of (parts_of mapped.now.design).graph truth id)) (conditions_of (mapped_of mapped.now)) }
    ensures { (rs is : List Value) → HasRun (parts_of mapped.now.design) cycle.now rs is
        → result ≡ (is_running && holding (parts_of mapped.now.design) rs is (mapped_of mapped.now).start) }
{
    is_running && holds_in(cycle, mapped, mapped.start)
}

/// The premise that fails in the last cycle, which is this one of the run and inside a command or not. Of several it is the first.
pub(crate) fn failing_premise(
    cycle: &Cycle,
    mapped: &MappedDesign,
    t: u64,
    is_running: bool,
) -> Option<Premise>
    requires run { IsRun (parts_of mapped.now.design) cycle.now }
    requires conditions { All (λ id. IsTrue (is_term_of (parts_of mapped.now.design).graph truth id)) (conditions_of (mapped_of mapped.now)) }
    ensures { (rs is : List Value) → HasRun (parts_of mapped.now.design) cycle.now rs is
        → option_map premise_of result ≡ failing_at (mapped_of mapped.now) (holding (parts_of mapped.now.design) rs is) t is_running }
{
    let is_active = holds_in(cycle, mapped, mapped.reset);
    if t < mapped.reset_cycles {
        return if is_active {
            None
        } else {
            Some(Premise::Reset)
        };
    }
    if is_active {
        return Some(Premise::Reset);
    }
    match first_broken(cycle, mapped) {
        Some(k) => Some(Premise::Assume(k)),
        None if starts_inside(cycle, mapped, is_running) => Some(Premise::Flight),
        None => None,
    }
}

//! Whether each input line sets every input.

ghost use Rattle.std.specs.Prelude.{◌≡◌, ◌<◌, false, IfOk, IfSome, IsTrue, length, map, option_map, replicate};
ghost use Rattle.std.specs.List.{list_all};
ghost use Rattle.scripts.specs.Script.{sets_name};
ghost use Rattle.ila_sim.specs.Lines.{sets_view};
ghost use Rattle.ila_sim.specs.Faults.{first_left_out};
ghost use Rattle.ila_sim.specs.Marks.{marks_of, first_unmarked};
ghost use Rattle.ila_sim.specs.Places.{called_at};
ghost use Rattle.ila_sim.specs.Names.{settable_of, are_apart};
ghost use Rattle.ila_sim.specs.Sets.{are_within, are_right};

use crate::names::Settable;
use crate::set::Set;
use std::alloc::{AllocError, Global};

/// A mark for each place that is set.
fn marks(alloc: Global, count: usize, sets: &[Set]) -> Result<Vec<bool>, AllocError>
    requires { IsTrue (are_within count sets.now) }
    ensures marked { IfOk result (λ v. v.items ≡ marks_of (replicate count false) sets.now) }
    ensures count { IfOk result (λ v. length v.items ≡ count) }
{
    let mut marks = vec![in alloc; false; count]?;
    for set in sets {
        marks[set.place] = true;
    }
    Ok(marks)
}

fn are_all_true(marks: &[bool]) -> bool
    ensures { result ≡ list_all (λ b. b) marks.now }
{
    marks.iter().all(|mark| *mark)
}

/// Whether a line sets every input.
fn sets_all(alloc: Global, inputs: &[Settable], sets: &[Set]) -> Result<bool, AllocError>
    requires apart { IsTrue (are_apart (map settable_of inputs.now)) }
    requires places { IsTrue (are_within (length (map settable_of inputs.now)) sets.now) }
    ensures { IfOk result (λ b. b ≡ list_all (sets_name (sets_view (map settable_of inputs.now) sets.now)) (map settable_of inputs.now)) }
{
    let marks = marks(alloc, inputs.len(), sets)?;
    Ok(are_all_true(&marks))
}

/// The place of the first mark that is not set.
fn first_unmarked(marks: &[bool]) -> Option<usize>
    ensures place { result ≡ first_unmarked 0 marks.now }
    ensures within { IfSome result (λ k. k < length marks.now) }
{
    for (place, mark) in marks.iter().enumerate() {
        if !*mark {
            return Some(place);
        }
    }
    None
}

/// The place of the first input that a line does not set.
pub(crate) fn first_left_out(
    alloc: Global,
    inputs: &[Settable],
    sets: &[Set],
) -> Result<Option<usize>, AllocError>
    requires apart { IsTrue (are_apart (map settable_of inputs.now)) }
    requires right { IsTrue (are_right (map settable_of inputs.now) sets.now) }
    ensures called { IfOk result (λ o. option_map (called_at (map settable_of inputs.now)) o ≡ first_left_out (sets_view (map settable_of inputs.now) sets.now) (map settable_of inputs.now)) }
    ensures within { IfOk result (λ o. IfSome o (λ k. k < length inputs.now)) }
{
    let marks = marks(alloc, inputs.len(), sets)?;
    let place = first_unmarked(&marks);
    Ok(place)
}

/// Whether each line sets every input.
pub(crate) fn all_set(
    alloc: Global,
    inputs: &[Settable],
    lines: &[Vec<Set>],
) -> Result<bool, AllocError>
    requires apart { IsTrue (are_apart (map settable_of inputs.now)) }
    requires places { IsTrue (list_all (λ s. are_within (length (map settable_of inputs.now)) s.items) lines.now) }
    ensures { IfOk result (λ b. b ≡ list_all (λ ss. list_all (sets_name ss) (map settable_of inputs.now)) (map (λ s. sets_view (map settable_of inputs.now) s.items) lines.now)) }
{
    for line in lines {
        if !sets_all(alloc, inputs, line)? {
            return Ok(false);
        }
    }
    Ok(true)
}

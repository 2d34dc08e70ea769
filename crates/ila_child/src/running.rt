//! Steps of a machine, and child programs run to their end.

ghost use Rattle.std.specs.Prelude.{◌≡◌, true, IfOk, OnOk};
ghost use Rattle.wb_terms.specs.Environment.{AreOfSorts};
ghost use Rattle.term_evaluation.specs.Points.{IsPointOf};
ghost use Rattle.ila_model.specs.Sorted.{is_machine};
ghost use Rattle.ila_child.specs.Running.{HasDepth, IsDeep, IsLinked, IsTaken, IsRun};

use crate::decoding::{Decoded, find_decoded};
use crate::evaluation::holds_at;
use crate::updating::{begin, update};
use ila_model::{ChildId, IlaModel, Instruction};
use std::alloc::Global;
use term_evaluation::Point;
use wb_terms::{NoMemory, TermId};

/// How a child program fails to end. The outermost child has depth 1; steps count from 0 at each entry of their child.
#[derive(Clone, Copy, Debug)]
pub(crate) enum Trouble {
    /// At this step of the child at this depth not exactly one decode condition holds.
    Stuck(u32, u32),
    /// After its limit of steps the valid condition of the child at this depth still holds.
    TooLong(u32),
}

/// What a machine does at an environment.
pub(crate) enum Taken {
    /// Its valid condition does not hold.
    NotValid,
    /// Not exactly one instruction decodes.
    Stuck,
    /// One instruction decodes, its updates are made, and this child of it, if any, is to be run.
    One(Option<ChildId>),
}

/// Takes one step of the machine at a place, but for a child program.
fn take(
    alloc: Global,
    model: &IlaModel,
    at: Option<usize>,
    valid: TermId,
    instructions: &[Instruction],
    point: &mut Point,
) -> Result<Taken, NoMemory>
    requires deep { IsDeep model.now.parts.children.items at }
    requires machine { is_machine model.now.parts at valid.0 instructions.now ≡ true }
    requires point { IsPointOf model.now.parts.terms point.old }
    requires fits { AreOfSorts model.now.parts.terms.names point.old.values }
    ensures taken { IfOk result (IsTaken model.now.parts at valid.0 instructions.now point.old.values point.new.values) }
    ensures aside { OnOk result (point.new.aside ≡ point.old.aside) }
    ensures fits { OnOk result (AreOfSorts model.now.parts.terms.names point.new.values) }
    ensures point { OnOk result (IsPointOf model.now.parts.terms point.new) }
{
    let terms = &model.parts.terms;
    point.let_go(alloc)?;
    let is_valid = holds_at(terms, point, valid)?;
    if !is_valid {
        return Ok(Taken::NotValid);
    }
    let decoded = find_decoded(terms, point, instructions)?;
    match decoded {
        Decoded::One(place) => {
            let instruction = &instructions[place];
            update(terms, point, &instruction.updates)?;
            Ok(Taken::One(instruction.child))
        }
        Decoded::Nothing => Ok(Taken::Stuck),
        Decoded::Several(_, _) => Ok(Taken::Stuck),
    }
}

/// Runs the program of an instruction of the machine at a place, if it has one, to its end: the private states begin anew,
/// and steps are taken until the valid condition fails. The place has the given depth, 0 for the top.
pub(crate) fn run_program(
    alloc: Global,
    model: &IlaModel,
    at: Option<usize>,
    depth: u32,
    program: Option<ChildId>,
    point: &mut Point,
) -> Result<Option<Trouble>, NoMemory>
    requires depth { HasDepth model.now.parts.children.items depth at }
    requires linked { IsLinked model.now.parts.children.items at program }
    requires point { IsPointOf model.now.parts.terms point.old }
    requires fits { AreOfSorts model.now.parts.terms.names point.old.values }
    ensures run { IfOk result (IsRun model.now.parts at depth program point.old.values point.new.values) }
    ensures aside { OnOk result (point.new.aside ≡ point.old.aside) }
    ensures fits { OnOk result (AreOfSorts model.now.parts.terms.names point.new.values) }
    ensures point { OnOk result (IsPointOf model.now.parts.terms point.new) }
{
    let Some(id) = program else {
        return Ok(None);
    };
    let child = &model.parts.children[id.0];
    let inside = Some(id.0);
    let terms = &model.parts.terms;
    begin(alloc, terms, point, child.first.0, &child.initial_values)?;
    for step in 0..child.steps {
        match take(
            alloc,
            model,
            inside,
            child.valid,
            &child.instructions,
            point,
        )? {
            Taken::NotValid => return Ok(None),
            Taken::Stuck => return Ok(Some(Trouble::Stuck(depth + 1, step))),
            Taken::One(inner) => {
                match run_program(alloc, model, inside, depth + 1, inner, point)? {
                    None => {}
                    Some(trouble) => return Ok(Some(trouble)),
                }
            }
        }
    }
    let is_valid = holds_at(terms, point, child.valid)?;
    if is_valid {
        Ok(Some(Trouble::TooLong(depth + 1)))
    } else {
        Ok(None)
    }
}

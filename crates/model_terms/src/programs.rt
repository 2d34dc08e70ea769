//! Child programs as terms, unrolled to their limits.

ghost use Rattle.std.specs.Prelude.{◌≡◌, ◌≤◌, true, length, IfOk};
ghost use Rattle.ila_model.specs.Sorted.{are_instructions};
ghost use Rattle.ila_child.specs.Running.{HasDepth, IsLinked, program_in};
ghost use Rattle.model_results.specs.Results.{child_result};
ghost use Rattle.term_copies.specs.Copies.{IsExtended, AreLeaves};
ghost use Rattle.model_terms.specs.Symbolic.{sees, IsReached};
ghost use Rattle.model_terms.specs.Copied.{HasCopies, terms_of_instructions};
ghost use Rattle.model_terms.specs.Programs.{IsTaken};

use crate::NoMemory;
use crate::joining::{Reached, Taken, put_before, put_none, put_turn};
use crate::listing::{put_copies_of, put_ending, put_nothing, put_start, terms_of_machine};
use crate::points::{copy_of, updated};
use ila_model::{ChildId, IlaModel, Instruction};
use std::alloc::Global;
use wanted_terms::closed;
use wb_terms::{TermId, Terms};

/// The program, if any, of an instruction of the machine at a place, run from a point to its end: its private states begin anew, and as
/// many turns are put as its limit says. The place has the given depth, 0 for the top.
#[cycle(program)]
pub(crate) fn put_program(
    alloc: Global,
    terms: &mut Terms,
    model: &IlaModel,
    at: Option<usize>,
    depth: u32,
    program: Option<ChildId>,
    point: Vec<TermId>,
) -> Result<Reached, NoMemory>
    requires depth { HasDepth model.now.parts.children.items depth at }
    requires linked { IsLinked model.now.parts.children.items at program }
    requires leaves { AreLeaves terms.old model.now.parts.terms.names point.items }
    ensures extended { IsExtended terms.old terms.new }
    ensures reached { IfOk result (λ r. IsReached terms.new model.now.parts at r.ended.0 r.point.items
        (λ v. child_result (program_in model.now.parts depth program) (sees terms.old model.now.parts at point.items v))) }
{
    let source = &model.parts.terms;
    let Some(id) = program else {
        let nothing = put_nothing(terms, source, point)?;
        return Ok(nothing);
    };
    let child = &model.parts.children[id.0];
    let inside = Some(id.0);
    let listed = terms_of_machine(alloc, child.valid, &child.instructions)?;
    let wanted = closed(alloc, source, &listed)?;
    let mut run = put_start(terms, source, child.first.0, &child.initial_values, point)?;
    for turn in 0..child.steps {
        let copies = put_copies_of(alloc, terms, source, &run.point, &wanted, &listed)?;
        let taken = put_taken(
            alloc,
            terms,
            model,
            inside,
            depth + 1,
            &child.instructions,
            &copies,
            &run.point,
        )?;
        let valid = copy_of(&copies, child.valid);
        run = put_turn(alloc, terms, source, valid, &taken, &run)?;
    }
    let ended = put_ending(alloc, terms, source, &wanted, &listed, child.valid, run)?;
    Ok(ended)
}

/// What the instructions of the machine at a place do at a point, over whose terms theirs are copied.
#[cycle(program)]
fn put_taken(
    alloc: Global,
    terms: &mut Terms,
    model: &IlaModel,
    at: Option<usize>,
    depth: u32,
    instructions: &[Instruction],
    copies: &[TermId],
    point: &[TermId],
) -> Result<Taken, NoMemory>
    requires depth { HasDepth model.now.parts.children.items depth at }
    requires low { depth ≤ 3 }
    requires instructions { are_instructions model.now.parts at 0 instructions.now ≡ true }
    requires leaves { AreLeaves terms.old model.now.parts.terms.names point.now }
    requires room { length copies.now ≡ length model.now.parts.terms.nodes }
    requires copies { HasCopies terms.old model.now.parts.terms point.now copies.now (terms_of_instructions instructions.now) }
    ensures extended { IsExtended terms.old terms.new }
    ensures taken { IfOk result (λ t. IsTaken terms.new model.now.parts at depth instructions.now t.none.0 t.ended.0 t.point.items (λ v. sees terms.old model.now.parts at point.now v)) }
{
    let source = &model.parts.terms;
    let mut taken = put_none(alloc, terms, source, point)?;
    for done in 0..instructions.len() {
        let instruction = &instructions[instructions.len() - 1 - done];
        let after = updated(alloc, source, point, copies, &instruction.updates)?;
        let reached = put_program(alloc, terms, model, at, depth, instruction.child, after)?;
        let decode = copy_of(copies, instruction.decode);
        taken = put_before(alloc, terms, source, decode, &reached, &taken)?;
    }
    Ok(taken)
}

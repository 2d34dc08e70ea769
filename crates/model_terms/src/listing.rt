//! Beginnings of programs as terms: which terms of a machine are copied, and where its private states begin.

ghost use Rattle.std.specs.Prelude.{◌≡◌, ◌≤◌, ◌<◌, ◌+◌, ◌∷◌, ◌++◌, true, length, drop, Some, IfOk, OnOk};
ghost use Rattle.wb_values.specs.Value.{truth};
ghost use Rattle.model_meaning.specs.Term.{sort_of};
ghost use Rattle.wb_terms.specs.Graph.{tree};
ghost use Rattle.model_terms.specs.Programs.{IsEnding};
ghost use Rattle.ila_model.specs.Sorted.{are_states};
ghost use Rattle.ila_child.specs.Updating.{with_initial};
ghost use Rattle.term_copies.specs.Copies.{IsExtended, AreLeaves};
ghost use Rattle.wanted_terms.specs.Wanted.{IsClosed, AreListed};
ghost use Rattle.model_terms.specs.Symbolic.{worths, is_true, IsTest};
ghost use Rattle.model_terms.specs.Copied.{HasCopies, terms_of_instruction, terms_of_instructions};

use crate::NoMemory;
use crate::choices::put_truth;
use crate::joining::{Reached, put_end};
use crate::points::{begin, copy_of};
use ila_model::Instruction;
use std::alloc::Global;
use wanted_terms::put_wanted_copies;
use wb_terms::{TermId, Terms, Value};

/// The terms of a machine: its valid condition, and those of its instructions.
pub(crate) fn terms_of_machine(
    alloc: Global,
    valid: TermId,
    instructions: &[Instruction],
) -> Result<Vec<TermId>, NoMemory>
    ensures { IfOk result (λ ids. ids.items ≡ valid ∷ terms_of_instructions instructions.now) }
{
    let mut ids = Vec::new(alloc);
    ids.push(valid)?;
    for place in 0..instructions.len() {
        push_terms(&mut ids, &instructions[place])?;
    }
    Ok(ids)
}

/// Appends the terms of an instruction.
fn push_terms(ids: &mut Vec<TermId>, instruction: &Instruction) -> Result<(), NoMemory>
    ensures { OnOk result (ids.new.items ≡ ids.old.items ++ terms_of_instruction instruction.now) }
{
    ids.push(instruction.decode)?;
    let updates = instruction.updates.as_slice();
    for place in 0..updates.len() {
        ids.push(updates[place].term)?;
    }
    Ok(())
}

/// Copies of terms over the terms of a point, in their places. The terms are listed among the wanted ones.
pub(crate) fn put_copies_of(
    alloc: Global,
    terms: &mut Terms,
    source: &Terms,
    point: &[TermId],
    wanted: &[TermId],
    listed: &[TermId],
) -> Result<Vec<TermId>, NoMemory>
    requires leaves { AreLeaves terms.old source.now.names point.now }
    requires wanted { IsClosed source.now wanted.now }
    requires listed { AreListed wanted.now listed.now }
    ensures extended { IsExtended terms.old terms.new }
    ensures room { IfOk result (λ ids. length ids.items ≡ length source.now.nodes) }
    ensures copies { IfOk result (λ ids. HasCopies terms.new source.now point.now ids.items listed.now) }
{
    let _listed = listed;
    let copies = put_wanted_copies(alloc, terms, source, point, wanted)?;
    Ok(copies)
}

/// What a program begins with: its private states have begun, and nothing was taken.
pub(crate) fn put_start(
    terms: &mut Terms,
    source: &Terms,
    first: usize,
    initial_values: &[Option<Value>],
    point: Vec<TermId>,
) -> Result<Reached, NoMemory>
    requires states { are_states true (drop first source.now.names) initial_values.now ≡ true }
    requires within { first + length initial_values.now ≤ length source.now.names }
    requires leaves { AreLeaves terms.old source.now.names point.items }
    ensures extended { IsExtended terms.old terms.new }
    ensures test { IfOk result (λ r. IsTest terms.new r.ended.0) }
    ensures leaves { IfOk result (λ r. AreLeaves terms.new source.now.names r.point.items) }
    ensures ended { IfOk result (λ r. (v : _) → is_true terms.new r.ended.0 v ≡ true) }
    ensures values { IfOk result (λ r. (v : _) → worths terms.new r.point.items v ≡ with_initial source.now.names first initial_values.now (worths terms.old point.items v)) }
{
    let mut point = point;
    begin(terms, source, &mut point, first, initial_values)?;
    let ended = put_truth(terms, true)?;
    Ok(Reached { ended, point })
}

/// What no program does.
pub(crate) fn put_nothing(
    terms: &mut Terms,
    source: &Terms,
    point: Vec<TermId>,
) -> Result<Reached, NoMemory>
    requires { AreLeaves terms.old source.now.names point.items }
    ensures extended { IsExtended terms.old terms.new }
    ensures test { IfOk result (λ r. IsTest terms.new r.ended.0) }
    ensures ended { IfOk result (λ r. (v : _) → is_true terms.new r.ended.0 v ≡ true) }
    ensures point { IfOk result (λ r. r.point ≡ point) }
{
    let _source = source;
    let ended = put_truth(terms, true)?;
    Ok(Reached { ended, point })
}

/// The end of a child's run: it ended if its valid condition fails at its last point. The condition is the first of the listed terms.
pub(crate) fn put_ending(
    alloc: Global,
    terms: &mut Terms,
    source: &Terms,
    wanted: &[TermId],
    listed: &[TermId],
    valid: TermId,
    run: Reached,
) -> Result<Reached, NoMemory>
    requires wanted { IsClosed source.now wanted.now }
    requires listed { AreListed wanted.now listed.now }
    requires first { (more : _) × (listed.now ≡ valid ∷ more) }
    requires valid { valid.0 < length source.now.nodes }
    requires sort { sort_of (tree source.now valid.0) ≡ Some truth }
    requires test { IsTest terms.old run.ended.0 }
    requires leaves { AreLeaves terms.old source.now.names run.point.items }
    ensures extended { IsExtended terms.old terms.new }
    ensures ending { IfOk result (λ r. IsEnding terms.old terms.new source.now valid.0 run.ended.0 run.point.items r.ended.0 r.point.items) }
{
    let copies = put_copies_of(alloc, terms, source, &run.point, wanted, listed)?;
    let copy = copy_of(&copies, valid);
    let ended = put_end(terms, copy, run)?;
    Ok(ended)
}

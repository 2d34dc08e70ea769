//! Which terms an emitted design needs.

ghost use Rattle.std.specs.Prelude.{◌≡◌, ◌<◌, ◌++◌, ℕ, [], false, length, slice_index_or, IfOk, OnOk, IsTrue};
ghost use Rattle.model_meaning.specs.Term.{is_sort};
ghost use Rattle.wb_terms.specs.Graph.{AllBelow, names_of};
ghost use Rattle.ila_model.specs.Sorted.{sort_at};
ghost use Rattle.wanted_terms.specs.Wanted.{IsClosed};
ghost use Rattle.emitted_modules.specs.Nodes.{node_at};
ghost use Rattle.emitted_modules.specs.Kept.{IsOrdered, IsStored, IsKept};
ghost use Rattle.emitted_names.specs.Keeping.{updated_by, roots_among, roots_of, AreMarks};

use crate::NoMemory;
use crate::ids::update_at;
use crate::nodes::node_of;
use ila_model::{IlaModel, Instruction, Parts, Update};
use std::alloc::Global;
use wanted_terms::closed;
use wb_terms::{NameId, TermId, Terms};

/// Adds the terms of updates.
fn add_updates(ids: &mut Vec<TermId>, updates: &[Update]) -> Result<(), NoMemory>
    ensures { OnOk result (ids.new.items ≡ ids.old.items ++ updated_by updates.now) }
{
    for place in 0..updates.len() {
        ids.push(update_at(updates, place).term)?;
    }
    Ok(())
}

/// Adds the decode conditions of instructions, each with the terms of the instruction's updates.
fn add_instructions(ids: &mut Vec<TermId>, instructions: &[Instruction]) -> Result<(), NoMemory>
    ensures { OnOk result (ids.new.items ≡ ids.old.items ++ roots_among instructions.now) }
{
    for instruction in instructions {
        ids.push(instruction.decode)?;
        add_updates(ids, &instruction.updates)?;
    }
    Ok(())
}

/// The terms from which an emitted design is made.
fn roots(alloc: Global, parts: &Parts) -> Result<Vec<TermId>, NoMemory>
    ensures { IfOk result (λ v. v.items ≡ roots_of parts.now) }
{
    let mut ids = Vec::new(alloc);
    ids.push(parts.valid)?;
    add_instructions(&mut ids, &parts.instructions)?;
    Ok(ids)
}

/// Marks at the terms of a list.
fn marks_at(alloc: Global, terms: &Terms, wanted: &[TermId]) -> Result<Vec<bool>, NoMemory>
    requires { IsClosed terms.now wanted.now }
    ensures { IfOk result (λ v. AreMarks wanted.now (length wanted.now) v.items) }
{
    let mut marks = vec![in alloc; false; terms.len() as usize]?;
    for place in 0..wanted.len() {
        let id = wanted[place];
        marks[id.0] = true;
    }
    Ok(marks)
}

/// Looks at each term of the store.
pub(crate) fn check_nodes(terms: &Terms)
    ensures ordered { IsOrdered terms.now }
    ensures named { (k : ℕ) → k < length terms.now.nodes → AllBelow (length terms.now.names) (names_of (node_at terms.now k)) }
{
    for place in 0..terms.len() as usize {
        let _node = node_of(terms, TermId(place));
    }
}

/// Looks at the sort of each name of the store.
fn check_names(terms: &Terms)
    ensures { (k : ℕ) → k < length terms.now.names → IsTrue (is_sort (sort_at terms.now.names k)) }
{
    for place in 0..terms.name_count() as usize {
        let _sort = terms.name_sort(NameId(place));
    }
}

/// Looks at each name and each term of the store, and so tells what every store keeps. It does nothing else.
pub fn check_stored(terms: &Terms)
    ensures { IsStored terms.now }
{
    check_nodes(terms);
    check_names(terms);
    let _count = terms.len();
}

/// The marks of the terms that an emitted design of the model needs: the valid condition, the decode conditions and the terms of updates, and
/// all that these stand on. The time is that of a few passes over the terms.
pub fn kept_terms(alloc: Global, model: &IlaModel) -> Result<Vec<bool>, NoMemory>
    ensures { IfOk result (λ v. model.now.parts.children.items ≡ [] → IsKept model.now.parts (λ k. slice_index_or v.items k false)) }
{
    let roots = roots(alloc, &model.parts)?;
    let wanted = closed(alloc, &model.parts.terms, &roots)?;
    check_nodes(&model.parts.terms);
    let marks = marks_at(alloc, &model.parts.terms, &wanted)?;
    Ok(marks)
}

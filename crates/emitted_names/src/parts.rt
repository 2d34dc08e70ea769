//! The nodes that memories are made of.

ghost use Rattle.std.specs.Prelude.{◌≡◌, ◌<◌, ◌≤◌, length, IfOk};
ghost use Rattle.wb_terms.specs.Graph.{AllBelow, operands_of};
ghost use Rattle.wanted_terms.specs.Wanted.{with_marks};
ghost use Rattle.emitted_modules.specs.Nodes.{memories_of};
ghost use Rattle.emitted_modules.specs.Kept.{IsOrdered};
ghost use Rattle.emitted_names.specs.Ids.{ids_of};
ghost use Rattle.emitted_names.specs.Parts.{is_other_part, parts_of, ArePartMarks, IsOwnMark};

use crate::NoMemory;
use crate::ids::is_marked;
use crate::nodes::{is_name, node_of};
use std::alloc::Global;
use wb_terms::{Node, TermId, Terms};

/// Marks the memories that a node is made of.
fn mark_memories(marks: &mut Vec<bool>, node: Node)
    requires { AllBelow (length marks.old.items) (operands_of node) }
    ensures { marks.new.items ≡ with_marks (memories_of node) marks.old.items }
{
    match node {
        Node::Store(memory, _, _) => marks[memory.0] = true,
        Node::Ite(_, x, y) => {
            marks[x.0] = true;
            marks[y.0] = true;
        }
        _ => {}
    }
}

/// Marks all that a marked memory is made of, from the highest node down.
fn mark_parts(terms: &Terms, marks: &mut Vec<bool>, memory: TermId, count: usize)
    requires ordered { IsOrdered terms.now }
    requires memory { memory.0 < count }
    requires few { count ≤ length terms.now.nodes }
    requires room { length marks.old.items ≡ count }
    requires own { IsOwnMark memory.0 marks.old.items }
    ensures { ArePartMarks terms.now memory.0 marks.new.items }
{
    for done in 0..count {
        let place = count - 1 - done;
        if marks[place] {
            mark_memories(marks, node_of(terms, TermId(place)));
        }
    }
}

/// A mark at a memory alone, among the first so many nodes.
fn own_mark(alloc: Global, memory: TermId, count: usize) -> Result<Vec<bool>, NoMemory>
    requires { memory.0 < count }
    ensures own { IfOk result (λ v. IsOwnMark memory.0 v.items) }
    ensures room { IfOk result (λ v. length v.items ≡ count) }
{
    let mut marks = vec![in alloc; false; count]?;
    marks[memory.0] = true;
    Ok(marks)
}

/// Marks at all that a memory is made of, among the first so many nodes.
fn part_marks(
    alloc: Global,
    terms: &Terms,
    memory: TermId,
    count: usize,
) -> Result<Vec<bool>, NoMemory>
    requires ordered { IsOrdered terms.now }
    requires memory { memory.0 < count }
    requires few { count ≤ length terms.now.nodes }
    ensures { IfOk result (λ v. ArePartMarks terms.now memory.0 v.items) }
{
    let mut marks = own_mark(alloc, memory, count)?;
    mark_parts(terms, &mut marks, memory, count);
    Ok(marks)
}

/// Whether a node is marked and no name.
fn is_part(terms: &Terms, memory: TermId, marks: &[bool], id: TermId) -> bool
    requires id { id.0 < length terms.now.nodes }
    requires marked { ArePartMarks terms.now memory.0 marks.now }
    ensures { result ≡ is_other_part terms.now memory.0 id.0 }
{
    let _memory = memory;
    let is_name = is_name(node_of(terms, id));
    let is_marked = is_marked(marks, id);
    !is_name && is_marked
}

/// Those of the first so many nodes that are marked and no names, by ascending id.
fn marked_parts(
    alloc: Global,
    terms: &Terms,
    memory: TermId,
    count: usize,
    marks: &[bool],
) -> Result<Vec<TermId>, NoMemory>
    requires few { count ≤ length terms.now.nodes }
    requires marked { ArePartMarks terms.now memory.0 marks.now }
    ensures { IfOk result (λ v. ids_of v.items ≡ parts_of terms.now memory.0 count) }
{
    let mut ids = Vec::new(alloc);
    for place in 0..count {
        if is_part(terms, memory, marks, TermId(place)) {
            ids.push(TermId(place))?;
        }
    }
    Ok(ids)
}

/// The nodes that a memory is made of and that are no names, among the first so many, by ascending id. The time is that of two passes over
/// so many nodes.
pub(crate) fn parts(
    alloc: Global,
    terms: &Terms,
    memory: TermId,
    count: usize,
) -> Result<Vec<TermId>, NoMemory>
    requires ordered { IsOrdered terms.now }
    requires memory { memory.0 < count }
    requires few { count ≤ length terms.now.nodes }
    ensures { IfOk result (λ v. ids_of v.items ≡ parts_of terms.now memory.0 count) }
{
    let marks = part_marks(alloc, terms, memory, count)?;
    let ids = marked_parts(alloc, terms, memory, count, marks.as_slice())?;
    Ok(ids)
}

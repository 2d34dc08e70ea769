//! Updates of memories, with the names of the wires that say which way they are made.

ghost use Rattle.std.specs.Prelude.{◌≡◌, ◌<◌, map, length, slice_get, Some, IfOk};
ghost use Rattle.std.specs.String.{string_bytes};
ghost use Rattle.emitted_modules.specs.Nodes.{operand};
ghost use Rattle.emitted_modules.specs.Module.{is_of_memory, memory_update, memory_updates};
ghost use Rattle.emitted_modules.specs.Stores.{via_name};
ghost use Rattle.emitted_modules.specs.Kept.{IsOrdered};
ghost use Rattle.emitted_names.specs.Ids.{ids_of};
ghost use Rattle.emitted_names.specs.Parts.{named_by, parts_named, via_called, update_of, IsWay, AreAllWays, AreWaysFor, AreWaysTo};
ghost use Rattle.emitted_names.specs.Within.{AreUpdatesWithin, IsWithin, AreWithin};

use crate::NoMemory;
use crate::ids::{id_at, is_memory, update_at};
use crate::parts::parts;
use crate::words::PartName;
use ila_model::{Instruction, Update};
use std::alloc::Global;
use wb_terms::{NameId, TermId, Terms};

/// An instruction's update of a memory.
#[derive(Drop)]
pub struct Way {
    /// The number of the instruction.
    pub instruction: usize,
    /// Where it decodes.
    pub decode: TermId,
    pub memory: NameId,
    /// What the memory becomes.
    pub term: TermId,
    /// The nodes that this is made of, with the names of the wires that say whether the update is made by way of them.
    pub parts: Vec<PartName>,
}

/// The name of the wire that says whether an update is made by way of a node.
fn via_name(alloc: Global, instruction: usize, memory: &str, id: usize) -> Result<String, NoMemory>
    ensures { IfOk result (λ s. string_bytes s ≡ via_called instruction memory.now id) }
{
    let name = format!(in alloc; "wb_via_{instruction}_{id}_{memory}")?;
    Ok(name)
}

/// A node with the name of the wire that says whether an update is made by way of it.
fn via_part(
    alloc: Global,
    instruction: usize,
    memory: &str,
    id: TermId,
) -> Result<PartName, NoMemory>
    ensures id { IfOk result (λ p. p.id ≡ id) }
    ensures name { IfOk result (λ p. string_bytes p.name ≡ via_called instruction memory.now id.0) }
{
    let name = via_name(alloc, instruction, memory, id.0)?;
    Ok(PartName { id, name })
}

/// Nodes with the names of the wires that say whether an update is made by way of them.
fn via_parts(
    alloc: Global,
    instruction: usize,
    memory: &str,
    ids: &[TermId],
) -> Result<Vec<PartName>, NoMemory>
    ensures { IfOk result (λ v. parts_named v.items ≡ named_by (via_called instruction memory.now) (ids_of ids.now)) }
{
    let mut parts = Vec::new(alloc);
    for place in 0..ids.len() {
        let part = via_part(alloc, instruction, memory, id_at(ids, place))?;
        parts.push(part)?;
    }
    Ok(parts)
}

/// An update of a memory by an instruction.
fn memory_way(
    alloc: Global,
    terms: &Terms,
    instruction: usize,
    decode: TermId,
    update: Update,
) -> Result<Way, NoMemory>
    requires ordered { IsOrdered terms.now }
    requires decode { decode.0 < length terms.now.nodes }
    requires state { update.state.0 < length terms.now.names }
    requires term { update.term.0 < length terms.now.nodes }
    ensures way { IfOk result (λ w. IsWay terms.now w) }
    ensures update { IfOk result (λ w. update_of terms.now w ≡ memory_update terms.now instruction (operand terms.now decode.0) update) }
{
    let _count = terms.len();
    let ids = parts(alloc, terms, update.term, update.term.0 + 1)?;
    let name = terms.name(update.state);
    let parts = via_parts(alloc, instruction, name, ids.as_slice())?;
    Ok(Way {
        instruction,
        decode,
        memory: update.state,
        term: update.term,
        parts,
    })
}

/// Whether an update is of a memory.
pub fn is_of_memory(terms: &Terms, update: Update) -> bool
    requires { update.state.0 < length terms.now.names }
    ensures { result ≡ is_of_memory terms.now update }
{
    is_memory(terms.name_sort(update.state))
}

/// The updates of memories among those of an instruction.
fn ways(
    alloc: Global,
    terms: &Terms,
    instruction: usize,
    decode: TermId,
    updates: &[Update],
) -> Result<Vec<Way>, NoMemory>
    requires ordered { IsOrdered terms.now }
    requires decode { decode.0 < length terms.now.nodes }
    requires within { AreUpdatesWithin terms.now updates.now }
    ensures each { IfOk result (λ v. AreAllWays terms.now v.items) }
    ensures updates { IfOk result (λ v. map (update_of terms.now) v.items ≡ memory_updates terms.now instruction (operand terms.now decode.0) updates.now) }
{
    let mut ways = Vec::new(alloc);
    for place in 0..updates.len() {
        let update = update_at(updates, place);
        if is_of_memory(terms, update) {
            let way = memory_way(alloc, terms, instruction, decode, update)?;
            ways.push(way)?;
        }
    }
    Ok(ways)
}

/// The instruction at a place of a list.
pub fn instruction_at<'t>(instructions: &'t [Instruction], place: usize) -> &'t Instruction
    requires { place < length instructions.now }
    ensures { slice_get instructions.now place ≡ Some result.now }
{
    &instructions[place]
}

/// For each instruction its updates of memories.
pub(crate) fn all_ways(
    alloc: Global,
    terms: &Terms,
    instructions: &[Instruction],
) -> Result<Vec<Vec<Way>>, NoMemory>
    requires ordered { IsOrdered terms.now }
    requires within { AreWithin terms.now instructions.now }
    ensures { IfOk result (λ v. AreWaysTo terms.now instructions.now (length instructions.now) v.items) }
{
    let mut rows = Vec::new(alloc);
    for number in 0..instructions.len() {
        let instruction = instruction_at(instructions, number);
        let updates = instruction.updates.as_slice();
        let row = ways(alloc, terms, number, instruction.decode, updates)?;
        rows.push(row)?;
    }
    Ok(rows)
}

//! The names of the wires for the words of memories at the addresses of loads.

ghost use Rattle.std.specs.Prelude.{◌≡◌, ◌<◌, ◌==◌, ℕ, List, length, IfOk, IsTrue};
ghost use Rattle.std.specs.String.{string_bytes};
ghost use Rattle.emitted_modules.specs.Nodes.{word_name};
ghost use Rattle.emitted_modules.specs.Kept.{IsOrdered};
ghost use Rattle.emitted_names.specs.Ids.{ids_of, kept_by};
ghost use Rattle.emitted_names.specs.Parts.{named_by, parts_named, AreWordNames, AreWords, IsAmongParts};

use crate::NoMemory;
use crate::ids::{id_at, is_marked};
use crate::nodes::node_of;
use crate::parts::parts;
use std::alloc::Global;
use wb_terms::{Node, TermId, Terms};

/// A node that a memory is made of, with the name of the wire for it.
#[derive(Drop)]
pub struct PartName {
    pub id: TermId,
    pub name: String,
}

/// The name of the wire for the word of a memory at the address of a load.
fn word_name(alloc: Global, load: usize, memory: usize) -> Result<String, NoMemory>
    ensures { IfOk result (λ s. string_bytes s ≡ word_name load memory) }
{
    let name = format!(in alloc; "wb_word_{load}_{memory}")?;
    Ok(name)
}

/// A node with the name of the wire for its word.
fn word_part(alloc: Global, load: TermId, id: TermId) -> Result<PartName, NoMemory>
    ensures id { IfOk result (λ p. p.id ≡ id) }
    ensures name { IfOk result (λ p. string_bytes p.name ≡ word_name load.0 id.0) }
{
    let name = word_name(alloc, load.0, id.0)?;
    Ok(PartName { id, name })
}

/// Nodes with the names of the wires for their words.
fn word_parts(alloc: Global, load: TermId, ids: &[TermId]) -> Result<Vec<PartName>, NoMemory>
    ensures { IfOk result (λ v. parts_named v.items ≡ named_by (word_name load.0) (ids_of ids.now)) }
{
    let mut parts = Vec::new(alloc);
    for place in 0..ids.len() {
        let part = word_part(alloc, load, id_at(ids, place))?;
        parts.push(part)?;
    }
    Ok(parts)
}

/// The nodes that the memory of a load is made of, with the names of the wires for their words. Of another term there are none.
fn words(alloc: Global, terms: &Terms, id: TermId) -> Result<Vec<PartName>, NoMemory>
    requires ordered { IsOrdered terms.now }
    requires id { id.0 < length terms.now.nodes }
    ensures { IfOk result (λ v. AreWordNames terms.now id.0 v.items) }
{
    match node_of(terms, id) {
        Node::Load(memory, _) => {
            let ids = parts(alloc, terms, memory, id.0)?;
            let parts = word_parts(alloc, id, ids.as_slice())?;
            Ok(parts)
        }
        _ => Ok(Vec::new(alloc)),
    }
}

/// The same of a term that is kept.
fn words_if(
    alloc: Global,
    terms: &Terms,
    keep: &[bool],
    id: TermId,
) -> Result<Vec<PartName>, NoMemory>
    requires ordered { IsOrdered terms.now }
    requires id { id.0 < length terms.now.nodes }
    ensures { IfOk result (λ v. IsTrue (kept_by keep.now id.0) → AreWordNames terms.now id.0 v.items) }
{
    if !is_marked(keep, id) {
        return Ok(Vec::new(alloc));
    }
    let parts = words(alloc, terms, id)?;
    Ok(parts)
}

/// For each term the nodes that its memory is made of, with their names, if the term is a load and is kept.
pub(crate) fn all_words(
    alloc: Global,
    terms: &Terms,
    keep: &[bool],
) -> Result<Vec<Vec<PartName>>, NoMemory>
    requires { IsOrdered terms.now }
    ensures { IfOk result (λ v. AreWords terms.now (kept_by keep.now) (length terms.now.nodes) v.items) }
{
    let mut rows = Vec::new(alloc);
    for place in 0..terms.len() as usize {
        let row = words_if(alloc, terms, keep, TermId(place))?;
        rows.push(row)?;
    }
    Ok(rows)
}

/// Whether the part is this node.
fn is_named(part: &PartName, id: TermId) -> bool
    ensures { result ≡ (part.now.id.0 == id.0) }
{
    part.id.0 == id.0
}

/// The name for a node that is among the parts.
pub fn part_name<'n>(parts: &'n [PartName], id: TermId) -> &'n str
    requires { IsAmongParts id.0 parts.now }
    ensures { (name : ℕ → List ℕ) (ks : List ℕ) → parts_named parts.now ≡ named_by name ks → result.now ≡ name id.0 }
{
    for part in parts {
        if is_named(part, id) {
            return part.name.as_str();
        }
    }
    unreachable!()
}

//! The instructions of a machine: their conditions and updates are put into the store.

ghost use Rattle.std.specs.Prelude.{◌≡◌, ◌≤◌, ◌+◌, true, length, map, IfOk};
ghost use Rattle.ila_file.specs.View.{instruction_view, instructions_view};
ghost use Rattle.ila_build.specs.Sizes.{instruction_size, instruction_sizes};
ghost use Rattle.ila_build.specs.Standing.{AreIn, IsGrown, IsTable};
ghost use Rattle.ila_build.specs.Building.{AreInstructionsPut, AreOwnRight, IsInstructionPut, link_at, own_terms, pair_of};
ghost use Rattle.ila_build.specs.Knowing.{are_right};
ghost use Rattle.ila_build.specs.Refusing.{IsDue, IsUnrefused};

use crate::putting::put_term;
use crate::seen::{decode_of, name_of, updates_of};
use crate::updating::put_updates;
use ila_file::WrittenInstruction;
use ila_model::{ChildId, Instruction, Update};
use std::alloc::Global;
use std::collections::BTreeMap;
use wb_terms::{NameId, NoMemory, PutStop, TermId, Terms};

/// Updates by their states' places and their terms.
fn as_updates(alloc: Global, pairs: &[(usize, TermId)]) -> Result<Vec<Update>, NoMemory>
    ensures { IfOk result (λ us. map pair_of us.items ≡ pairs.now) }
{
    let mut updates = Vec::new(alloc);
    for &(state, term) in pairs {
        updates.push(Update {
            state: NameId(state),
            term,
        })?;
    }
    Ok(updates)
}

/// The id of the child of the instruction at a place, if it has one.
pub(crate) fn link_at(links: &[Option<ChildId>], place: usize) -> Option<ChildId>
    ensures { result ≡ link_at links.now place }
{
    if place < links.len() {
        links[place]
    } else {
        None
    }
}

/// Puts the terms of an instruction, whose child has this id if it has one.
fn put_instruction<'v>(
    alloc: Global,
    terms: &mut Terms,
    known: &BTreeMap<&'v [u8], TermId>,
    fetch: Option<TermId>,
    instruction: &WrittenInstruction<'v>,
    link: Option<ChildId>,
) -> Result<Instruction, PutStop>
    requires table { IsTable terms.old known.now }
    requires in_store { AreIn terms.old known.now fetch }
    ensures grown { IsGrown terms.old terms.new }
    ensures added { length terms.new.nodes ≤ length terms.old.nodes + instruction_size (instruction_view instruction.now) }
    ensures put { IfOk result (λ x. IsInstructionPut terms.old known.now fetch terms.new link (instruction_view instruction.now) x) }
    ensures unrefused { IsUnrefused result (IsDue terms.old known.now fetch (λ names ss. are_right (own_terms names ss (instruction_view instruction.now)) ≡ true)) }
{
    let Ok(name) = String::from_str(alloc, name_of(instruction)) else {
        return Err(PutStop::NoMemory);
    };
    let decode = put_term(terms, known, fetch, decode_of(instruction))?;
    let pairs = put_updates(alloc, terms, known, fetch, updates_of(instruction))?;
    let Ok(updates) = as_updates(alloc, &pairs) else {
        return Err(PutStop::NoMemory);
    };
    Ok(Instruction {
        name,
        decode,
        updates,
        child: link,
    })
}

/// Puts the terms of instructions, whose children have these ids.
pub fn put_instructions<'v>(
    alloc: Global,
    terms: &mut Terms,
    known: &BTreeMap<&'v [u8], TermId>,
    fetch: Option<TermId>,
    instructions: &[WrittenInstruction<'v>],
    links: &[Option<ChildId>],
) -> Result<Vec<Instruction>, PutStop>
    requires table { IsTable terms.old known.now }
    requires in_store { AreIn terms.old known.now fetch }
    ensures grown { IsGrown terms.old terms.new }
    ensures added { length terms.new.nodes ≤ length terms.old.nodes + instruction_sizes (instructions_view instructions.now) }
    ensures put { IfOk result (λ xs. AreInstructionsPut terms.old known.now fetch terms.new links.now (instructions_view instructions.now) xs.items) }
    ensures unrefused { IsUnrefused result (IsDue terms.old known.now fetch (λ names ss. AreOwnRight names ss (instructions_view instructions.now))) }
{
    let mut put = Vec::new(alloc);
    for (place, instruction) in instructions.iter().enumerate() {
        let link = link_at(links, place);
        let one = put_instruction(alloc, terms, known, fetch, instruction, link)?;
        if put.push(one).is_err() {
            return Err(PutStop::NoMemory);
        }
    }
    Ok(put)
}

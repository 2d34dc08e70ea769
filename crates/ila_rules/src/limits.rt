//! How deep children nest, and how many steps they may take.

ghost use Rattle.std.specs.Prelude.{◌≡◌, IfOk};
ghost use Rattle.ila_file.specs.Places.{way_of, found_text};
ghost use Rattle.ila_file.specs.View.{machine_view, instruction_view, child_view};
ghost use Rattle.ila_rules.specs.Limits.{deeper_note, instruction_deeper, child_deeper, limit_note, instruction_limit, child_limit, limit_here};

use ila_file::{NoMemory, Note, Place, Spot, WrittenChild, WrittenInstruction, WrittenMachine};

/// The first child that nests deeper than so many levels below the machine.
#[cycle(depth)]
pub(crate) fn deeper_child(
    machine: &WrittenMachine<'_>,
    left: usize,
    place: &mut Place,
) -> Result<Option<Note>, NoMemory>
    ensures note { IfOk result (λ o. found_text o ≡ deeper_note (way_of place.old) left (machine_view machine.now)) }
    ensures way { IfOk result (λ _. way_of place.new ≡ way_of place.old) }
{
    for (index, instruction) in machine.instructions.iter().enumerate() {
        if let Some(note) = deeper_in(instruction, index, left, place)? {
            return Ok(Some(note));
        }
    }
    Ok(None)
}

#[cycle(depth)]
fn deeper_in(
    instruction: &WrittenInstruction<'_>,
    index: usize,
    left: usize,
    place: &mut Place,
) -> Result<Option<Note>, NoMemory>
    ensures note { IfOk result (λ o. found_text o ≡ instruction_deeper (way_of place.old) left index (instruction_view instruction.now)) }
    ensures way { IfOk result (λ _. way_of place.new ≡ way_of place.old) }
{
    let name = instruction.name;
    match &instruction.child {
        Some(child) => {
            let found = deeper_than(child, index, name, left, place)?;
            Ok(found)
        }
        None => Ok(None),
    }
}

#[cycle(depth)]
fn deeper_than<'v>(
    child: &WrittenChild<'v>,
    index: usize,
    name: &'v str,
    left: usize,
    place: &mut Place,
) -> Result<Option<Note>, NoMemory>
    ensures note { IfOk result (λ o. found_text o ≡ child_deeper (way_of place.old) left index name.now (child_view child.now)) }
    ensures way { IfOk result (λ _. way_of place.new ≡ way_of place.old) }
{
    if left == 0 {
        let note = place.note(Spot::item("instructions", index, Some(name)).part("child"))?;
        return Ok(Some(note));
    }
    place.enter(index)?;
    let found = deeper_child(&child.machine, left - 1, place)?;
    place.leave();
    Ok(found)
}

/// The first child whose steps are not 1 to 4,096.
#[cycle(steps)]
pub(crate) fn unlimited_child(
    machine: &WrittenMachine<'_>,
    place: &mut Place,
) -> Result<Option<Note>, NoMemory>
    ensures note { IfOk result (λ o. found_text o ≡ limit_note (way_of place.old) (machine_view machine.now)) }
    ensures way { IfOk result (λ _. way_of place.new ≡ way_of place.old) }
{
    for (index, instruction) in machine.instructions.iter().enumerate() {
        if let Some(note) = unlimited_in(instruction, index, place)? {
            return Ok(Some(note));
        }
    }
    Ok(None)
}

#[cycle(steps)]
fn unlimited_in(
    instruction: &WrittenInstruction<'_>,
    index: usize,
    place: &mut Place,
) -> Result<Option<Note>, NoMemory>
    ensures note { IfOk result (λ o. found_text o ≡ instruction_limit (way_of place.old) index (instruction_view instruction.now)) }
    ensures way { IfOk result (λ _. way_of place.new ≡ way_of place.old) }
{
    match &instruction.child {
        Some(child) => {
            let found = unlimited(child, index, place)?;
            Ok(found)
        }
        None => Ok(None),
    }
}

#[cycle(steps)]
fn unlimited(
    child: &WrittenChild<'_>,
    index: usize,
    place: &mut Place,
) -> Result<Option<Note>, NoMemory>
    ensures note { IfOk result (λ o. found_text o ≡ child_limit (way_of place.old) index (child_view child.now)) }
    ensures way { IfOk result (λ _. way_of place.new ≡ way_of place.old) }
{
    place.enter(index)?;
    let found = unlimited_here(child, place)?;
    place.leave();
    Ok(found)
}

/// The child itself, or the first within it, at the place of its machine.
#[cycle(steps)]
fn unlimited_here(child: &WrittenChild<'_>, place: &mut Place) -> Result<Option<Note>, NoMemory>
    ensures note { IfOk result (λ o. found_text o ≡ limit_here (way_of place.old) (child_view child.now)) }
    ensures way { IfOk result (λ _. way_of place.new ≡ way_of place.old) }
{
    if child.steps < 1 || child.steps > 4096 {
        let note = place.note(Spot::key("steps"))?;
        return Ok(Some(note));
    }
    let found = unlimited_child(&child.machine, place)?;
    Ok(found)
}

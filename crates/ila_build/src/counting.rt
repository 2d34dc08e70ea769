//! How many child programs a machine has, with those inside them, and the ids that its instructions' children have by that.

ghost use Rattle.std.specs.Prelude.{◌≡◌, ◌+◌, length, IfOk};
ghost use Rattle.model_files.specs.Written.{machines_below, machines_of_child, machines_of_instruction};
ghost use Rattle.ila_file.specs.View.{child_view, instruction_view, machine_view};
ghost use Rattle.ila_build.specs.Building.{own_instructions};
ghost use Rattle.ila_build.specs.Inside.{link_from, links_from, program_in};

use ila_file::{WrittenChild, WrittenInstruction, WrittenMachine};
use ila_model::ChildId;
use std::alloc::{AllocError, Global};
use wb_terms::NoMemory;

/// The sum. More children than a machine word counts have no room in memory.
fn sum(a: usize, b: usize) -> Result<usize, NoMemory>
    ensures { IfOk result (λ n. n ≡ a + b) }
{
    match a.checked_add(b) {
        Some(sum) => Ok(sum),
        None => Err(AllocError),
    }
}

/// How many child programs a machine has, with those inside them.
#[cycle(count)]
fn count_below(machine: &WrittenMachine) -> Result<usize, NoMemory>
    ensures { IfOk result (λ n. n ≡ length (machines_below (own_instructions (machine_view machine.now)))) }
{
    let mut count: usize = 0;
    for instruction in machine.instructions.iter() {
        let own = count_of(instruction)?;
        count = sum(count, own)?;
    }
    Ok(count)
}

/// The same of an instruction.
#[cycle(count)]
fn count_of(instruction: &WrittenInstruction) -> Result<usize, NoMemory>
    ensures { IfOk result (λ n. n ≡ length (machines_of_instruction (instruction_view instruction.now))) }
{
    match &instruction.child {
        Some(child) => {
            let count = count_with(child)?;
            Ok(count)
        }
        None => Ok(0),
    }
}

/// The same of a child, itself included.
#[cycle(count)]
fn count_with(child: &WrittenChild) -> Result<usize, NoMemory>
    ensures { IfOk result (λ n. n ≡ length (machines_of_child (child_view child.now))) }
{
    let below = count_below(&child.machine)?;
    let count = sum(below, 1)?;
    Ok(count)
}

/// The id of an instruction's child that stands at a place, if it has one.
fn link_of(instruction: &WrittenInstruction, place: usize) -> Option<ChildId>
    ensures { result ≡ link_from place (program_in (instruction_view instruction.now)) }
{
    match &instruction.child {
        Some(_) => Some(ChildId(place)),
        None => None,
    }
}

/// The ids of the children of a machine's instructions, where these stand from a place on.
pub fn links_of(
    alloc: Global,
    machine: &WrittenMachine,
    first: usize,
) -> Result<Vec<Option<ChildId>>, NoMemory>
    ensures { IfOk result (λ ls. ls.items ≡ links_from first (own_instructions (machine_view machine.now))) }
{
    let mut links = Vec::new(alloc);
    let mut next = first;
    for instruction in machine.instructions.iter() {
        links.push(link_of(instruction, next))?;
        let own = count_of(instruction)?;
        next = sum(next, own)?;
    }
    Ok(links)
}

//! The child programs of a machine, and those inside them, in the order of the file.

ghost use Rattle.std.specs.Prelude.{◌≡◌, OnOk};
ghost use Rattle.ila_file.specs.View.{child_view, instruction_view, machine_view};
ghost use Rattle.ila_build.specs.Standing.{IsTable};
ghost use Rattle.ila_build.specs.Building.{own_instructions};
ghost use Rattle.ila_build.specs.Inside.{AreChildrenPut, IsProgramPut, program_in};
ghost use Rattle.ila_build.specs.Layout.{AreLaidPut, IsLaidPut};
ghost use Rattle.ila_build.specs.Leaving.{HasInFront, IsLeft};
ghost use Rattle.ila_build.specs.Refusing.{AreBelowDue, IsProgramDue, IsUnrefused, names_below, names_of_child};
ghost use Rattle.ila_build.specs.Sizes.{size_below, size_of_child};

use crate::child::put_child;
use crate::counting::links_of;
use ila_file::{WrittenChild, WrittenInstruction, WrittenMachine};
use ila_model::{Child, ChildId};
use std::alloc::Global;
use std::collections::BTreeMap;
use wb_terms::{PutStop, TermId, Terms};

/// Appends the child programs of a machine's instructions, and those inside them. They are run from the child with this id,
/// or from the top.
#[cycle(inside)]
pub fn put_children<'v>(
    alloc: Global,
    terms: &mut Terms,
    known: &mut BTreeMap<&'v [u8], TermId>,
    children: &mut Vec<Child>,
    machine: &WrittenMachine<'v>,
    around: Option<ChildId>,
) -> Result<(), PutStop>
    requires { IsTable terms.old known.old }
    ensures put { OnOk result (AreChildrenPut terms.old known.old children.old.items terms.new known.new children.new.items (own_instructions (machine_view machine.now))) }
    ensures laid { OnOk result (AreLaidPut terms.old known.old children.old.items terms.new children.new.items around (own_instructions (machine_view machine.now))) }
    ensures left { IsLeft terms.old known.old terms.new known.new (names_below (own_instructions (machine_view machine.now))) (size_below (own_instructions (machine_view machine.now))) }
    ensures in_front { HasInFront children.old.items children.new.items }
    ensures unrefused { IsUnrefused result (AreBelowDue terms.old known.old (own_instructions (machine_view machine.now))) }
{
    for instruction in machine.instructions.iter() {
        put_child_of(alloc, terms, known, children, instruction, around)?;
    }
    Ok(())
}

/// Appends the child program of an instruction, if it has one, and those inside it.
#[cycle(inside)]
fn put_child_of<'v>(
    alloc: Global,
    terms: &mut Terms,
    known: &mut BTreeMap<&'v [u8], TermId>,
    children: &mut Vec<Child>,
    instruction: &WrittenInstruction<'v>,
    around: Option<ChildId>,
) -> Result<(), PutStop>
    requires { IsTable terms.old known.old }
    ensures put { OnOk result (IsProgramPut terms.old known.old children.old.items terms.new known.new children.new.items (program_in (instruction_view instruction.now))) }
    ensures laid { OnOk result (IsLaidPut terms.old known.old children.old.items terms.new children.new.items around (program_in (instruction_view instruction.now))) }
    ensures left { IsLeft terms.old known.old terms.new known.new (names_of_child (program_in (instruction_view instruction.now))) (size_of_child (program_in (instruction_view instruction.now))) }
    ensures in_front { HasInFront children.old.items children.new.items }
    ensures unrefused { IsUnrefused result (IsProgramDue terms.old known.old (program_in (instruction_view instruction.now))) }
{
    match &instruction.child {
        Some(child) => {
            put_program(alloc, terms, known, children, child, around)?;
            Ok(())
        }
        None => Ok(()),
    }
}

/// Appends a child program and those inside it.
#[cycle(inside)]
fn put_program<'v>(
    alloc: Global,
    terms: &mut Terms,
    known: &mut BTreeMap<&'v [u8], TermId>,
    children: &mut Vec<Child>,
    child: &WrittenChild<'v>,
    around: Option<ChildId>,
) -> Result<(), PutStop>
    requires { IsTable terms.old known.old }
    ensures put { OnOk result (IsProgramPut terms.old known.old children.old.items terms.new known.new children.new.items (child_view child.now)) }
    ensures laid { OnOk result (IsLaidPut terms.old known.old children.old.items terms.new children.new.items around (child_view child.now)) }
    ensures left { IsLeft terms.old known.old terms.new known.new (names_of_child (child_view child.now)) (size_of_child (child_view child.now)) }
    ensures in_front { HasInFront children.old.items children.new.items }
    ensures unrefused { IsUnrefused result (IsProgramDue terms.old known.old (child_view child.now)) }
{
    let id = children.len();
    let Some(next) = id.checked_add(1) else {
        return Err(PutStop::NoMemory);
    };
    let machine = &child.machine;
    let Ok(links) = links_of(alloc, machine, next) else {
        return Err(PutStop::NoMemory);
    };
    let own = put_child(alloc, terms, known, child.steps, machine, around, &links)?;
    if children.push(own).is_err() {
        return Err(PutStop::NoMemory);
    }
    put_children(alloc, terms, known, children, machine, Some(ChildId(id)))?;
    Ok(())
}

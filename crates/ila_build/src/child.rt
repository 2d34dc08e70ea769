//! Child programs: their private states are declared, and then their own terms are put.

ghost use Rattle.std.specs.Prelude.{◌≡◌, ◌++◌, length, map, option_map, is_some, IfOk, OnOk};
ghost use Rattle.std.specs.List.{list_all};
ghost use Rattle.ila_file.specs.View.{machine_view, state_view};
ghost use Rattle.ila_build.specs.Leaving.{IsLeft};
ghost use Rattle.ila_build.specs.Sizes.{machine_size};
ghost use Rattle.ila_build.specs.Standing.{IsTable};
ghost use Rattle.ila_build.specs.Building.{IsChildPut};
ghost use Rattle.ila_build.specs.Refusing.{IsChildDue, IsUnrefused};
ghost use Rattle.ila_build.specs.Declaring.{state_entry};
ghost use Rattle.model_files.specs.Names.{data_names};
ghost use Rattle.model_files.specs.Written.{states_in};
ghost use Rattle.wb_terms.specs.Environment.{as_value};

use crate::declaring::{declare_states, initial_values};
use crate::machine::put_machine;
use crate::seen::states_of;
use ila_file::{WrittenMachine, WrittenState};
use ila_model::{Child, ChildId};
use std::alloc::Global;
use std::collections::BTreeMap;
use wb_terms::{NameId, PutStop, TermId, Terms};

/// Whether each of the states states an initial value.
fn have_values(states: &[WrittenState]) -> bool
    ensures { result ≡ list_all (λ s. is_some s.init) (map state_view states.now) }
{
    for state in states {
        if state.initial.is_none() {
            return false;
        }
    }
    true
}

/// Declares the private states of a child program of so many steps, puts its own terms, and gives it. The children of its
/// instructions have these ids. Refused are private states without an initial value, and steps past 32 bits.
pub fn put_child<'v>(
    alloc: Global,
    terms: &mut Terms,
    known: &mut BTreeMap<&'v [u8], TermId>,
    steps: u64,
    machine: &WrittenMachine<'v>,
    around: Option<ChildId>,
    links: &[Option<ChildId>],
) -> Result<Child, PutStop>
    requires { IsTable terms.old known.old }
    ensures left { IsLeft terms.old known.old terms.new known.new (data_names (machine_view machine.now)) (machine_size (machine_view machine.now)) }
    ensures table { OnOk result (IsTable terms.new known.new) }
    ensures steps { IfOk result (λ c. c.steps ≡ steps) }
    ensures around { IfOk result (λ c. c.around ≡ around) }
    ensures first { IfOk result (λ c. c.first.0 ≡ length terms.old.names) }
    ensures names { OnOk result (terms.new.names ≡ terms.old.names ++ map state_entry (states_in (machine_view machine.now))) }
    ensures values { IfOk result (λ c. map (option_map as_value) c.initial_values.items ≡ map (λ s. s.init) (states_in (machine_view machine.now))) }
    ensures put { IfOk result (λ c. IsChildPut terms.old known.old terms.new known.new links.now (machine_view machine.now) c) }
    ensures unrefused { IsUnrefused result (IsChildDue terms.old known.old steps (machine_view machine.now)) }
{
    let states = states_of(machine);
    if steps > 4096 || !have_values(states) {
        return Err(PutStop::BadSort);
    }
    let first = NameId(terms.name_count() as usize);
    declare_states(alloc, terms, known, states)?;
    let Ok(initial_values) = initial_values(alloc, states) else {
        return Err(PutStop::NoMemory);
    };
    let (valid, instructions) = put_machine(alloc, terms, known, machine, links)?;
    Ok(Child {
        around,
        first,
        initial_values,
        valid,
        steps: steps as u32,
        instructions,
    })
}

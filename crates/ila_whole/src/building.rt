//! The parts of a written model: its names are declared, and then its machine and its child programs are put.

ghost use Rattle.std.specs.Prelude.{◌≡◌, ◌≤◌, ◌+◌, ◌++◌, false, length, map, IfOk};
ghost use Rattle.model_files.specs.Written.{states_in};
ghost use Rattle.ila_file.specs.View.{inputs_view, machine_view, model_view};
ghost use Rattle.ila_build.specs.Declaring.{input_entry, state_entry};
ghost use Rattle.ila_build.specs.Standing.{IsFresh, IsTable};
ghost use Rattle.ila_build.specs.Knowing.{defined_names};
ghost use Rattle.ila_build.specs.Building.{definitions_in, own_instructions};
ghost use Rattle.ila_build.specs.Sizes.{file_size};
ghost use Rattle.ila_build.specs.Refusing.{IsUnrefused, names_below};
ghost use Rattle.model_meaning.specs.Among.{has_twice};
ghost use Rattle.model_files.specs.Names.{all_data_names};
ghost use Rattle.ila_whole.specs.Whole.{ArePartsOf, AreSortedParts, IsFit};

use ila_build::{
    declare_inputs, declare_states, empty_table, initial_values, links_of, put_children,
    put_machine, states_of,
};
use ila_file::WrittenModel;
use ila_model::Parts;
use std::alloc::Global;
use std::collections::BTreeMap;
use wb_terms::{PutStop, TermId, Terms};

/// A store with the names of the model's states and inputs, and the table of what they stand for.
fn declare_top<'v>(
    alloc: Global,
    written: &WrittenModel<'v>,
) -> Result<(Terms, BTreeMap<&'v [u8], TermId>), PutStop>
    ensures names { IfOk result (λ p. p.0.names ≡ map state_entry (states_in (machine_view written.now.machine)) ++ map input_entry (inputs_view written.now.inputs)) }
    ensures table { IfOk result (λ p. IsTable p.0 p.1) }
    ensures small { IfOk result (λ p. length p.0.nodes ≤ length (states_in (machine_view written.now.machine)) + length (inputs_view written.now.inputs)) }
    ensures fresh { IfOk result (λ p. has_twice (all_data_names (model_view written.now)) ≡ false → IsFresh p.1 (defined_names (definitions_in (machine_view written.now.machine)) ++ names_below (own_instructions (machine_view written.now.machine)))) }
    ensures unrefused { IsUnrefused result (IsFit (model_view written.now)) }
{
    let Ok(table) = empty_table(alloc) else {
        return Err(PutStop::NoMemory);
    };
    let (mut terms, mut known) = table;
    let states = states_of(&written.machine);
    declare_states(alloc, &mut terms, &mut known, states)?;
    declare_inputs(alloc, &mut terms, &mut known, &written.inputs)?;
    Ok((terms, known))
}

/// The parts of a written model.
pub(crate) fn put_parts(alloc: Global, written: &WrittenModel<'_>) -> Result<Parts, PutStop>
    ensures parts { IfOk result (λ p. ArePartsOf (model_view written.now) p) }
    ensures sorted { IfOk result (λ p. AreSortedParts (model_view written.now) p) }
    ensures small { IfOk result (λ p. length p.terms.nodes ≤ file_size (model_view written.now)) }
    ensures unrefused { IsUnrefused result (IsFit (model_view written.now)) }
{
    let (mut terms, mut known) = declare_top(alloc, written)?;
    let machine = &written.machine;
    let Ok(links) = links_of(alloc, machine, 0) else {
        return Err(PutStop::NoMemory);
    };
    let (valid, instructions) = put_machine(alloc, &mut terms, &mut known, machine, &links)?;
    let mut children = Vec::new(alloc);
    put_children(alloc, &mut terms, &mut known, &mut children, machine, None)?;
    let _names = terms.name_count();
    let Ok(initial_values) = initial_values(alloc, states_of(machine)) else {
        return Err(PutStop::NoMemory);
    };
    Ok(Parts {
        terms,
        initial_values,
        inputs: written.inputs.len(),
        valid,
        instructions,
        children,
    })
}

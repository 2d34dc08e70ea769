//! The names of a model and of a written map, as lists.

ghost use Rattle.std.specs.Prelude.{◌≡◌, IfOk, map};
ghost use Rattle.model_meaning.specs.Invariant.{state_names, own_instruction_names};
ghost use Rattle.ila_model.specs.Model.{model_of};
ghost use Rattle.map_file.specs.View.{mapped_view, entry_view};
ghost use Rattle.map_rules.specs.Case.{input_names, entry_names};
ghost use Rattle.map_names.specs.Texts.{texts};

use ila_file::NoMemory;
use ila_model::IlaModel;
use map_file::{InstructionEntry, Mapped};
use std::alloc::Global;

/// The names of the model's states, in their order.
pub(crate) fn state_names<'m>(alloc: Global, model: &'m IlaModel) -> Result<Vec<&'m str>, NoMemory>
    ensures { IfOk result (λ v. texts v.items ≡ state_names (model_of model.now).top) }
{
    let mut names = Vec::new(alloc);
    for place in 0..model.state_count() {
        names.push(model.state_name(place))?;
    }
    Ok(names)
}

/// The names of the model's inputs, in their order.
pub(crate) fn input_names<'m>(alloc: Global, model: &'m IlaModel) -> Result<Vec<&'m str>, NoMemory>
    ensures { IfOk result (λ v. texts v.items ≡ input_names (model_of model.now)) }
{
    let mut names = Vec::new(alloc);
    for place in 0..model.input_count() {
        names.push(model.input_name(place))?;
    }
    Ok(names)
}

/// The names of the instructions of the model's top machine, in their order.
pub(crate) fn instruction_names<'m>(
    alloc: Global,
    model: &'m IlaModel,
) -> Result<Vec<&'m str>, NoMemory>
    ensures { IfOk result (λ v. texts v.items ≡ own_instruction_names (model_of model.now).top) }
{
    let mut names = Vec::new(alloc);
    for instruction in &model.parts.instructions {
        names.push(instruction.name.as_str())?;
    }
    Ok(names)
}

/// The names of entries, in their order.
pub(crate) fn entry_names<'w>(
    alloc: Global,
    entries: &'w [Mapped],
) -> Result<Vec<&'w str>, NoMemory>
    ensures { IfOk result (λ v. texts v.items ≡ entry_names (map mapped_view entries.now)) }
{
    let mut names = Vec::new(alloc);
    for entry in entries {
        names.push(entry.name.as_str())?;
    }
    Ok(names)
}

/// The names in the entries of instructions, in their order.
pub(crate) fn called_names<'w>(
    alloc: Global,
    entries: &'w [InstructionEntry],
) -> Result<Vec<&'w str>, NoMemory>
    ensures { IfOk result (λ v. texts v.items ≡ map (λ i. i.called) (map entry_view entries.now)) }
{
    let mut names = Vec::new(alloc);
    for entry in entries {
        names.push(entry.name.as_str())?;
    }
    Ok(names)
}

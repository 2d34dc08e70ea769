//! The names that a model file declares: whether each is legal, and none stands twice.

ghost use Rattle.std.specs.Prelude.{◌≡◌, IfOk, map, codes};
ghost use Rattle.ila_file.specs.View.{machine_view, instruction_view, child_view, state_view, definition_view, input_view, model_view};
ghost use Rattle.ila_file.specs.Places.{spot_view};
ghost use Rattle.wb_values.specs.Names.{is_model_name};
ghost use Rattle.ila_rules.specs.NameFlaws.{names_entered, names_left, with_member, with_data, with_instruction, with_all_data, with_model_name, names_in, names_of_instruction, names_of_child, names_in_model};
ghost use Rattle.ila_rules.specs.View.{known, names_view};

use crate::findings::keep_first;
use ila_file::{
    Definition, NoMemory, Note, Place, Spot, WrittenChild, WrittenInput, WrittenInstruction,
    WrittenMachine, WrittenModel, WrittenState,
};
use std::alloc::Global;
use std::collections::BTreeSet;
use wb_names::is_model_name;

/// The names so far, and the first places at which a rule on names was broken.
#[derive(Drop)]
pub(crate) struct Names<'v> {
    place: Place,
    pub(crate) bad: Option<Note>,
    pub(crate) twice: Option<Note>,
    data_set: BTreeSet<&'v str>,
    instruction_set: BTreeSet<&'v str>,
}

/// Adds a name to a set, and tells whether it was there.
fn add_member<'v>(set: &mut BTreeSet<&'v str>, name: &'v str) -> Result<bool, NoMemory>
    ensures set { IfOk result (λ _. known set.new ≡ with_member name.now (known set.old)) }
    ensures was { IfOk result (λ b. b ≡ known set.old name.now) }
{
    let added = set.insert(name)?;
    Ok(!added)
}

fn is_legal(name: &str) -> bool
    ensures { result ≡ is_model_name name.now }
{
    is_model_name(name.as_bytes())
}

impl<'v> Names<'v> {
    /// Of a model with this name.
    fn new(alloc: Global, name: &'v str) -> Result<Names<'v>, NoMemory>
        ensures { IfOk result (λ n. names_view n ≡ with_model_name name.now) }
    {
        let place = Place::top(alloc);
        let mut bad = None;
        keep_first(&mut bad, !is_legal(name), &place, Spot::key("name"))?;
        Ok(Names {
            place,
            bad,
            twice: None,
            data_set: BTreeSet::new(alloc),
            instruction_set: BTreeSet::new(alloc),
        })
    }

    /// Goes on with the machine of the child of an instruction.
    fn enter(&mut self, instruction: usize) -> Result<(), NoMemory>
        ensures { IfOk result (λ _. names_view self.new ≡ names_entered instruction (names_view self.old)) }
    {
        self.place.enter(instruction)?;
        Ok(())
    }

    /// Goes back to the machine around it.
    fn leave(&mut self)
        ensures { names_view self.new ≡ names_left (names_view self.old) }
    {
        self.place.leave();
    }

    /// Adds the name of a state, an input or a definition.
    #[tactic(auto, unfolding(crate::specs::NameFlaws::with_data))]
    fn add_data(&mut self, name: &'v str, spot: Spot<'_>) -> Result<(), NoMemory>
        ensures { IfOk result (λ _. names_view self.new ≡ with_data (spot_view spot.entry) name.now (names_view self.old)) }
    {
        keep_first(&mut self.bad, !is_legal(name), &self.place, spot)?;
        let was = add_member(&mut self.data_set, name)?;
        keep_first(&mut self.twice, was, &self.place, spot)?;
        Ok(())
    }

    /// Adds the name of an instruction.
    #[tactic(auto, unfolding(crate::specs::NameFlaws::with_instruction))]
    fn add_instruction(&mut self, name: &'v str, spot: Spot<'_>) -> Result<(), NoMemory>
        ensures { IfOk result (λ _. names_view self.new ≡ with_instruction (spot_view spot.entry) name.now (names_view self.old)) }
    {
        keep_first(&mut self.bad, !is_legal(name), &self.place, spot)?;
        let was = add_member(&mut self.instruction_set, name)?;
        keep_first(&mut self.twice, was, &self.place, spot)?;
        Ok(())
    }

    fn add_states(&mut self, states: &[WrittenState<'v>]) -> Result<(), NoMemory>
        ensures { IfOk result (λ _. names_view self.new ≡ with_all_data (codes "states") 0 (map (λ d. d.state_name) (map state_view states.now)) (names_view self.old)) }
    {
        for (index, state) in states.iter().enumerate() {
            self.add_data(state.name, Spot::item("states", index, Some(state.name)))?;
        }
        Ok(())
    }

    fn add_inputs(&mut self, inputs: &[WrittenInput<'v>]) -> Result<(), NoMemory>
        ensures { IfOk result (λ _. names_view self.new ≡ with_all_data (codes "inputs") 0 (map (λ i. i.input_name) (map input_view inputs.now)) (names_view self.old)) }
    {
        for (index, input) in inputs.iter().enumerate() {
            self.add_data(input.name, Spot::item("inputs", index, Some(input.name)))?;
        }
        Ok(())
    }

    fn add_definitions(&mut self, definitions: &[Definition<'v>]) -> Result<(), NoMemory>
        ensures { IfOk result (λ _. names_view self.new ≡ with_all_data (codes "define") 0 (map (λ d. d.0) (map definition_view definitions.now)) (names_view self.old)) }
    {
        for (index, definition) in definitions.iter().enumerate() {
            self.add_data(
                definition.name,
                Spot::item("define", index, Some(definition.name)),
            )?;
        }
        Ok(())
    }
}

#[cycle(names)]
fn add_machine<'v>(machine: &WrittenMachine<'v>, names: &mut Names<'v>) -> Result<(), NoMemory>
    ensures { IfOk result (λ _. names_view names.new ≡ names_in (machine_view machine.now) (names_view names.old)) }
{
    names.add_states(&machine.states)?;
    names.add_definitions(&machine.definitions)?;
    for (index, instruction) in machine.instructions.iter().enumerate() {
        add_instruction(instruction, index, names)?;
    }
    Ok(())
}

#[cycle(names)]
fn add_instruction<'v>(
    instruction: &WrittenInstruction<'v>,
    index: usize,
    names: &mut Names<'v>,
) -> Result<(), NoMemory>
    ensures { IfOk result (λ _. names_view names.new ≡ names_of_instruction index (instruction_view instruction.now) (names_view names.old)) }
{
    let name = instruction.name;
    names.add_instruction(name, Spot::item("instructions", index, Some(name)))?;
    match &instruction.child {
        Some(child) => {
            add_child(child, index, names)?;
            Ok(())
        }
        None => Ok(()),
    }
}

#[cycle(names)]
fn add_child<'v>(
    child: &WrittenChild<'v>,
    index: usize,
    names: &mut Names<'v>,
) -> Result<(), NoMemory>
    ensures { IfOk result (λ _. names_view names.new ≡ names_of_child index (child_view child.now) (names_view names.old)) }
{
    names.enter(index)?;
    add_machine(&child.machine, names)?;
    names.leave();
    Ok(())
}

/// The names of a whole model file.
pub(crate) fn judge_names<'v>(
    alloc: Global,
    model: &WrittenModel<'v>,
) -> Result<Names<'v>, NoMemory>
    ensures { IfOk result (λ n. names_view n ≡ names_in_model (model_view model.now)) }
{
    let mut names = Names::new(alloc, model.name)?;
    names.add_inputs(&model.inputs)?;
    add_machine(&model.machine, &mut names)?;
    Ok(names)
}

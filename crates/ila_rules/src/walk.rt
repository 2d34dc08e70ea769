//! The way through the machines of a model file, which judges each of their parts where it stands.

ghost use Rattle.std.specs.Prelude.{◌≡◌, ◌++◌, [], ◌∷◌, ◌-◌, map, IfOk, take, length, Some, None};
ghost use Rattle.model_files.specs.Written as written;
ghost use Rattle.ila_file.specs.View.{sort_view, input_view, state_view, states_view, definition_view, definitions_view, update_view, updates_view, fetch_view, term_view, machine_view, instruction_view, child_view, instructions_view};
ghost use Rattle.ila_rules.specs.Seen.{definition, condition};
ghost use Rattle.ila_rules.specs.Flaws.{with_term, state_flaws, input_flaws, definition_flaws, fetch_flaws, update_flaws, head_flaws, own_flaws, look_states, look_inputs, look_definitions, look_fetch, look_within, states_within, machine_flaws, instructions_flaws, instruction_flaws, child_flaws};
ghost use Rattle.ila_rules.specs.View.{look_of, look_frame, look_frames, states_of, states_frame, states_frames, no_names, flaws_view};

use crate::findings::{Findings, Role};
use crate::scope::{Frame, declared, state_in};
use ila_file::{
    Definition, NoMemory, Spot, WrittenChild, WrittenInput, WrittenInstruction, WrittenMachine,
    WrittenState, WrittenTerm, WrittenUpdate,
};
use std::alloc::Global;

fn add_state<'v>(
    index: usize,
    state: &WrittenState<'v>,
    frame: &mut Frame<'v>,
    findings: &mut Findings,
) -> Result<(), NoMemory>
    ensures flaws { IfOk result (λ _. flaws_view findings.new ≡ state_flaws index (state_view state.now ∷ []) (flaws_view findings.old)) }
    ensures look { IfOk result (λ _. look_frame frame.new ≡ look_states (look_frame frame.old) (state_view state.now ∷ [])) }
    ensures states { IfOk result (λ _. states_frame frame.new ≡ states_within (states_frame frame.old) (state_view state.now ∷ [])) }
{
    let spot = Spot::item("states", index, Some(state.name));
    findings.judge_declared(state.sort, state.initial, spot)?;
    frame.declare(state.name, declared(state.name, state.sort))?;
    frame.add_state(state.name, state.sort)
}

/// Judges the states of a machine, and makes them visible.
fn add_states<'v>(
    states: &[WrittenState<'v>],
    frame: &mut Frame<'v>,
    findings: &mut Findings,
) -> Result<(), NoMemory>
    ensures flaws { IfOk result (λ _. flaws_view findings.new ≡ state_flaws 0 (map state_view states.now) (flaws_view findings.old)) }
    ensures look { IfOk result (λ _. look_frame frame.new ≡ look_states (look_frame frame.old) (map state_view states.now)) }
    ensures states { IfOk result (λ _. states_frame frame.new ≡ states_within (states_frame frame.old) (map state_view states.now)) }
{
    for (index, state) in states.iter().enumerate() {
        add_state(index, state, frame, findings)?;
    }
    Ok(())
}

fn add_definition<'v>(
    index: usize,
    definition: &Definition<'v>,
    frames: &[Frame<'v>],
    frame: &mut Frame<'v>,
    findings: &mut Findings,
) -> Result<(), NoMemory>
    ensures flaws { IfOk result (λ _. flaws_view findings.new ≡ definition_flaws (look_of frames.now frame.old) index (definition_view definition.now ∷ []) (flaws_view findings.old)) }
    ensures look { IfOk result (λ _. look_of frames.now frame.new ≡ look_definitions (look_of frames.now frame.old) (definition_view definition.now ∷ [])) }
    ensures states { IfOk result (λ _. states_frame frame.new ≡ states_frame frame.old) }
{
    let spot = Spot::item("define", index, Some(definition.name));
    let seen = findings.judge_term(&definition.term, Role::Definition, frames, frame, spot)?;
    frame.declare(definition.name, seen)?;
    Ok(())
}

/// Judges the definitions of a machine, and makes each visible to those after it.
fn add_definitions<'v>(
    definitions: &[Definition<'v>],
    frames: &[Frame<'v>],
    frame: &mut Frame<'v>,
    findings: &mut Findings,
) -> Result<(), NoMemory>
    ensures flaws { IfOk result (λ _. flaws_view findings.new ≡ definition_flaws (look_of frames.now frame.old) 0 (map definition_view definitions.now) (flaws_view findings.old)) }
    ensures look { IfOk result (λ _. look_of frames.now frame.new ≡ look_definitions (look_of frames.now frame.old) (map definition_view definitions.now)) }
    ensures states { IfOk result (λ _. states_frame frame.new ≡ states_frame frame.old) }
{
    for (index, definition) in definitions.iter().enumerate() {
        add_definition(index, definition, frames, frame, findings)?;
    }
    Ok(())
}

/// Judges the states and definitions of a machine, and gives the frame of their names.
fn own_frame<'v>(
    alloc: Global,
    states: &[WrittenState<'v>],
    definitions: &[Definition<'v>],
    frames: &[Frame<'v>],
    findings: &mut Findings,
) -> Result<Frame<'v>, NoMemory>
    ensures flaws { IfOk result (λ _. flaws_view findings.new ≡ definition_flaws (look_states (look_frames frames.now) (map state_view states.now)) 0 (map definition_view definitions.now) (state_flaws 0 (map state_view states.now) (flaws_view findings.old))) }
    ensures look { IfOk result (λ f. look_of frames.now f ≡ look_within (look_frames frames.now) (map state_view states.now) (map definition_view definitions.now)) }
    ensures states { IfOk result (λ f. states_of frames.now f ≡ states_within (states_frames frames.now) (map state_view states.now)) }
{
    let mut frame = Frame::new(alloc);
    add_states(states, &mut frame, findings)?;
    add_definitions(definitions, frames, &mut frame, findings)?;
    Ok(frame)
}

/// Judges a fetch term, and gives the frame of the name `fetch`.
fn frame_of_fetch<'v>(
    alloc: Global,
    term: &WrittenTerm<'v>,
    frames: &[Frame<'v>],
    findings: &mut Findings,
) -> Result<Frame<'v>, NoMemory>
    ensures flaws { IfOk result (λ _. flaws_view findings.new ≡ fetch_flaws (look_frames frames.now) (Some (term_view term.now)) (flaws_view findings.old)) }
    ensures look { IfOk result (λ f. look_of frames.now f ≡ look_fetch (look_frames frames.now) (Some (term_view term.now))) }
{
    let mut last = Frame::new(alloc);
    let seen = findings.judge_term(term, Role::Fetch, frames, &last, Spot::key("fetch"))?;
    last.declare("fetch", seen)?;
    Ok(last)
}

/// Judges the fetch term of a machine, if it has one, and gives the frame of the name `fetch`.
fn fetch_frame<'v>(
    alloc: Global,
    fetch: &Option<WrittenTerm<'v>>,
    frames: &[Frame<'v>],
    findings: &mut Findings,
) -> Result<Frame<'v>, NoMemory>
    ensures flaws { IfOk result (λ _. flaws_view findings.new ≡ fetch_flaws (look_frames frames.now) (fetch_view fetch.now) (flaws_view findings.old)) }
    ensures look { IfOk result (λ f. look_of frames.now f ≡ look_fetch (look_frames frames.now) (fetch_view fetch.now)) }
{
    match fetch {
        Some(term) => frame_of_fetch(alloc, term, frames, findings),
        None => Ok(Frame::new(alloc)),
    }
}

/// Judges a machine but for its instructions, makes its names visible, and gives the frame of the name `fetch`.
fn enter<'v>(
    states: &[WrittenState<'v>],
    definitions: &[Definition<'v>],
    fetch: &Option<WrittenTerm<'v>>,
    valid: &WrittenTerm<'v>,
    frames: &mut Vec<Frame<'v>>,
    findings: &mut Findings,
) -> Result<Frame<'v>, NoMemory>
    ensures flaws { IfOk result (λ _. flaws_view findings.new ≡ head_flaws (look_frames frames.old.items) (map state_view states.now) (map definition_view definitions.now) (fetch_view fetch.now) (term_view valid.now) (flaws_view findings.old)) }
    ensures inner { IfOk result (λ _. look_frames frames.new.items ≡ look_within (look_frames frames.old.items) (map state_view states.now) (map definition_view definitions.now)) }
    ensures look { IfOk result (λ f. look_of frames.new.items f ≡ look_fetch (look_within (look_frames frames.old.items) (map state_view states.now) (map definition_view definitions.now)) (fetch_view fetch.now)) }
    ensures states { IfOk result (λ _. states_frames frames.new.items ≡ states_within (states_frames frames.old.items) (map state_view states.now)) }
    ensures outer { IfOk result (λ _. take (length frames.new.items - 1) frames.new.items ≡ frames.old.items) }
{
    let alloc = findings.alloc;
    let frame = own_frame(alloc, states, definitions, frames, findings)?;
    frames.push(frame)?;
    let last = fetch_frame(alloc, fetch, frames, findings)?;
    let spot = Spot::key("valid");
    findings.judge_term(valid, Role::Condition, frames, &last, spot)?;
    Ok(last)
}

fn judge_update<'v>(
    index: usize,
    name: &'v str,
    update: &WrittenUpdate<'v>,
    frames: &[Frame<'v>],
    last: &Frame<'v>,
    findings: &mut Findings,
) -> Result<(), NoMemory>
    ensures { IfOk result (λ _. flaws_view findings.new ≡ update_flaws (look_of frames.now last.now) (states_frames frames.now) index name.now (update_view update.now ∷ []) (flaws_view findings.old)) }
{
    let spot = Spot::item("instructions", index, Some(name)).part("update");
    let role = Role::Update(update.state, state_in(frames, update.state));
    findings.judge_term(&update.term, role, frames, last, spot.member(update.state))?;
    Ok(())
}

fn judge_updates<'v>(
    index: usize,
    name: &'v str,
    updates: &[WrittenUpdate<'v>],
    frames: &[Frame<'v>],
    last: &Frame<'v>,
    findings: &mut Findings,
) -> Result<(), NoMemory>
    ensures { IfOk result (λ _. flaws_view findings.new ≡ update_flaws (look_of frames.now last.now) (states_frames frames.now) index name.now (map update_view updates.now) (flaws_view findings.old)) }
{
    for update in updates {
        judge_update(index, name, update, frames, last, findings)?;
    }
    Ok(())
}

/// Judges the decode condition and the updates of an instruction.
fn judge_own<'v>(
    index: usize,
    name: &'v str,
    decode: &WrittenTerm<'v>,
    updates: &[WrittenUpdate<'v>],
    frames: &[Frame<'v>],
    last: &Frame<'v>,
    findings: &mut Findings,
) -> Result<(), NoMemory>
    ensures { IfOk result (λ _. flaws_view findings.new ≡ own_flaws (look_of frames.now last.now) (states_frames frames.now) index name.now (term_view decode.now) (map update_view updates.now) (flaws_view findings.old)) }
{
    let spot = Spot::item("instructions", index, Some(name)).part("decode");
    findings.judge_term(decode, Role::Condition, frames, last, spot)?;
    judge_updates(index, name, updates, frames, last, findings)
}

#[cycle(walk)]
fn judge_instruction<'v>(
    instruction: &WrittenInstruction<'v>,
    index: usize,
    frames: &mut Vec<Frame<'v>>,
    last: &Frame<'v>,
    findings: &mut Findings,
) -> Result<(), NoMemory>
    ensures flaws { IfOk result (λ _. flaws_view findings.new ≡ instruction_flaws (look_frames frames.old.items) (look_of frames.old.items last.now) (states_frames frames.old.items) index (instruction_view instruction.now) (flaws_view findings.old)) }
    ensures frames { IfOk result (λ _. frames.new.items ≡ frames.old.items) }
{
    judge_own(
        index,
        instruction.name,
        &instruction.decode,
        &instruction.updates,
        frames,
        last,
        findings,
    )?;
    match &instruction.child {
        Some(child) => {
            judge_child(child, index, frames, findings)?;
            Ok(())
        }
        None => Ok(()),
    }
}

#[cycle(walk)]
fn judge_child<'v>(
    child: &WrittenChild<'v>,
    index: usize,
    frames: &mut Vec<Frame<'v>>,
    findings: &mut Findings,
) -> Result<(), NoMemory>
    ensures flaws { IfOk result (λ _. flaws_view findings.new ≡ child_flaws (look_frames frames.old.items) (states_frames frames.old.items) index (child_view child.now) (flaws_view findings.old)) }
    ensures frames { IfOk result (λ _. frames.new.items ≡ frames.old.items) }
{
    findings.enter(index)?;
    judge_machine(&child.machine, frames, findings)?;
    findings.leave();
    Ok(())
}

/// Judges the states and the terms of a machine and of the child programs in it.
#[cycle(walk)]
pub(crate) fn judge_machine<'v>(
    machine: &WrittenMachine<'v>,
    frames: &mut Vec<Frame<'v>>,
    findings: &mut Findings,
) -> Result<(), NoMemory>
    ensures flaws { IfOk result (λ _. flaws_view findings.new ≡ machine_flaws (look_frames frames.old.items) (states_frames frames.old.items) (machine_view machine.now) (flaws_view findings.old)) }
    ensures frames { IfOk result (λ _. frames.new.items ≡ frames.old.items) }
{
    let last = enter(
        &machine.states,
        &machine.definitions,
        &machine.fetch,
        &machine.valid,
        frames,
        findings,
    )?;
    for (index, instruction) in machine.instructions.iter().enumerate() {
        judge_instruction(instruction, index, frames, &last, findings)?;
    }
    frames.pop();
    Ok(())
}

fn add_input<'v>(
    index: usize,
    input: &WrittenInput<'v>,
    frame: &mut Frame<'v>,
    findings: &mut Findings,
) -> Result<(), NoMemory>
    ensures flaws { IfOk result (λ _. flaws_view findings.new ≡ input_flaws index (input_view input.now ∷ []) (flaws_view findings.old)) }
    ensures look { IfOk result (λ _. look_frame frame.new ≡ look_inputs (look_frame frame.old) (input_view input.now ∷ [])) }
    ensures states { IfOk result (λ _. states_frame frame.new ≡ states_frame frame.old) }
{
    let spot = Spot::item("inputs", index, Some(input.name));
    findings.judge_declared(input.sort, None, spot)?;
    frame.declare(input.name, declared(input.name, input.sort))
}

/// Judges the inputs of a model, and gives the frame of their names.
pub(crate) fn input_frame<'v>(
    alloc: Global,
    inputs: &[WrittenInput<'v>],
    findings: &mut Findings,
) -> Result<Frame<'v>, NoMemory>
    ensures flaws { IfOk result (λ _. flaws_view findings.new ≡ input_flaws 0 (map input_view inputs.now) (flaws_view findings.old)) }
    ensures look { IfOk result (λ f. look_frame f ≡ look_inputs no_names (map input_view inputs.now)) }
    ensures states { IfOk result (λ f. states_frame f ≡ (λ n. None)) }
{
    let mut frame = Frame::new(alloc);
    for (index, input) in inputs.iter().enumerate() {
        add_input(index, input, &mut frame, findings)?;
    }
    Ok(frame)
}

//! A model that takes one step after another, with its state kept in place.

ghost use Rattle.std.specs.Prelude.{◌≡◌, ◌<◌, ◌≤◌, ◌++◌, None, IfOk, OnOk, length, map, take, drop, slice_index_or};
ghost use Rattle.wb_terms.specs.Graph.{Graph};
ghost use Rattle.wb_terms.specs.Environment.{AreOfSorts, as_value};
ghost use Rattle.wb_values.specs.Value.{number};
ghost use Rattle.term_evaluation.specs.Points.{IsPointOf};
ghost use Rattle.term_evaluation.specs.Slots.{IsShownAs};
ghost use Rattle.ila_model.specs.Model.{model_of};
ghost use Rattle.ila_child.specs.State.{IsStateOf, AreInputsOf};
ghost use Rattle.ila_child.specs.Running.{seen};
ghost use Rattle.ila_child.specs.Step.{IsStepped};
ghost use Rattle.ila_child.specs.Start.{zeros_of, stop_of, IsStart, IsGoingOn};
ghost use Rattle.ila_child.specs.Runs.{IsRunnerOf, state_in, stepped_of, Stays, with_values};

use crate::decoding::{Decoded, find_decoded};
use crate::evaluation::holds_at;
use crate::running::{Trouble, run_program};
use crate::states::{Inputs, State};
use crate::stepping::Stepped;
use crate::updating::update;
use ila_model::IlaModel;
use std::alloc::Global;
use term_evaluation::{Point, SharedValues, Shown};
use wb_terms::{NameId, NoMemory, Terms, Value};

/// What a model does at its state under inputs. Instructions are named by their places in the model's order, from 0. The
/// outermost child program has depth 1, and its steps count from 0 at each entry.
#[derive(Clone, Copy, Debug)]
pub enum Moved {
    /// This instruction starts, its child programs run to their ends, and the state is the one that it leads to.
    Next(usize),
    /// The valid condition does not hold.
    NotValid,
    /// No instruction decodes.
    NoInstruction,
    /// Several instructions decode; these are the first two.
    Several(usize, usize),
    /// An instruction starts, and in the child at this depth not exactly one decode condition holds at this step.
    ChildStuck(u32, u32),
    /// An instruction starts, and the valid condition of the child at this depth still holds after its limit of steps.
    ChildTooLong(u32),
}

/// A model in a state.
#[derive(Drop)]
pub struct Runner {
    pub(crate) point: Point,
}

impl Runner {
    /// The model in a state.
    pub fn new(alloc: Global, model: &IlaModel, state: &State) -> Result<Runner, NoMemory>
        requires { IsStateOf (model_of model.now) state.now }
        ensures made { IfOk result (IsRunnerOf model.now.parts) }
        ensures state { IfOk result (λ r. state_in model.now.parts r ≡ state.now) }
    {
        let point = first_point(alloc, model, state)?;
        Ok(Runner { point })
    }

    /// Takes a step. Where there is no next state the state stays. Of troubles in child programs the first in the order of execution
    /// is answered.
    pub fn step(
        &mut self,
        alloc: Global,
        model: &IlaModel,
        inputs: &Inputs,
    ) -> Result<Moved, NoMemory>
        requires made { IsRunnerOf model.now.parts self.old }
        requires inputs { AreInputsOf (model_of model.now) inputs.now }
        ensures made { OnOk result (IsRunnerOf model.now.parts self.new) }
        ensures stepped { IfOk result (λ a. IsStepped (model_of model.now) (state_in model.now.parts self.old) inputs.now (stepped_of a (state_in model.now.parts self.new))) }
        ensures stays { IfOk result (λ a. Stays a (state_in model.now.parts self.old) (state_in model.now.parts self.new)) }
    {
        let terms = &model.parts.terms;
        set_inputs(alloc, model, &mut self.point, inputs.values())?;
        self.point.let_go(alloc)?;
        let is_valid = holds_at(terms, &mut self.point, model.parts.valid)?;
        if !is_valid {
            return Ok(Moved::NotValid);
        }
        let decoded = find_decoded(terms, &mut self.point, &model.parts.instructions)?;
        match decoded {
            Decoded::Nothing => Ok(Moved::NoInstruction),
            Decoded::Several(first, second) => Ok(Moved::Several(first, second)),
            Decoded::One(place) => {
                let moved = start_or_stay(alloc, model, place, &mut self.point)?;
                Ok(moved)
            }
        }
    }

    /// What is shown of the value of a state.
    pub fn shown(&self, alloc: Global, place: usize) -> Result<Shown, NoMemory>
        requires { place < length self.now.point.values }
        ensures { IfOk result (IsShownAs (slice_index_or self.now.point.values place (number 0))) }
    {
        self.point.shown(alloc, place)
    }

    /// The state.
    pub fn into_state(self, model: &IlaModel) -> State
        requires { IsRunnerOf model.now.parts self }
        ensures { result ≡ state_in model.now.parts self }
    {
        let mut values = self.point.into_values();
        values.truncate(model.state_count());
        State::new(values)
    }

    /// The answer of the step that was taken last, with a copy of the state after it.
    pub fn answer(&self, alloc: Global, model: &IlaModel, moved: Moved) -> Result<Stepped, NoMemory>
        requires { IsRunnerOf model.now.parts self.now }
        ensures { IfOk result (λ a. a ≡ stepped_of moved (state_in model.now.parts self.now)) }
    {
        match moved {
            Moved::Next(place) => {
                let state = self.state(alloc, model)?;
                Ok(Stepped::Next(place, state))
            }
            Moved::NotValid => Ok(Stepped::NotValid),
            Moved::NoInstruction => Ok(Stepped::NoInstruction),
            Moved::Several(first, second) => Ok(Stepped::Several(first, second)),
            Moved::ChildStuck(depth, step) => Ok(Stepped::ChildStuck(depth, step)),
            Moved::ChildTooLong(depth) => Ok(Stepped::ChildTooLong(depth)),
        }
    }

    /// A copy of the state.
    pub fn state(&self, alloc: Global, model: &IlaModel) -> Result<State, NoMemory>
        requires { IsRunnerOf model.now.parts self.now }
        ensures { IfOk result (λ q. q ≡ state_in model.now.parts self.now) }
    {
        let mut values = self.point.values(alloc)?;
        values.truncate(model.state_count());
        Ok(State::new(values))
    }
}

/// The point at which the names of the states have the values of a state, and all others those of zeros.
pub(crate) fn first_point(alloc: Global, model: &IlaModel, state: &State) -> Result<Point, NoMemory>
    requires { IsStateOf (model_of model.now) state.now }
    ensures values { IfOk result (λ x. x.values ≡ state.now ++ zeros_of (drop (length state.now) model.now.parts.terms.names)) }
    ensures point { IfOk result (IsPointOf model.now.parts.terms) }
{
    let mut values = state.values().copy(alloc)?;
    push_zeros(&model.parts.terms, &mut values)?;
    let point = Point::new(alloc, &model.parts.terms, values)?;
    Ok(point)
}

/// Appends the zeros of the names after those that have values.
fn push_zeros(terms: &Terms, values: &mut SharedValues) -> Result<(), NoMemory>
    ensures { OnOk result (values.new ≡ values.old ++ zeros_of (drop (length values.old) terms.now.names)) }
{
    for place in values.len()..terms.name_count() as usize {
        values.push_zero(terms.name_sort(NameId(place)))?;
    }
    Ok(())
}

/// Gives the names of the inputs their values.
pub(crate) fn set_inputs(
    alloc: Global,
    model: &IlaModel,
    point: &mut Point,
    values: &[Value],
) -> Result<(), NoMemory>
    requires inputs { AreInputsOf (model_of model.now) (map as_value values.now) }
    requires fits { AreOfSorts model.now.parts.terms.names point.old.values }
    requires point { IsPointOf model.now.parts.terms point.old }
    ensures values { OnOk result (point.new.values ≡ with_values (length model.now.parts.initial_values.items) (map as_value values.now) point.old.values) }
    ensures fits { OnOk result (AreOfSorts model.now.parts.terms.names point.new.values) }
    ensures aside { point.new.aside ≡ point.old.aside }
    ensures point { OnOk result (IsPointOf model.now.parts.terms point.new) }
{
    let terms = &model.parts.terms;
    let _names = terms.name_count();
    let first = model.state_count();
    for k in 0..values.len() {
        let place = first + k;
        point.set(place, &values[k], terms.name_sort(NameId(place)))?;
    }
    Ok(())
}

/// What the instruction at a place does, whether or not it decodes. Where it leads nowhere the state stays.
pub(crate) fn start_or_stay(
    alloc: Global,
    model: &IlaModel,
    place: usize,
    point: &mut Point,
) -> Result<Moved, NoMemory>
    requires place { place < length model.now.parts.instructions.items }
    requires point { IsPointOf model.now.parts.terms point.old }
    requires fits { AreOfSorts model.now.parts.terms.names point.old.values }
    ensures started { IfOk result (λ a. IsStart model.now.parts (seen model.now.parts None point.old.values) place (stepped_of a (take (length model.now.parts.initial_values.items) point.new.values))) }
    ensures stays { IfOk result (λ a. Stays a (take (length model.now.parts.initial_values.items) point.old.values) (take (length model.now.parts.initial_values.items) point.new.values)) }
    ensures point { OnOk result (IsPointOf model.now.parts.terms point.new) }
    ensures fits { OnOk result (AreOfSorts model.now.parts.terms.names point.new.values) }
{
    point.forget(0);
    let count = model.state_count();
    keep_states(point, count)?;
    let trouble = start(alloc, model, place, point)?;
    match trouble {
        None => Ok(Moved::Next(place)),
        Some(trouble) => {
            put_back(point, count);
            Ok(stopped(trouble))
        }
    }
}

/// What the instruction at a place does, whether or not it decodes: its updates and its child program.
fn start(
    alloc: Global,
    model: &IlaModel,
    place: usize,
    point: &mut Point,
) -> Result<Option<Trouble>, NoMemory>
    requires place { place < length model.now.parts.instructions.items }
    requires point { IsPointOf model.now.parts.terms point.old }
    requires fits { AreOfSorts model.now.parts.terms.names point.old.values }
    ensures started { IfOk result (IsGoingOn model.now.parts (seen model.now.parts None point.old.values) place point.new.values) }
    ensures aside { OnOk result (point.new.aside ≡ point.old.aside) }
    ensures point { OnOk result (IsPointOf model.now.parts.terms point.new) }
    ensures fits { OnOk result (AreOfSorts model.now.parts.terms.names point.new.values) }
{
    let instruction = &model.parts.instructions[place];
    update(&model.parts.terms, point, &instruction.updates)?;
    let trouble = run_program(alloc, model, None, 0, instruction.child, point)?;
    Ok(trouble)
}

/// Puts the values of the first names aside.
fn keep_states(point: &mut Point, count: usize) -> Result<(), NoMemory>
    requires { count ≤ length point.old.values }
    ensures aside { OnOk result (point.new.aside ≡ point.old.aside ++ take count point.old.values) }
    ensures values { point.new.values ≡ point.old.values }
    ensures point { (g : Graph) → IsPointOf g point.old → IsPointOf g point.new }
{
    for k in 0..count {
        point.keep_name(k)?;
    }
    Ok(())
}

/// Gives the first names the values that were put aside first.
fn put_back(point: &mut Point, count: usize)
    requires values { count ≤ length point.old.values }
    requires kept { count ≤ length point.old.aside }
    ensures values { point.new.values ≡ take count point.old.aside ++ drop count point.old.values }
    ensures aside { point.new.aside ≡ point.old.aside }
    ensures point { (g : Graph) → IsPointOf g point.old → IsPointOf g point.new }
{
    for k in 0..count {
        point.put(k, k);
    }
}

/// The answer where a child has trouble.
fn stopped(trouble: Trouble) -> Moved
    ensures { result ≡ stop_of trouble }
{
    match trouble {
        Trouble::Stuck(depth, step) => Moved::ChildStuck(depth, step),
        Trouble::TooLong(depth) => Moved::ChildTooLong(depth),
    }
}

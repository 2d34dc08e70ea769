//! Within how many cycles instructions of emitted designs end, and how deep their child programs nest.

ghost use Rattle.std.specs.Prelude.{◌≡◌, ◌<◌, ◌≤◌, length, option_map, slice_get, MatchOption};
ghost use Rattle.model_meaning.specs.Model.{instructions_in, no_child};
ghost use Rattle.ila_model.specs.Scope.{nesting};
ghost use Rattle.ila_model.specs.Model.{model_of};
ghost use Rattle.emitted_designs.specs.Bounds.{instruction_bound, child_bound, bound_among, greatest_bound, nesting_of, nesting_among, nesting_of_child, has_children};
ghost use Rattle.emitted_maps.specs.Programs.{program_within, instructions_within, most_within, IsProgram};

use ila_model::{Child, ChildId, IlaModel, Instruction};

/// How many child programs of a model are around one another at most, the innermost included.
const LEVELS: u32 = 3;

/// The child program with this id, if there is one, and at least one level of children counts.
fn child_within(model: &IlaModel, levels: u32, child: Option<ChildId>) -> Option<&Child>
    ensures { MatchOption result (program_within model.now.parts levels child ≡ no_child) (λ c. IsProgram model.now.parts levels child c.now) }
{
    if levels == 0 {
        return None;
    }
    match child {
        Some(id) => model.parts.children.get(id.0),
        None => None,
    }
}

/// The bound of an instruction with this child, if any, where so many levels of children count.
#[cycle(bound)]
fn child_bound(model: &IlaModel, levels: u32, child: Option<ChildId>) -> u64
    requires { levels ≤ 3 }
    ensures value { result ≡ child_bound (program_within model.now.parts levels child) }
    ensures within { result ≤ most_within levels }
{
    match child_within(model, levels, child) {
        Some(program) => {
            let greatest = bound_among(model, levels - 1, &program.instructions);
            2 + program.steps as u64 * greatest
        }
        None => 1,
    }
}

/// The greatest bound of the instructions, 1 if there are none, where so many levels of children count.
#[cycle(bound)]
fn bound_among(model: &IlaModel, levels: u32, instructions: &[Instruction]) -> u64
    requires { levels ≤ 3 }
    ensures value { result ≡ bound_among (instructions_within model.now.parts levels instructions.now) }
    ensures within { result ≤ most_within levels }
{
    let mut greatest = 1;
    for instruction in instructions {
        let bound = child_bound(model, levels, instruction.child);
        greatest = bound.max(greatest);
    }
    greatest
}

/// The bound of an instruction of the model with this child, if any.
pub(crate) fn bound_of(model: &IlaModel, child: Option<ChildId>) -> u64
    ensures { result ≡ child_bound (program_within model.now.parts nesting child) }
{
    child_bound(model, LEVELS, child)
}

/// Within how many cycles an instruction of the model ends, by its place in their order.
pub fn instruction_bound(model: &IlaModel, place: usize) -> u64
    requires { place < length (instructions_in (model_of model.now).top) }
    ensures { option_map instruction_bound (slice_get (instructions_in (model_of model.now).top) place) ≡ Some result }
{
    bound_of(model, model.parts.instructions[place].child)
}

/// The greatest bound of the model's instructions.
pub fn greatest_bound(model: &IlaModel) -> u64
    ensures { result ≡ greatest_bound (model_of model.now) }
{
    bound_among(model, LEVELS, &model.parts.instructions)
}

/// How many levels of child programs an instruction with this child, if any, has, where so many levels count.
#[cycle(nesting)]
fn nesting_of_child(model: &IlaModel, levels: u32, child: Option<ChildId>) -> u32
    ensures value { result ≡ nesting_of_child (program_within model.now.parts levels child) }
    ensures within { result ≤ levels }
{
    match child_within(model, levels, child) {
        Some(program) => {
            let inner = nesting_among(model, levels - 1, &program.instructions);
            inner + 1
        }
        None => 0,
    }
}

/// How many levels of child programs the instructions have, where so many levels count.
#[cycle(nesting)]
fn nesting_among(model: &IlaModel, levels: u32, instructions: &[Instruction]) -> u32
    ensures value { result ≡ nesting_among (instructions_within model.now.parts levels instructions.now) }
    ensures within { result ≤ levels }
{
    let mut deepest = 0;
    for instruction in instructions {
        let depth = nesting_of_child(model, levels, instruction.child);
        deepest = depth.max(deepest);
    }
    deepest
}

/// How many levels of child programs the model has.
pub fn nesting_of(model: &IlaModel) -> u32
    ensures { result ≡ nesting_of (model_of model.now).top }
{
    nesting_among(model, LEVELS, &model.parts.instructions)
}

/// Whether an instruction of the model has a child program.
pub fn has_children(model: &IlaModel) -> bool
    ensures { result ≡ has_children (model_of model.now) }
{
    nesting_of(model) > 0
}

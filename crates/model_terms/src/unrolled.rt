//! How many steps the child programs of an instruction take at most.

ghost use Rattle.std.specs.Prelude.{◌≡◌, ◌-◌, ◌<◌, ◌≤◌, Some, slice_get, option_map, length};
ghost use Rattle.model_meaning.specs.Model.{instructions_in};
ghost use Rattle.model_results.specs.Results.{unrolled, unrolled_child};
ghost use Rattle.ila_model.specs.Model.{model_of};
ghost use Rattle.ila_child.specs.Running.{HasDepth, IsLinked, program_in};
ghost use Rattle.model_terms.specs.Unrolled.{most_at};

use ila_model::{ChildId, IlaModel};

/// How many steps of the innermost programs the program, if any, takes at most, which is run from a place of this depth, 0 for the top.
fn unrolled_program(
    model: &IlaModel,
    at: Option<usize>,
    depth: u32,
    program: Option<ChildId>,
) -> u64
    requires depth { HasDepth model.now.parts.children.items depth at }
    requires low { depth ≤ 3 }
    requires linked { IsLinked model.now.parts.children.items at program }
    ensures value { result ≡ unrolled_child (program_in model.now.parts depth program) }
    ensures bound { result ≤ most_at (3 - depth) }
{
    let Some(id) = program else {
        return 0;
    };
    let child = &model.parts.children[id.0];
    let mut most = 1;
    for done in 0..child.instructions.len() {
        let instruction = &child.instructions[child.instructions.len() - 1 - done];
        let inner = unrolled_program(model, Some(id.0), depth + 1, instruction.child);
        most = inner.max(most);
    }
    child.steps as u64 * most
}

/// How many steps of the innermost programs instruction number `number` of the model takes at most: 0 where it has no child program.
pub fn unrolled_steps(model: &IlaModel, number: usize) -> u64
    requires { number < length (instructions_in (model_of model.now).top) }
    ensures { option_map unrolled (slice_get (instructions_in (model_of model.now).top) number) ≡ Some result }
{
    let instruction = &model.parts.instructions[number];
    unrolled_program(model, None, 0, instruction.child)
}

//! The parts of machines and instructions as they are written, as their views have them.

ghost use Rattle.std.specs.Prelude.{◌≡◌, map};
ghost use Rattle.model_files.specs.Written.{states_in};
ghost use Rattle.ila_file.specs.View.{definition_view, fetch_view, instruction_view, instructions_view, machine_view, state_view, term_view, update_view};
ghost use Rattle.ila_build.specs.Building.{called_in, decode_in, definitions_in, fetch_in, own_instructions, update_in, valid_in};

use ila_file::{
    Definition, WrittenInstruction, WrittenMachine, WrittenState, WrittenTerm, WrittenUpdate,
};

/// The instruction's name.
pub(crate) fn name_of<'v>(written: &WrittenInstruction<'v>) -> &'v str
    ensures { result.now ≡ called_in (instruction_view written.now) }
{
    written.name
}

/// The instruction's decode condition.
pub(crate) fn decode_of<'w, 'v>(written: &'w WrittenInstruction<'v>) -> &'w WrittenTerm<'v>
    ensures { term_view result.now ≡ decode_in (instruction_view written.now) }
{
    &written.decode
}

/// The instruction's updates.
pub(crate) fn updates_of<'w, 'v>(written: &'w WrittenInstruction<'v>) -> &'w [WrittenUpdate<'v>]
    ensures { map update_view result.now ≡ update_in (instruction_view written.now) }
{
    &written.updates
}

/// The machine's definitions.
pub(crate) fn definitions_of<'w, 'v>(written: &'w WrittenMachine<'v>) -> &'w [Definition<'v>]
    ensures { map definition_view result.now ≡ definitions_in (machine_view written.now) }
{
    &written.definitions
}

/// The machine's fetch.
pub(crate) fn fetch_of<'w, 'v>(written: &'w WrittenMachine<'v>) -> &'w Option<WrittenTerm<'v>>
    ensures { fetch_view result.now ≡ fetch_in (machine_view written.now) }
{
    &written.fetch
}

/// The machine's valid condition.
pub(crate) fn valid_of<'w, 'v>(written: &'w WrittenMachine<'v>) -> &'w WrittenTerm<'v>
    ensures { term_view result.now ≡ valid_in (machine_view written.now) }
{
    &written.valid
}

/// The machine's instructions.
pub(crate) fn instructions_of<'w, 'v>(
    written: &'w WrittenMachine<'v>,
) -> &'w [WrittenInstruction<'v>]
    ensures { instructions_view result.now ≡ own_instructions (machine_view written.now) }
{
    &written.instructions
}

/// The machine's states.
pub fn states_of<'w, 'v>(written: &'w WrittenMachine<'v>) -> &'w [WrittenState<'v>]
    ensures { map state_view result.now ≡ states_in (machine_view written.now) }
{
    &written.states
}

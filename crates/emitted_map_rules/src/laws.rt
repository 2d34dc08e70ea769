//! What the map of an emitted design breaks over an emitted module: no rule.
ghost use Rattle.emitted_map_rules.specs.Rules.{EmittedExpressionsAreGood, EmittedMemoriesMatch, EmittedWidthsMatch, FlatMapsAreAccepted, FlatMapsBreakNone, FlatMapsUseNoInput};

use emitted_modules::laws::flat_models_are_emitted;
use map_expressions::laws::a_text_is_read_as_one_expression;
use map_texts::laws::{emitted_maps_are_read, emitted_maps_name_all, emitted_maps_stand};

/// Each state and input is mapped to as many bits as it has.
pub fn emitted_widths_match()
    ensures { EmittedWidthsMatch }
{
    a_text_is_read_as_one_expression();
}

/// Each memory is mapped to a memory of its shape.
pub fn emitted_memories_match()
    ensures { EmittedMemoriesMatch }
{}

/// No expression of the map is bad.
pub fn emitted_expressions_are_good()
    ensures { EmittedExpressionsAreGood }
{
    a_text_is_read_as_one_expression();
}

/// No state of a model without child programs is mapped to what depends on an input.
pub fn flat_maps_use_no_input()
    ensures { FlatMapsUseNoInput }
{
    a_text_is_read_as_one_expression();
}

/// The map of a model without child programs breaks no rule on expressions over the model's emitted module.
pub fn flat_maps_break_none()
    ensures { FlatMapsBreakNone }
{
    flat_models_are_emitted();
    emitted_widths_match();
    emitted_memories_match();
    emitted_expressions_are_good();
    flat_maps_use_no_input();
}

/// The text of such a map is accepted for the model and the module.
pub fn flat_maps_are_accepted()
    ensures { FlatMapsAreAccepted }
{
    flat_maps_break_none();
    emitted_maps_are_read();
    emitted_maps_name_all();
    emitted_maps_stand();
}

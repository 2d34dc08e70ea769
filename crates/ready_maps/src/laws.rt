//! The laws, each the contract of a function without code.
ghost use Rattle.ready_maps.specs.Accepted.{AcceptedMapsAreReady, TextsAreShapely};

use accepted_maps::laws::accepted_maps_are_still;
use input_free::laws::states_and_invariants_do_not_depend_on_inputs;

/// In an expression that a text is read as each number fits its width, and parts have bits.
pub fn texts_are_shapely()
    ensures { TextsAreShapely }
{}

/// What is asked of a map whose expressions are brought to terms holds of an accepted one.
pub fn accepted_maps_are_ready()
    ensures { AcceptedMapsAreReady }
{
    texts_are_shapely();
    accepted_maps_are_still();
    states_and_invariants_do_not_depend_on_inputs();
}

//! That a model that is kept as terms is sound.

ghost use Rattle.ila_model.specs.Model.{model_of};
ghost use Rattle.ready_maps.specs.Accepted.{IsSoundModel};

use ila_model::IlaModel;

/// The model is sound: it keeps the rules on models, its states have legal sorts, and no input is a memory. Each state is looked at once,
/// and nothing is changed.
pub(crate) fn model_is_sound(model: &IlaModel)
    ensures { IsSoundModel (model_of model.now) }
{
    for place in 0..model.state_count() {
        model.state_sort(place);
    }
}

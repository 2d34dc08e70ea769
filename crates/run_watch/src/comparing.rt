//! Values compared: with one another, and with stated ones.

ghost use Rattle.std.specs.Prelude.{◌≡◌, length};
ghost use Rattle.model_meaning.specs.Model.{states_of};
ghost use Rattle.ila_model.specs.Model.{model_of};
ghost use Rattle.run_watch.specs.Comparing.{IsFirstDifference, IsFirstOtherStated};

use ila_model::IlaModel;
use term_evaluation::SharedValues;

/// The first place at which two lists of values differ.
pub(crate) fn first_difference(xs: &SharedValues, ys: &SharedValues) -> Option<usize>
    requires { length xs.now ≡ length ys.now }
    ensures { IsFirstDifference xs.now ys.now result }
{
    for k in 0..xs.len() {
        if !xs.is_same_at(k, ys, k) {
            return Some(k);
        }
    }
    None
}

/// The first state that has another value than the one that is stated for it.
pub(crate) fn first_other_stated(model: &IlaModel, values: &SharedValues) -> Option<usize>
    requires { length values.now ≡ length (states_of (model_of model.now).top) }
    ensures { IsFirstOtherStated (states_of (model_of model.now).top) values.now result }
{
    for k in 0..values.len() {
        match model.initial_value(k) {
            Some(stated) => {
                if !values.is_value_at(k, stated) {
                    return Some(k);
                }
            }
            None => {}
        }
    }
    None
}

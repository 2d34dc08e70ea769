//! A law about places, the contract of a function without code.
ghost use Rattle.std.specs.Prelude.{◌≡◌, is_some, is_none};
ghost use Rattle.serde_json.specs.Data.{Data};
ghost use Rattle.model_files.specs.Shape.{model_in};
ghost use Rattle.model_places.specs.ShapePlaces.{shape_note};

/// A file's data has a place at which something of another kind stands exactly where it is no written model.
pub fn a_misfit_stands_where_no_model_is_written()
    ensures { (d : Data) → is_none (shape_note d) ≡ is_some (model_in d) }
{}

//! The model that a written one stands for, where no rule refuses it.

ghost use Rattle.std.specs.Prelude.{◌≡◌, ◌≤◌, true, length, None, IfOk};
ghost use Rattle.model_files.specs.Meaning as meaning;
ghost use Rattle.model_files.specs.Meaning.{broken_rule};
ghost use Rattle.ila_build.specs.Sizes.{file_size};
ghost use Rattle.ila_file.specs.View.{model_view};
ghost use Rattle.ila_model.specs.Model.{model_of};
ghost use Rattle.ila_whole.specs.Shaped.{is_shaped};

use crate::building::put_parts;
use ila_file::WrittenModel;
use ila_model::{IlaModel, SortedParts};
use std::alloc::{AllocError, Global};
use wb_terms::{NoMemory, PutStop};

/// The model that a written one stands for, where no rule refuses it. Its store has no more terms than the file has names,
/// constants, operators and declarations.
pub fn whole_model(alloc: Global, written: &WrittenModel<'_>) -> Result<IlaModel, NoMemory>
    requires unbroken { broken_rule (model_view written.now) ≡ None }
    requires shaped { is_shaped (model_view written.now) ≡ true }
    ensures model { IfOk result (λ m. model_of m ≡ meaning.model_of (model_view written.now)) }
    ensures small { IfOk result (λ m. length m.parts.terms.nodes ≤ file_size (model_view written.now)) }
{
    let name = String::from_str(alloc, written.name)?;
    match put_parts(alloc, written) {
        Ok(parts) => match SortedParts::new(alloc, parts)? {
            Some(sorted) => Ok(IlaModel::new(name, sorted)),
            None => unreachable!(),
        },
        Err(PutStop::BadSort) => unreachable!(),
        Err(PutStop::NoMemory) => Err(AllocError),
    }
}

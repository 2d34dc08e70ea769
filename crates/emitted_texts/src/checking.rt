//! What every model without child programs keeps, told by a look at its parts.

ghost use Rattle.std.specs.Prelude.{◌≡◌, ◌<◌, [], length};
ghost use Rattle.std.specs.String.{string_bytes};
ghost use Rattle.emitted_texts.specs.Fitting.{AreTyped, IsPlainModel};

use emitted_names::{check_stored, node_of};
use ila_model::IlaModel;
use wb_terms::{TermId, Terms};

/// Looks at each term of the store.
fn check_typed(terms: &Terms)
    ensures { AreTyped terms.now }
{
    for place in 0..terms.len() as usize {
        let _node = node_of(terms, TermId(place));
    }
}

/// How many instructions a model has.
fn instruction_count(model: &IlaModel) -> usize
    ensures { result ≡ length model.now.parts.instructions.items }
{
    model.parts.instructions.len()
}

/// Looks at each name and each term of the model, and so tells what every model without child programs keeps. It does nothing else.
pub(crate) fn check_plain(model: &IlaModel)
    requires { model.now.parts.children.items ≡ [] }
    ensures { IsPlainModel (string_bytes model.now.name) model.now.parts }
{
    check_stored(&model.parts.terms);
    check_typed(&model.parts.terms);
    let _count = instruction_count(model);
}

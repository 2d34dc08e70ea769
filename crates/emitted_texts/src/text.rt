//! The text of a model's emitted design.

ghost use Rattle.std.specs.Prelude.{◌≡◌, [], ◌∷◌, IfOk};
ghost use Rattle.std.specs.String.{string_bytes};
ghost use Rattle.verilog_text.specs.Grammar.{IsTreeOf};
ghost use Rattle.v_syntax.specs.Source.{module_of, source_of};
ghost use Rattle.v_print.specs.Printable.{IsPrintableSource};
ghost use Rattle.v_print_source.specs.Limits.{ArePrintedWithin};
ghost use Rattle.emitted_texts.specs.Texts.{IsEmittedText};

use crate::NoMemory;
use crate::checking::check_plain;
use emitted_modules::laws::flat_models_are_emitted;
use emitted_names::{kept_terms, module_names};
use emitted_trees::emitted_tree;
use ila_model::IlaModel;
use std::alloc::Global;
use v_print_source::laws::a_source_that_is_read_is_printed_within;
use v_print_source::print::print;
use v_syntax::module::{Module, Tree};

/// The source of one module.
fn source_of_one<'n>(alloc: Global, module: Module<'n>) -> Result<Tree<'n>, NoMemory>
    ensures { IfOk result (λ t. source_of t ≡ module_of module.entry ∷ []) }
{
    let mut modules = Vec::new(alloc);
    modules.push(module)?;
    Ok(Tree { modules })
}

/// What is printed of a source.
fn printed(alloc: Global, source: Tree<'_>) -> Result<String, NoMemory>
    ensures { IfOk result (λ t. IsPrintableSource (source_of source.entry) → ArePrintedWithin (source_of source.entry) → IsTreeOf (string_bytes t ∷ []) (source_of source.entry)) }
{
    let text = print(alloc, &source)?;
    Ok(text)
}

/// The Verilog text of the model's emitted design: of one module. It reads as that module exactly where the module has no more tokens than
/// are read. The time is that of a few passes over the terms for each load and each update of a memory, and of the printing.
pub fn emitted_text(alloc: Global, model: &IlaModel) -> Result<String, NoMemory>
    requires { model.now.parts.children.items ≡ [] }
    ensures { IfOk result (λ t. IsEmittedText (string_bytes model.now.name) model.now.parts (string_bytes t)) }
{
    check_plain(model);
    flat_models_are_emitted();
    a_source_that_is_read_is_printed_within();
    let keep = kept_terms(alloc, model)?;
    let marks = keep.as_slice();
    let names = module_names(alloc, model, marks)?;
    let module = emitted_tree(alloc, model, &names, marks)?;
    let source = source_of_one(alloc, module)?;
    let text = printed(alloc, source)?;
    Ok(text)
}

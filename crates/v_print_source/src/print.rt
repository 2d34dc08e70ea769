//! Whole sources as texts.
ghost use Rattle.std.specs.Prelude.{◌≡◌, ℕ, nat_le, List, [], ◌∷◌, length, IfOk};
ghost use Rattle.std.specs.String.{string_bytes};
ghost use Rattle.verilog_text.specs.Grammar.{IsTreeOf};
ghost use Rattle.v_syntax.specs.Source.{source_of};
ghost use Rattle.v_print.specs.Reads.{ReadsAs};
ghost use Rattle.v_print.specs.Printable.{IsPrintableSource};
ghost use Rattle.v_print_source.specs.Shown.{printed_modules};
ghost use Rattle.v_print_source.specs.Limits.{ArePrintedWithin};

use crate::module::write_source;
use std::alloc::{AllocError, Global};
use v_print::writer::Writer;
use v_syntax::module::Tree;

/// The most tokens that files may have.
const MOST_TOKENS: usize = 4_194_304;

/// Whether a text has so few bytes that it has no more tokens than files may have.
fn is_short(text: &str) -> bool
    ensures { result ≡ nat_le (length text.now) 4194304 }
{
    text.len() <= MOST_TOKENS
}

/// A text of the tree, with a colon behind each `default` or without one.
fn written(alloc: Global, tree: &Tree<'_>, colons: bool) -> Result<String, AllocError>
    ensures { IfOk result (λ t. ReadsAs (string_bytes t) (printed_modules colons (source_of tree.now) [])) }
{
    let mut out = Writer::new(alloc);
    write_source(tree, colons, &mut out)?;
    Ok(out.into_text())
}

/// A text that reads as the tree. A `default` has a colon behind it, unless the text may have more tokens than are read.
pub fn print(alloc: Global, tree: &Tree<'_>) -> Result<String, AllocError>
    ensures printed { IfOk result (λ t. IsPrintableSource (source_of tree.now) → ArePrintedWithin (source_of tree.now) → IsTreeOf (string_bytes t ∷ []) (source_of tree.now)) }
    ensures read { IfOk result (λ t. (files : List (List ℕ)) → IsTreeOf files (source_of tree.now) → IsTreeOf (string_bytes t ∷ []) (source_of tree.now)) }
{
    let text = written(alloc, tree, true)?;
    let few = is_short(text.as_str());
    if few {
        return Ok(text);
    }
    let shorter = written(alloc, tree, false)?;
    Ok(shorter)
}

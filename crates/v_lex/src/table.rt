//! The macros by their names.

ghost use Rattle.std.specs.Prelude.{◌≡◌, ℕ, List, IfOk, cond, option_map};
ghost use Rattle.wb_values.specs.Value.{same_name};
ghost use Rattle.v_lex.specs.Reading.{text_under};
ghost use Rattle.v_lex.specs.Placed.{span_under};

use crate::state::Span;
use std::alloc::AllocError;
use std::collections::BTreeMap;

/// Puts a text under a name, or none.
pub(crate) fn set_macro<'s>(
    macros: &mut BTreeMap<&'s [u8], Option<Span<'s>>>,
    name: &'s [u8],
    text: Option<Span<'s>>,
) -> Result<(), AllocError>
    ensures texts { IfOk result (λ _. (q : List ℕ) → text_under macros.new q ≡ cond (same_name name.now q) (option_map (λ s. s.text.now) text.entry) (text_under macros.old q)) }
    ensures spans { IfOk result (λ _. (q : List ℕ) → span_under macros.new q ≡ cond (same_name name.now q) text.entry (span_under macros.old q)) }
{
    macros.insert(name, text)?;
    Ok(())
}

/// The text under a name.
pub(crate) fn macro_text<'s>(
    macros: &BTreeMap<&'s [u8], Option<Span<'s>>>,
    name: &'s [u8],
) -> Option<Span<'s>>
    ensures text { option_map (λ s. s.text.now) result ≡ text_under macros.now name.now }
    ensures span { result ≡ span_under macros.now name.now }
{
    match macros.get(&name) {
        Some(text) => *text,
        None => None,
    }
}

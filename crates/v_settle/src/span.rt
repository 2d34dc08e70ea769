//! Spans against tables of bits.

ghost use Rattle.std.specs.Prelude.{◌≡◌, ℕ, true, false};
ghost use Rattle.wb_values.specs.Value.{Name};
ghost use Rattle.v_flow.specs.Spans.{bits_of, bits_in};
ghost use Rattle.v_masks.specs.Masks.{masked};

use std::collections::BTreeMap;
use v_flow::span::Span;
use v_masks::mask_under;
use v_paths::mask::without;

/// Whether a span has a bit that is not in the table: where not, the table has all of them.
fn span_has_more(span: Span<'_>, table: &BTreeMap<&str, u128>) -> bool
    ensures { result ≡ false → (n : Name) (k b : ℕ) → bits_of span.entry n k b ≡ true → masked table.now n k b ≡ true }
{
    without(span.bits, mask_under(table, span.name)) != 0
}

/// Whether spans have a bit that is not in the table: where not, the table has all of them.
pub(crate) fn has_more(spans: &[Span<'_>], table: &BTreeMap<&str, u128>) -> bool
    ensures { result ≡ false → (n : Name) (k b : ℕ) → bits_in spans.now n k b ≡ true → masked table.now n k b ≡ true }
{
    for span in spans {
        if span_has_more(*span, table) {
            return true;
        }
    }
    false
}

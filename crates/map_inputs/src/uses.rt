//! Whether an expression uses an input.

ghost use Rattle.std.specs.Prelude.{◌≡◌, ◌↔◌, ◌++◌, ◌∷◌, [], map, IsTrue, IfOk, OnOk};
ghost use Rattle.verilog_designs.specs.Reads.{reads};
ghost use Rattle.v_syntax.specs.Tree.{tree_of};
ghost use Rattle.v_value.specs.Scope.{scope_at};
ghost use Rattle.v_value.specs.Narrow.{IsNarrow, HasNarrowObjects};
ghost use Rattle.v_flow.specs.Spans.{bits_in};
ghost use Rattle.v_masks.specs.Masks.{masked};
ghost use Rattle.v_renamed.specs.NewNames.{new_name};
ghost use Rattle.map_inputs.specs.Bits.{OneIsMarked};
ghost use Rattle.map_inputs.specs.Spans.{IsRenamedSpan, AreRenamedSpans};

use std::alloc::{AllocError, Global};
use std::collections::BTreeMap;
use v_depend::meets;
use v_flow::add_reads;
use v_flow::span::Span;
use v_renamed::{Names, name_for};
use v_syntax::tree::Expression;
use v_value::scope::Scope;

/// A span under the new name of its name.
fn renamed<'a, 's: 'a>(names: &Names<'a>, span: Span<'s>) -> Span<'a>
    ensures { IsRenamedSpan (new_name names.now) span.entry result }
{
    Span {
        name: name_for(names, span.name),
        from_word: span.from_word,
        to_word: span.to_word,
        bits: span.bits,
    }
}

/// Spans under the new names of their names.
fn all_renamed<'a, 's: 'a>(
    alloc: Global,
    names: &Names<'a>,
    spans: &[Span<'s>],
) -> Result<Vec<Span<'a>>, AllocError>
    ensures { IfOk result (λ v. AreRenamedSpans (new_name names.now) spans.now v.items) }
{
    let mut found = Vec::new(alloc);
    for span in spans {
        found.push(renamed(names, *span))?;
    }
    Ok(found)
}

/// Whether an expression reads a bit that is marked under the new name of its name. The table has the bits that come from inputs, and the
/// names are those of the expression with their names in the one scope.
pub fn uses_input<'a, 's: 'a>(
    alloc: Global,
    tree: &Expression<'s>,
    scope: &Scope<'_>,
    names: &Names<'a>,
    marked: &BTreeMap<&str, u128>,
) -> Result<bool, AllocError>
    requires objects { HasNarrowObjects (scope_at scope.now) }
    requires narrow { IsNarrow (scope_at scope.now) (tree_of tree.now) }
    ensures { IfOk result (λ r. IsTrue r ↔ OneIsMarked (new_name names.now) (masked marked.now) (reads (scope_at scope.now) (tree_of tree.now))) }
{
    let mut read = Vec::new(alloc);
    add_reads(tree, scope, &mut read)?;
    let found = all_renamed(alloc, names, &read)?;
    let some = meets(&found, marked);
    Ok(some)
}

//! What the labels of a case read.

ghost use Rattle.std.specs.Prelude.{◌≡◌, OnOk};
ghost use Rattle.verilog_designs.specs.Reads.{or_in, reads_in_all, items_read};
ghost use Rattle.v_syntax.specs.Tree.{expressions_of};
ghost use Rattle.v_value.specs.Scope.{scope_at};
ghost use Rattle.v_value.specs.Narrow.{AreNarrow, HasNarrowObjects};
ghost use Rattle.v_statement.specs.Effects.{item_list};
ghost use Rattle.v_flow.specs.Spans.{bits_in};
ghost use Rattle.v_flow.specs.Flow.{IsNarrowLabel, AreNarrowItems};
ghost use Rattle.v_paths.specs.Walks.{item_reads};

use std::alloc::AllocError;
use v_flow::add_reads;
use v_flow::span::Span;
use v_syntax::tree::{CaseItem, Expression};
use v_value::scope::Scope;

/// Adds what the labels of an item read.
fn add_labels<'s>(
    labels: &[Expression<'s>],
    scope: &Scope<'_>,
    outside: &mut Vec<Span<'s>>,
) -> Result<(), AllocError>
    requires objects { HasNarrowObjects (scope_at scope.now) }
    requires narrow { AreNarrow (scope_at scope.now) (expressions_of labels.now) }
    ensures { OnOk result (bits_in outside.new.items ≡ or_in (bits_in outside.old.items) (reads_in_all (scope_at scope.now) (expressions_of labels.now))) }
{
    for label in labels {
        add_reads(label, scope, outside)?;
    }
    Ok(())
}

fn add_item_labels<'s>(
    item: &CaseItem<'s>,
    scope: &Scope<'_>,
    outside: &mut Vec<Span<'s>>,
) -> Result<(), AllocError>
    requires objects { HasNarrowObjects (scope_at scope.now) }
    requires narrow { IsNarrowLabel (scope_at scope.now) item.now }
    ensures { OnOk result (bits_in outside.new.items ≡ or_in (bits_in outside.old.items) (item_reads (scope_at scope.now) item.now)) }
{
    match item {
        CaseItem::Values(labels, _) => {
            add_labels(labels, scope, outside)?;
            Ok(())
        }
        CaseItem::Default(_) => Ok(()),
    }
}

/// Adds what the labels of all items of a case read.
pub(crate) fn add_all_labels<'s>(
    items: &[CaseItem<'s>],
    scope: &Scope<'_>,
    outside: &mut Vec<Span<'s>>,
) -> Result<(), AllocError>
    requires objects { HasNarrowObjects (scope_at scope.now) }
    requires narrow { AreNarrowItems (scope_at scope.now) items.now }
    ensures { OnOk result (bits_in outside.new.items ≡ or_in (bits_in outside.old.items) (items_read (scope_at scope.now) (item_list items.now))) }
{
    for item in items {
        add_item_labels(item, scope, outside)?;
    }
    Ok(())
}

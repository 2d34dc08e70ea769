//! The clocked blocks of a module, one after the other.

ghost use Rattle.std.specs.Prelude.{◌≡◌, ◌∷◌, [], false, map, OnOk, OnErr};
ghost use Rattle.std.specs.List.{list_any};
ghost use Rattle.verilog_meaning.specs.Register.{clocked_blocks};
ghost use Rattle.verilog_designs.specs.Paths.{has_blocking};
ghost use Rattle.v_syntax.specs.Source.{item_of};
ghost use Rattle.v_value.specs.Scope.{scope_at};
ghost use Rattle.v_value.specs.Narrow.{HasNarrowObjects};
ghost use Rattle.v_operators.specs.Meaning.{Grows};
ghost use Rattle.v_lower.specs.Lowered.{HasImages};
ghost use Rattle.v_lower.specs.Table.{images_at};
ghost use Rattle.v_edge.specs.Edge.{blocks_in, AreSound, AreUpdated};

use crate::NoMemory;
use std::alloc::{AllocError, Global};
use v_blocks::is_clocked;
use v_lower::NamedTerms;
use v_syntax::module::Item;
use v_syntax::tree::Statement;
use v_value::scope::Scope;
use v_write::lower_statement;
use wb_terms::Terms;

/// The statement of an item that is a clocked block.
fn clocked_statement<'t, 's>(item: &'t Item<'s>) -> Option<&'t Statement<'s>>
    ensures { blocks_in result ≡ clocked_blocks (item_of item.now ∷ []) }
{
    match item {
        Item::Always(events, statement) => {
            if is_clocked(events) {
                Some(statement)
            } else {
                None
            }
        }
        Item::Port(_) => None,
        Item::Parameter(_) => None,
        Item::Wires(_, _, _) => None,
        Item::Variables(_, _, _) => None,
        Item::Assign(_) => None,
        Item::Instances(_, _, _) => None,
    }
}

/// The block of an item, where it is a clocked one.
fn lower_item<'s>(
    alloc: Global,
    item: &Item<'s>,
    scope: &Scope<'_>,
    table: &mut NamedTerms<'s>,
    next: &mut NamedTerms<'s>,
    terms: &mut Terms,
) -> Result<(), NoMemory>
    requires objects { HasNarrowObjects (scope_at scope.now) }
    requires known { HasImages (scope_at scope.now) (images_at table.old) terms.old }
    requires known_next { HasImages (scope_at scope.now) (images_at next.old) terms.old }
    requires sound { AreSound (scope_at scope.now) (clocked_blocks (item_of item.now ∷ [])) }
    requires waits { list_any has_blocking (clocked_blocks (item_of item.now ∷ [])) ≡ false }
    ensures grows { Grows terms.old terms.new }
    ensures updated { OnOk result (AreUpdated (scope_at scope.now) (images_at table.old) (images_at next.old) terms.old (clocked_blocks (item_of item.now ∷ [])) (images_at table.new) (images_at next.new) terms.new) }
{
    match clocked_statement(item) {
        Some(statement) => {
            lower_statement(alloc, statement, scope, table, next, terms)?;
            Ok(())
        }
        None => Ok(()),
    }
}

/// The blocks of items.
fn lower_items<'s>(
    alloc: Global,
    items: &[Item<'s>],
    scope: &Scope<'_>,
    table: &mut NamedTerms<'s>,
    next: &mut NamedTerms<'s>,
    terms: &mut Terms,
) -> Result<(), NoMemory>
    requires objects { HasNarrowObjects (scope_at scope.now) }
    requires known { HasImages (scope_at scope.now) (images_at table.old) terms.old }
    requires known_next { HasImages (scope_at scope.now) (images_at next.old) terms.old }
    requires sound { AreSound (scope_at scope.now) (clocked_blocks (map item_of items.now)) }
    requires waits { list_any has_blocking (clocked_blocks (map item_of items.now)) ≡ false }
    ensures grows { Grows terms.old terms.new }
    ensures updated { OnOk result (AreUpdated (scope_at scope.now) (images_at table.old) (images_at next.old) terms.old (clocked_blocks (map item_of items.now)) (images_at table.new) (images_at next.new) terms.new) }
{
    for item in items {
        lower_item(alloc, item, scope, table, next, terms)?;
    }
    Ok(())
}

/// Lowers the clocked blocks of a module (1364-2005, 9.2.2 and 11.4): the second table gets the terms of what names hold after the
/// clock's edge, where it had those of what they hold before it. All blocks read the names by the first table, whose terms stay worth
/// what they were. Where memory runs out, the store is as it was, and the tables may have any terms.
pub fn lower_edge<'s>(
    alloc: Global,
    items: &[Item<'s>],
    scope: &Scope<'_>,
    table: &mut NamedTerms<'s>,
    next: &mut NamedTerms<'s>,
    terms: &mut Terms,
) -> Result<(), NoMemory>
    requires objects { HasNarrowObjects (scope_at scope.now) }
    requires known { HasImages (scope_at scope.now) (images_at table.old) terms.old }
    requires known_next { HasImages (scope_at scope.now) (images_at next.old) terms.old }
    requires sound { AreSound (scope_at scope.now) (clocked_blocks (map item_of items.now)) }
    requires waits { list_any has_blocking (clocked_blocks (map item_of items.now)) ≡ false }
    ensures grows { Grows terms.old terms.new }
    ensures updated { OnOk result (AreUpdated (scope_at scope.now) (images_at table.old) (images_at next.old) terms.old (clocked_blocks (map item_of items.now)) (images_at table.new) (images_at next.new) terms.new) }
    ensures kept { OnErr result (terms.new ≡ terms.old) }
{
    let before = terms.len();
    match lower_items(alloc, items, scope, table, next, terms) {
        Ok(()) => Ok(()),
        Err(_) => {
            terms.cut(before);
            Err(AllocError)
        }
    }
}

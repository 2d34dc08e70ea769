//! The nets of a module evaluated.

ghost use Rattle.std.specs.Prelude.{◌≡◌, ◌↔◌, true, map, IsTrue, IfOk, OnErr};
ghost use Rattle.v_syntax.specs.Source.{item_of};
ghost use Rattle.v_value.specs.Scope.{scope_at};
ghost use Rattle.v_value.specs.Narrow.{HasNarrowObjects};
ghost use Rattle.v_operators.specs.Meaning.{Grows};
ghost use Rattle.v_lower.specs.Lowered.{HasImages};
ghost use Rattle.v_lower.specs.Table.{images_at};
ghost use Rattle.v_loops.specs.OneModule.{HasLoopIn};
ghost use Rattle.v_settle.specs.OneModule.{IsEvaluable, IsEvaluated};

use crate::NoMemory;
use crate::copy::copied;
use crate::turn::turns;
use std::alloc::{AllocError, Global};
use v_depend::meets;
use v_lower::NamedTerms;
use v_order::{all_driven, drivers_of, order_of};
use v_paths::mask::masks_of;
use v_syntax::module::Item;
use v_value::scope::Scope;
use wb_terms::Terms;

/// Evaluates the nets of a module. Where memory runs out, the store may have further terms.
fn settle_all<'s>(
    alloc: Global,
    items: &[Item<'s>],
    scope: &Scope<'s>,
    table: &mut NamedTerms<'s>,
    terms: &mut Terms,
) -> Result<bool, NoMemory>
    requires objects { HasNarrowObjects (scope_at scope.now) }
    requires known { HasImages (scope_at scope.now) (images_at table.old) terms.old }
    requires ready { IsEvaluable (scope_at scope.now) (map item_of items.now) }
    ensures grows { Grows terms.old terms.new }
    ensures settled { IfOk result (λ r. r ≡ true → IsEvaluated (scope_at scope.now) (map item_of items.now) (images_at table.old) terms.old (images_at table.new) terms.new) }
    ensures loops { IfOk result (λ r. IsTrue r ↔ ¬ HasLoopIn (scope_at scope.now) (map item_of items.now)) }
{
    let mut spare = copied(alloc, scope, table)?;
    let drivers = drivers_of(alloc, items)?;
    let spans = all_driven(alloc, &drivers, scope)?;
    let order = order_of(alloc, &drivers, scope)?;
    let mut unsettled = masks_of(alloc, &spans)?;
    let count = spans.len();
    for _ in 0..count {
        let ended = turns(
            alloc,
            items,
            &drivers,
            scope,
            &order,
            &spans,
            &mut unsettled,
            table,
            &mut spare,
            terms,
        )?;
        if ended {
            let left = meets(&spans, &unsettled);
            return Ok(!left);
        }
    }
    let left = meets(&spans, &unsettled);
    Ok(!left)
}

/// Evaluates the nets of a module without parameters and instances (1364-2005, 6.1 and 9.9): each name gets a term that is worth what the
/// settled valuation gives it, where the terms before are worth what is given from outside. Answers whether all bits came to be settled;
/// they do exactly where no bit depends on itself. Where some do not, or memory runs out, the table may have any terms. Where memory runs
/// out, the store is as it was.
pub fn settle<'s>(
    alloc: Global,
    items: &[Item<'s>],
    scope: &Scope<'s>,
    table: &mut NamedTerms<'s>,
    terms: &mut Terms,
) -> Result<bool, NoMemory>
    requires objects { HasNarrowObjects (scope_at scope.now) }
    requires known { HasImages (scope_at scope.now) (images_at table.old) terms.old }
    requires ready { IsEvaluable (scope_at scope.now) (map item_of items.now) }
    ensures grows { Grows terms.old terms.new }
    ensures settled { IfOk result (λ r. r ≡ true → IsEvaluated (scope_at scope.now) (map item_of items.now) (images_at table.old) terms.old (images_at table.new) terms.new) }
    ensures loops { IfOk result (λ r. IsTrue r ↔ ¬ HasLoopIn (scope_at scope.now) (map item_of items.now)) }
    ensures kept { OnErr result (terms.new ≡ terms.old) }
{
    let before = terms.len();
    match settle_all(alloc, items, scope, table, terms) {
        Ok(all) => Ok(all),
        Err(_) => {
            terms.cut(before);
            Err(AllocError)
        }
    }
}

//! The names of a module, its store, and the tables of terms at the start.

ghost use Rattle.std.specs.Prelude.{◌≡◌, [], map, IfOk};
ghost use Rattle.verilog_meaning.specs.Register.{clocked_blocks};
ghost use Rattle.verilog_meaning.specs.Settled.{names_of};
ghost use Rattle.v_syntax.specs.Source.{item_of};
ghost use Rattle.v_value.specs.Scope.{scope_at};
ghost use Rattle.v_value.specs.Narrow.{HasNarrowObjects};
ghost use Rattle.v_drivers.specs.Premises.{AreNarrowBlocks};
ghost use Rattle.v_lower.specs.Table.{images_at};
ghost use Rattle.v_registers.specs.Registers.{counted_of};
ghost use Rattle.v_elab.specs.Names.{AreDistinct, top_front, is_given_input};
ghost use Rattle.v_elab.specs.Begun.{AreSorted, CanBegin, HasBegun};

use crate::NoMemory;
use crate::declaring::store_of;
use crate::naming::{inputs_among, names_of_store};
use crate::tables::{enter_inputs, enter_others, enter_registers};
use std::alloc::Global;
use v_lower::NamedTerms;
use v_registers::{Register, registers_among};
use v_scopes::ModuleScope;
use v_syntax::module::Item;
use v_value::scope::Scope;
use wb_terms::Terms;

/// The names of a module: the registers, those of the store (registers, and then inputs), and the others.
#[derive(Drop)]
pub(crate) struct Sorted<'s> {
    pub(crate) registers: Vec<Register<'s>>,
    pub(crate) stored: Vec<&'s str>,
    pub(crate) others: Vec<&'s str>,
}

/// The names of a module, a store, the terms of what is given to names, and those of what registers hold.
#[derive(Drop)]
pub(crate) struct Begun<'s> {
    pub(crate) sorted: Sorted<'s>,
    pub(crate) terms: Terms,
    pub(crate) table: NamedTerms<'s>,
    pub(crate) next: NamedTerms<'s>,
}

/// The names of a module by what they are.
pub(crate) fn names_by_kind<'s>(
    alloc: Global,
    items: &[Item<'s>],
    declared: &[&'s str],
    names: &ModuleScope<'_>,
    scope: &Scope<'_>,
    clock: &str,
) -> Result<Sorted<'s>, NoMemory>
    requires objects { HasNarrowObjects (scope_at scope.now) }
    requires narrow { AreNarrowBlocks (scope_at scope.now) (clocked_blocks (map item_of items.now)) }
    ensures sorted { IfOk result (λ r. AreSorted (scope_at scope.now) (clocked_blocks (map item_of items.now)) (is_given_input names.now clock.now top_front)
        (map (λ n. n.now) declared.now) (map counted_of r.registers.items) (map (λ n. n.now) r.stored.items) (map (λ n. n.now) r.others.items)) }
{
    let split = registers_among(alloc, items, declared, scope)?;
    let found = inputs_among(alloc, names, clock, &split.others)?;
    let stored = names_of_store(alloc, &split.registers, &found.inputs)?;
    Ok(Sorted {
        registers: split.registers,
        stored,
        others: found.others,
    })
}

/// The store of registers and inputs, and the tables at the start.
pub(crate) fn begin<'s>(
    alloc: Global,
    items: &[Item<'s>],
    declared: &[&'s str],
    names: &ModuleScope<'_>,
    scope: &Scope<'_>,
    clock: &str,
) -> Result<Begun<'s>, NoMemory>
    requires objects { HasNarrowObjects (scope_at scope.now) }
    requires narrow { AreNarrowBlocks (scope_at scope.now) (clocked_blocks (map item_of items.now)) }
    requires distinct { AreDistinct (map (λ n. n.now) declared.now) }
    requires ready { CanBegin (scope_at scope.now) (clocked_blocks (map item_of items.now)) (is_given_input names.now clock.now top_front) }
    ensures stored { IfOk result (λ r. names_of r.terms.names ≡ map (λ n. n.now) r.sorted.stored.items) }
    ensures begun { IfOk result (λ r. HasBegun (scope_at scope.now) (clocked_blocks (map item_of items.now)) (is_given_input names.now clock.now top_front)
        (map (λ n. n.now) declared.now) (map counted_of r.sorted.registers.items) r.terms (images_at r.table) (images_at r.next)) }
{
    let sorted = names_by_kind(alloc, items, declared, names, scope, clock)?;
    let mut terms = store_of(alloc, scope, &sorted.stored)?;
    let mut table = NamedTerms::new(alloc);
    let mut next = NamedTerms::new(alloc);
    enter_registers(&mut terms, &mut table, &mut next, scope, &sorted.registers)?;
    let first = sorted.registers.len();
    enter_inputs(
        &mut terms,
        &mut table,
        &mut next,
        scope,
        first,
        &sorted.stored,
    )?;
    enter_others(&mut terms, &mut table, &mut next, scope, &sorted.others)?;
    Ok(Begun {
        sorted,
        terms,
        table,
        next,
    })
}

//! What is elaborated in one scope: terms, of which some are those of registers after the clock's edge and some of what names settle to.

ghost use Rattle.std.specs.Prelude.{◌≡◌, IfOk, map, string_bytes};
ghost use Rattle.verilog_meaning.specs.Settled.{names_of};
ghost use Rattle.v_syntax.specs.Source.{item_of};
ghost use Rattle.v_value.specs.Scope.{scope_at};
ghost use Rattle.v_lower.specs.Table.{images_at};
ghost use Rattle.v_registers.specs.Registers.{counted_of};
ghost use Rattle.v_elab.specs.Names.{top_front, is_given_input};
ghost use Rattle.v_elab.specs.Begun.{IsLowered};
ghost use Rattle.v_elab.specs.Elaborable.{IsElaborable};
ghost use Rattle.v_elab.specs.Elaborated.{IsElaborated, body_in};
ghost use Rattle.v_elab.specs.Elements.{elements_of};

use crate::NoMemory;
use crate::elements::Elements;
use crate::parts::{bits_of, next_of};
use crate::start::{Begun, begin};
use std::alloc::Global;
use v_edge::lower_edge;
use v_scopes::ModuleScope;
use v_settle::settle;
use v_syntax::module::Item;
use v_value::scope::Scope;

/// The terms of what names settle to, and of registers after the clock's edge.
fn lowered<'s>(
    alloc: Global,
    items: &[Item<'s>],
    declared: &[&'s str],
    names: &ModuleScope<'_>,
    scope: &Scope<'s>,
    clock: &str,
) -> Result<Begun<'s>, NoMemory>
    requires { IsElaborable (body_in (scope_at scope.now) (map item_of items.now) (map (λ n. n.now) declared.now)) (is_given_input names.now clock.now top_front) }
    ensures stored { IfOk result (λ r. names_of r.terms.names ≡ map (λ n. n.now) r.sorted.stored.items) }
    ensures lowered { IfOk result (λ r. IsLowered (body_in (scope_at scope.now) (map item_of items.now) (map (λ n. n.now) declared.now)) (is_given_input names.now clock.now top_front)
        (map counted_of r.sorted.registers.items) r.terms (images_at r.table) (images_at r.next)) }
{
    let begun = begin(alloc, items, declared, names, scope, clock)?;
    let mut terms = begun.terms;
    let mut table = begun.table;
    let mut next = begun.next;
    let all = settle(alloc, items, scope, &mut table, &mut terms)?;
    if !all {
        // What can be elaborated has no loop.
        unreachable!();
    }
    lower_edge(alloc, items, scope, &mut table, &mut next, &mut terms)?;
    Ok(Begun {
        sorted: begun.sorted,
        terms,
        table,
        next,
    })
}

/// What is elaborated of nets and variables with these names, in this scope, driven by these items. What is given from outside is those of
/// the names that the table of the top says are inputs, but the clock.
pub(crate) fn elements_in<'s>(
    alloc: Global,
    items: &[Item<'s>],
    declared: &[&'s str],
    names: &ModuleScope<'_>,
    scope: &Scope<'s>,
    clock: &str,
    outputs: Vec<String>,
) -> Result<Elements<'s>, NoMemory>
    requires { IsElaborable (body_in (scope_at scope.now) (map item_of items.now) (map (λ n. n.now) declared.now)) (is_given_input names.now clock.now top_front) }
    ensures { IfOk result (λ r. IsElaborated (body_in (scope_at scope.now) (map item_of items.now) (map (λ n. n.now) declared.now)) (is_given_input names.now clock.now top_front)
        (map string_bytes outputs.items) (elements_of r)) }
{
    let begun = lowered(alloc, items, declared, names, scope, clock)?;
    let next = next_of(alloc, &begun.next, &begun.sorted.registers)?;
    let bits = bits_of(alloc, scope, &begun.sorted.registers)?;
    let register_count = begun.sorted.registers.len();
    let sorted = begun.sorted;
    Ok(Elements {
        terms: begun.terms,
        stored: sorted.stored,
        register_count,
        next,
        bits,
        table: begun.table,
        outputs,
    })
}

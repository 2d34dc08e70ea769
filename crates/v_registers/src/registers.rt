//! The registers among names of a module.

ghost use Rattle.std.specs.Prelude.{◌≡◌, ◌||◌, ◌∷◌, [], map, IfOk, OnOk};
ghost use Rattle.verilog_meaning.specs.Expression.{is_memory};
ghost use Rattle.verilog_meaning.specs.Register.{clocked_blocks, counts, word_count};
ghost use Rattle.verilog_trees.specs.Syntax.{Statement};
ghost use Rattle.std.specs.Prelude.{List};
ghost use Rattle.v_syntax.specs.Source.{item_of};
ghost use Rattle.v_value.specs.Scope.{object_of, scope_at};
ghost use Rattle.v_value.specs.Narrow.{HasNarrowObjects};
ghost use Rattle.v_drivers.specs.Premises.{AreNarrowBlocks};
ghost use Rattle.v_registers.specs.Groups.{bits_under};
ghost use Rattle.v_registers.specs.Masks.{has_bits};
ghost use Rattle.v_registers.specs.Registers.{AreMasks, AreSplit, IsAdded, counted_of};

use crate::NoMemory;
use crate::clocked::clocked_spans;
use crate::groups::grouped;
use crate::masks::{has_bits, masks_of};
use std::alloc::Global;
use std::collections::BTreeMap;
use v_flow::span::Span;
use v_syntax::module::Item;
use v_value::scope::{Object, Scope};

/// A register: a net or variable of which a clocked block may assign some bit, or a memory.
#[derive(Drop)]
pub struct Register<'s> {
    pub name: &'s str,
    /// For each word, by ascending address, the bits that count, each by its place. What is no memory has one word.
    pub masks: Vec<u128>,
}

/// The registers among some names, and the names that are none, each in their order.
#[derive(Drop)]
pub struct Split<'s> {
    pub registers: Vec<Register<'s>>,
    pub others: Vec<&'s str>,
}

/// How many words a net, variable or memory has: those of a memory, else one.
pub fn word_count(object: Object) -> usize
    ensures { result ≡ word_count (object_of object) }
{
    match object.addresses {
        None => 1,
        Some((first, last)) => {
            if first < last {
                (last - first) as usize + 1
            } else {
                (first - last) as usize + 1
            }
        }
    }
}

/// Whether a name is that of a memory.
fn is_memory(object: Object) -> bool
    ensures { result ≡ is_memory (object_of object) }
{
    object.addresses.is_some()
}

/// Whether a name with these masks is that of a register.
fn is_register(masks: &[u128], object: Object) -> bool
    ensures { result ≡ (has_bits masks.now || is_memory (object_of object)) }
{
    if has_bits(masks) {
        true
    } else {
        is_memory(object)
    }
}

/// The masks of a name.
fn masks_under<'s>(
    alloc: Global,
    groups: &BTreeMap<&'s str, Vec<Span<'s>>>,
    scope: &Scope<'_>,
    name: &str,
) -> Result<Vec<u128>, NoMemory>
    ensures { IfOk result (λ v. (clocked : List Statement) → bits_under groups.now ≡ counts (scope_at scope.now) clocked → AreMasks (scope_at scope.now) clocked name.now v.items) }
{
    let count = word_count(scope.object(name));
    match groups.get(name) {
        Some(spans) => {
            let masks = masks_of(alloc, spans, name, count)?;
            Ok(masks)
        }
        None => {
            let masks = masks_of(alloc, &[], name, count)?;
            Ok(masks)
        }
    }
}

/// Adds a name to the registers, if it is that of one, and else to the others.
fn add_name<'s>(
    alloc: Global,
    groups: &BTreeMap<&'s str, Vec<Span<'s>>>,
    scope: &Scope<'_>,
    name: &'s str,
    split: &mut Split<'s>,
) -> Result<(), NoMemory>
    ensures { OnOk result ((clocked : List Statement) → bits_under groups.now ≡ counts (scope_at scope.now) clocked
        → IsAdded (scope_at scope.now) clocked name.now (map counted_of split.old.registers.items) (map counted_of split.new.registers.items)
        (map (λ n. n.now) split.old.others.items) (map (λ n. n.now) split.new.others.items)) }
{
    let masks = masks_under(alloc, groups, scope, name)?;
    if is_register(&masks, scope.object(name)) {
        split.registers.push(Register { name, masks })?;
    } else {
        split.others.push(name)?;
    }
    Ok(())
}

/// The registers among names of a module without instances, in the order of the names, each with the bits that count. The time is in the
/// text and the words of the names.
pub fn registers_among<'s>(
    alloc: Global,
    items: &[Item<'s>],
    declared: &[&'s str],
    scope: &Scope<'_>,
) -> Result<Split<'s>, NoMemory>
    requires objects { HasNarrowObjects (scope_at scope.now) }
    requires narrow { AreNarrowBlocks (scope_at scope.now) (clocked_blocks (map item_of items.now)) }
    ensures { IfOk result (λ v. AreSplit (scope_at scope.now) (clocked_blocks (map item_of items.now)) (map (λ n. n.now) declared.now)
        (map counted_of v.registers.items) (map (λ n. n.now) v.others.items)) }
{
    let spans = clocked_spans(alloc, items, scope)?;
    let groups = grouped(alloc, &spans)?;
    let mut split = Split {
        registers: Vec::new(alloc),
        others: Vec::new(alloc),
    };
    for name in declared {
        add_name(alloc, &groups, scope, *name, &mut split)?;
    }
    Ok(split)
}

//! Parts of targets with the terms of their indexes, before anything is written.

ghost use Rattle.std.specs.Prelude.{◌≡◌, ◌≤◌, ◌-◌, ℕ, true, false, cond, nat_le, None, Some, IfOk, OnOk};
ghost use Rattle.verilog_trees.specs.Syntax as pure;
ghost use Rattle.verilog_meaning.specs.Expression.{object_width, natural_of};
ghost use Rattle.v_syntax.specs.Tree.{tree_of, select_of, selects_of, target_of};
ghost use Rattle.v_value.specs.Scope.{object_of, scope_at};
ghost use Rattle.v_value.specs.Index.{integer_at};
ghost use Rattle.v_value.specs.Narrow.{HasNarrowObjects, IsNarrow};
ghost use Rattle.v_value.specs.Evaluation.{count_at};
ghost use Rattle.v_operators.specs.Meaning.{Grows};
ghost use Rattle.v_lower.specs.Lowered.{HasImages};
ghost use Rattle.v_lower.specs.Table.{images_at};
ghost use Rattle.v_lower.specs.Walking.{IsNameSound, IsIndex, IsSelectSound};
ghost use Rattle.v_lower.specs.Contexts.{IsTaken};
ghost use Rattle.v_write.specs.declared.part.PartBits.TheVariants.{All, Known, Moving};
ghost use Rattle.v_write.specs.Parts.{AreParts, counts};
ghost use Rattle.v_write.specs.Sound.{IsSoundTarget, AreSoundTargets, IsSoundAssignment, target_list};
ghost use Rattle.v_write.specs.Selecting.{IsIndexOf, IsTakenBy, IsSelectedBy, ArePrepared, IsPrepared};

use crate::NoMemory;
use crate::part::{Part, PartBits};
use crate::reading::{assigned, lowered_alone};
use std::alloc::Global;
use v_bits::{Operand, Wanted};
use v_lower::NamedTerms;
use v_syntax::tree::{Expression, Select, Selects, Target};
use v_value::scope::{Object, Scope};
use v_value::select::{Integer, Span};
use v_value::taken::{integer_of, select_bits};
use v_value::width::object_width;
use wb_terms::{TermId, Terms};

/// The bits that a select takes of an object, so many of them.
#[derive(Clone, Copy)]
struct Taken {
    bits: PartBits,
    count: u32,
}

/// The word and the bits that a name with selects means, so many of them.
#[derive(Clone, Copy)]
struct Meant {
    address: Option<Operand>,
    bits: PartBits,
    count: u32,
}

/// The term of an index of a memory.
fn address_of(
    select: &Select<'_>,
    scope: &Scope<'_>,
    table: &NamedTerms<'_>,
    terms: &mut Terms,
) -> Result<Operand, NoMemory>
    requires objects { HasNarrowObjects (scope_at scope.now) }
    requires known { HasImages (scope_at scope.now) (images_at table.now) terms.old }
    requires single { IsIndex (select_of select.now) }
    requires sound { IsSelectSound (scope_at scope.now) (select_of select.now) }
    ensures grows { Grows terms.old terms.new }
    ensures index { IfOk result (λ r. IsIndexOf (scope_at scope.now) (images_at table.now) terms.new (select_of select.now) r) }
{
    match select {
        Select::Index(index) => {
            let own = lowered_alone(index, scope, table, terms)?;
            Ok(own)
        }
        _ => unreachable!(),
    }
}

/// An integer of at most 128 as a natural number; one below 0 counts as 0.
fn natural(integer: Integer) -> u32
    requires { natural_of (integer_at integer) ≤ 128 }
    ensures { result ≡ natural_of (integer_at integer) }
{
    if integer.negative {
        0
    } else {
        integer.magnitude as u32
    }
}

/// The number of a constant, which is at most 128.
fn count_of(count: &Expression<'_>, scope: &Scope<'_>) -> u32
    requires objects { HasNarrowObjects (scope_at scope.now) }
    requires narrow { IsNarrow (scope_at scope.now) (tree_of count.now) }
    requires at_most_128 { count_at (scope_at scope.now) (tree_of count.now) ≤ 128 }
    ensures { result ≡ count_at (scope_at scope.now) (tree_of count.now) }
{
    natural(integer_of(count, scope, &[]))
}

/// The bit with an index.
fn one_bit(object: Object, index: Operand) -> Taken
    ensures bits { result.bits ≡ Moving (record { object = object; back = 0; count = 1 }) index }
    ensures count { result.count ≡ 1 }
{
    Taken {
        bits: PartBits::Moving(
            Wanted {
                object,
                back: 0,
                count: 1,
            },
            index,
        ),
        count: 1,
    }
}

/// So many bits, their indexes from a base up.
fn upward(object: Object, base: Operand, count: u32) -> Taken
    requires { 1 ≤ count }
    ensures bits { result.bits ≡ Moving (record { object = object; back = cond (nat_le object.right object.left) 0 (count - 1); count = count }) base }
    ensures count { result.count ≡ count }
{
    let back = if object.right <= object.left {
        0
    } else {
        count - 1
    };
    Taken {
        bits: PartBits::Moving(
            Wanted {
                object,
                back,
                count,
            },
            base,
        ),
        count,
    }
}

/// The same from a base down.
fn downward(object: Object, base: Operand, count: u32) -> Taken
    requires { 1 ≤ count }
    ensures bits { result.bits ≡ Moving (record { object = object; back = cond (nat_le object.right object.left) (count - 1) 0; count = count }) base }
    ensures count { result.count ≡ count }
{
    let back = if object.right <= object.left {
        count - 1
    } else {
        0
    };
    Taken {
        bits: PartBits::Moving(
            Wanted {
                object,
                back,
                count,
            },
            base,
        ),
        count,
    }
}

/// Bits at known places.
fn known_bits(span: Span) -> Taken
    ensures bits { result.bits ≡ Known span }
    ensures count { result.count ≡ span.count }
{
    Taken {
        bits: PartBits::Known(span),
        count: span.count,
    }
}

/// The bits that a select takes of an object.
fn taken_bits(
    select: &Select<'_>,
    scope: &Scope<'_>,
    table: &NamedTerms<'_>,
    terms: &mut Terms,
    object: Object,
) -> Result<Taken, NoMemory>
    requires objects { HasNarrowObjects (scope_at scope.now) }
    requires known { HasImages (scope_at scope.now) (images_at table.now) terms.old }
    requires sound { IsTaken (scope_at scope.now) (select_of select.now) }
    ensures grows { Grows terms.old terms.new }
    ensures taken { IfOk result (λ r. IsTakenBy (scope_at scope.now) (images_at table.now) terms.new (object_of object) (select_of select.now) r.bits r.count) }
{
    match select {
        Select::Index(index) => {
            let own = lowered_alone(index, scope, table, terms)?;
            Ok(one_bit(object, own))
        }
        Select::Part(_, _) => {
            let span = select_bits(select, scope, &[], object);
            Ok(known_bits(span))
        }
        Select::PartUp(base, count) => {
            let own = lowered_alone(base, scope, table, terms)?;
            let most = count_of(count, scope);
            Ok(upward(object, own, most))
        }
        Select::PartDown(base, count) => {
            let own = lowered_alone(base, scope, table, terms)?;
            let most = count_of(count, scope);
            Ok(downward(object, own, most))
        }
    }
}

/// What a name with one select means: a word of a memory, or some bits.
fn selected_by_one(
    select: &Select<'_>,
    scope: &Scope<'_>,
    table: &NamedTerms<'_>,
    terms: &mut Terms,
    object: Object,
    name: &str,
) -> Result<Meant, NoMemory>
    requires objects { HasNarrowObjects (scope_at scope.now) }
    requires known { HasImages (scope_at scope.now) (images_at table.now) terms.old }
    requires object { object_of object ≡ scope_at scope.now name.now }
    requires sound { IsNameSound (scope_at scope.now) name.now (pure.one (select_of select.now)) }
    ensures grows { Grows terms.old terms.new }
    ensures selected { IfOk result (λ r. IsSelectedBy (scope_at scope.now) (images_at table.now) terms.new name.now (pure.one (select_of select.now)) r.address r.bits r.count) }
{
    if object.addresses.is_some() {
        let address = address_of(select, scope, table, terms)?;
        let count = object_width(object);
        return Ok(Meant {
            address: Some(address),
            bits: PartBits::All,
            count,
        });
    }
    let taken = taken_bits(select, scope, table, terms, object)?;
    Ok(Meant {
        address: None,
        bits: taken.bits,
        count: taken.count,
    })
}

/// What a name with selects means.
fn selected(
    selects: &Selects<'_>,
    scope: &Scope<'_>,
    table: &NamedTerms<'_>,
    terms: &mut Terms,
    object: Object,
    name: &str,
) -> Result<Meant, NoMemory>
    requires objects { HasNarrowObjects (scope_at scope.now) }
    requires known { HasImages (scope_at scope.now) (images_at table.now) terms.old }
    requires object { object_of object ≡ scope_at scope.now name.now }
    requires sound { IsNameSound (scope_at scope.now) name.now (selects_of selects.now) }
    ensures grows { Grows terms.old terms.new }
    ensures selected { IfOk result (λ r. IsSelectedBy (scope_at scope.now) (images_at table.now) terms.new name.now (selects_of selects.now) r.address r.bits r.count) }
{
    match selects {
        Selects::Whole => {
            let count = object_width(object);
            Ok(Meant {
                address: None,
                bits: PartBits::All,
                count,
            })
        }
        Selects::One(select) => {
            let one = selected_by_one(select, scope, table, terms, object, name)?;
            Ok(one)
        }
        Selects::Two(index, select) => {
            let address = address_of(index, scope, table, terms)?;
            let taken = taken_bits(select, scope, table, terms, object)?;
            Ok(Meant {
                address: Some(address),
                bits: taken.bits,
                count: taken.count,
            })
        }
    }
}

/// Adds the part of a name with selects.
fn add_part<'s>(
    selects: &Selects<'s>,
    scope: &Scope<'_>,
    table: &NamedTerms<'_>,
    terms: &mut Terms,
    name: &'s str,
    parts: &mut Vec<Part<'s>>,
) -> Result<(), NoMemory>
    requires objects { HasNarrowObjects (scope_at scope.now) }
    requires known { HasImages (scope_at scope.now) (images_at table.now) terms.old }
    requires sound { IsSoundTarget (scope_at scope.now) (pure.place name.now (selects_of selects.now)) }
    requires parts { AreParts (scope_at scope.now) terms.old parts.old.items }
    ensures grows { Grows terms.old terms.new }
    ensures prepared { OnOk result (ArePrepared (scope_at scope.now) (images_at table.now) terms.old parts.old.items (pure.place name.now (selects_of selects.now)) terms.new parts.new.items) }
{
    let object = scope.object(name);
    let found = selected(selects, scope, table, terms, object, name)?;
    parts.push(Part {
        name,
        address: found.address,
        bits: found.bits,
        count: found.count,
    })?;
    Ok(())
}

/// Adds the parts of a target, the leftmost first.
#[cycle(parts)]
pub(crate) fn add_parts<'s>(
    target: &Target<'s>,
    scope: &Scope<'_>,
    table: &NamedTerms<'_>,
    terms: &mut Terms,
    parts: &mut Vec<Part<'s>>,
) -> Result<(), NoMemory>
    requires objects { HasNarrowObjects (scope_at scope.now) }
    requires known { HasImages (scope_at scope.now) (images_at table.now) terms.old }
    requires sound { IsSoundTarget (scope_at scope.now) (target_of target.now) }
    requires parts { AreParts (scope_at scope.now) terms.old parts.old.items }
    ensures grows { Grows terms.old terms.new }
    ensures prepared { OnOk result (ArePrepared (scope_at scope.now) (images_at table.now) terms.old parts.old.items (target_of target.now) terms.new parts.new.items) }
{
    match target {
        Target::Place(name, selects) => {
            add_part(selects, scope, table, terms, name, parts)?;
            Ok(())
        }
        Target::Joined(targets) => {
            add_all_parts(targets, scope, table, terms, parts)?;
            Ok(())
        }
    }
}

/// Adds the parts of targets, the leftmost first.
#[cycle(parts)]
fn add_all_parts<'s>(
    targets: &[Target<'s>],
    scope: &Scope<'_>,
    table: &NamedTerms<'_>,
    terms: &mut Terms,
    parts: &mut Vec<Part<'s>>,
) -> Result<(), NoMemory>
    requires objects { HasNarrowObjects (scope_at scope.now) }
    requires known { HasImages (scope_at scope.now) (images_at table.now) terms.old }
    requires sound { AreSoundTargets (scope_at scope.now) (target_list targets.now) }
    requires parts { AreParts (scope_at scope.now) terms.old parts.old.items }
    ensures grows { Grows terms.old terms.new }
    ensures prepared { OnOk result (ArePrepared (scope_at scope.now) (images_at table.now) terms.old parts.old.items (pure.joined (target_list targets.now)) terms.new parts.new.items) }
{
    for target in targets {
        add_parts(target, scope, table, terms, parts)?;
    }
    Ok(())
}

/// How many bits the parts have together.
fn width_of_parts(parts: &[Part<'_>]) -> u32
    requires { counts parts.now ≤ 128 }
    ensures { result ≡ counts parts.now }
{
    let mut width = 0;
    for part in parts {
        width += part.count;
    }
    width
}

/// An assignment before it is written: the parts of its target, the leftmost first, and its value, a word of so many bits.
#[derive(Drop)]
pub(crate) struct Assignment<'s> {
    pub(crate) parts: Vec<Part<'s>>,
    pub(crate) value: TermId,
    pub(crate) width: u32,
}

/// The parts of a target and the value that an assignment gives it, both read in the table.
pub(crate) fn prepared<'s>(
    alloc: Global,
    target: &Target<'s>,
    expression: &Expression<'s>,
    scope: &Scope<'_>,
    table: &NamedTerms<'_>,
    terms: &mut Terms,
) -> Result<Assignment<'s>, NoMemory>
    requires objects { HasNarrowObjects (scope_at scope.now) }
    requires known { HasImages (scope_at scope.now) (images_at table.now) terms.old }
    requires sound { IsSoundAssignment (scope_at scope.now) (target_of target.now) (tree_of expression.now) }
    ensures grows { Grows terms.old terms.new }
    ensures prepared { IfOk result (λ r. IsPrepared (scope_at scope.now) (images_at table.now) terms.new (target_of target.now) (tree_of expression.now) r.parts.items r.value.0 r.width) }
{
    let mut parts = Vec::new(alloc);
    add_parts(target, scope, table, terms, &mut parts)?;
    let width = width_of_parts(&parts);
    let value = assigned(expression, scope, table, terms, width)?;
    Ok(Assignment {
        parts,
        value,
        width,
    })
}

//! Widths, counts and bits that the walk down an expression asks for.

ghost use Rattle.std.specs.Prelude.{◌≡◌, ℕ, ◌-◌, ◌≤◌, cond, nat_le, IfOk};
ghost use Rattle.wb_values.specs.Value.{word};
ghost use Rattle.verilog_trees.specs.Syntax as pure;
ghost use Rattle.verilog_meaning.specs.Expression.{natural_of, integer_from, is_memory};
ghost use Rattle.v_syntax.specs.Tree.{tree_of, select_of};
ghost use Rattle.v_value.specs.Scope.{object_of, scope_at};
ghost use Rattle.v_value.specs.Index.{integer_at};
ghost use Rattle.v_value.specs.Narrow.{IsNarrow};
ghost use Rattle.v_value.specs.Evaluation.{width_at, sign_at, count_at};
ghost use Rattle.v_operators.specs.Meaning.{Grows, IsOfSort, Joins};
ghost use Rattle.v_bits.specs.Moving.{taken_from};
ghost use Rattle.v_lower.specs.Table.{images_at};
ghost use Rattle.v_lower.specs.Lowered.{HasImages};
ghost use Rattle.v_lower.specs.Reading.{TakesBits};
ghost use Rattle.v_lower.specs.Walking.{IsSound, IsBounded};
ghost use Rattle.v_lower.specs.Contexts.{IsTaken};

use crate::NoMemory;
use crate::names::Names;
use crate::steps::Context;
use v_bits::{Operand, Wanted, bits_at, fixed_bits};
use v_syntax::tree::{Expression, Select};
use v_value::scope::Object;
use v_value::select::Integer;
use v_value::sign::sign_of;
use v_value::taken::{integer_of, select_bits};
use v_value::width::width_of;
use wb_terms::Terms;

/// The width and the sign of an expression by itself.
pub(crate) fn own_context(expression: &Expression<'_>, names: Names<'_, '_, '_, '_>) -> Context
    requires { IsSound (scope_at names.scope.now) (tree_of expression.now) }
    ensures width { result.width ≡ width_at (scope_at names.entry.scope.now) (tree_of expression.now) }
    ensures sign { result.signed ≡ sign_at (scope_at names.entry.scope.now) (tree_of expression.now) }
    ensures some_bits { 1 ≤ result.width }
    ensures at_most_128 { result.width ≤ 128 }
{
    Context {
        width: width_of(expression, names.scope),
        signed: sign_of(expression, names.scope),
    }
}

/// An integer of at most 128 as a natural number; one below 0 counts as 0.
fn natural(integer: Integer) -> u32
    requires { natural_of (integer_at integer) ≤ 128 }
    ensures { result ≡ natural_of (integer_at integer) }
{
    if integer.negative {
        0
    } else {
        integer.magnitude as u32
    }
}

/// The number of a constant, which is at most 128.
pub(crate) fn count_of(count: &Expression<'_>, names: Names<'_, '_, '_, '_>) -> u32
    requires narrow { IsNarrow (scope_at names.scope.now) (tree_of count.now) }
    requires at_most_128 { count_at (scope_at names.scope.now) (tree_of count.now) ≤ 128 }
    ensures { result ≡ count_at (scope_at names.entry.scope.now) (tree_of count.now) }
{
    natural(integer_of(count, names.scope, &[]))
}

/// One bit of an object.
pub(crate) fn one_bit_of(object: Object) -> Wanted
    ensures object { result.object ≡ object }
    ensures back { result.back ≡ 0 }
    ensures count { result.count ≡ 1 }
{
    Wanted {
        object,
        back: 0,
        count: 1,
    }
}

/// So many bits of an object, their indexes from a base up.
pub(crate) fn upward(object: Object, count: u32) -> Wanted
    requires { 1 ≤ count }
    ensures object { result.object ≡ object }
    ensures back { result.back ≡ cond (nat_le object.right object.left) 0 (count - 1) }
    ensures count { result.count ≡ count }
{
    let back = if object.right <= object.left {
        0
    } else {
        count - 1
    };
    Wanted {
        object,
        back,
        count,
    }
}

/// The same from a base down.
pub(crate) fn downward(object: Object, count: u32) -> Wanted
    requires { 1 ≤ count }
    ensures object { result.object ≡ object }
    ensures back { result.back ≡ cond (nat_le object.right object.left) (count - 1) 0 }
    ensures count { result.count ≡ count }
{
    let back = if object.right <= object.left {
        count - 1
    } else {
        0
    };
    Wanted {
        object,
        back,
        count,
    }
}

/// So many bits of an operand by an index.
pub(crate) fn taken_bits(
    terms: &mut Terms,
    wanted: Wanted,
    operand: Operand,
    index: Operand,
) -> Result<Operand, NoMemory>
    requires operand { IsOfSort terms.old operand.id.0 (word operand.width) }
    requires index { IsOfSort terms.old index.id.0 (word index.width) }
    requires small { wanted.back ≤ 128 }
    requires some_bits { 1 ≤ wanted.count }
    requires at_most_128 { wanted.count ≤ 128 }
    ensures grows { Grows terms.old terms.new }
    ensures width { IfOk result (λ r. r.width ≡ wanted.count) }
    ensures made { IfOk result (λ r. Joins terms.old terms.new operand.id.0 operand.width index.id.0 index.width r.id.0 wanted.count (λ x i. taken_from (object_of wanted.object) wanted.back wanted.count (integer_from index.signed index.width i) x)) }
{
    let id = bits_at(terms, wanted, operand.id, operand.width, index)?;
    Ok(Operand {
        id,
        width: wanted.count,
        signed: false,
    })
}

/// The bits that a part select between two bounds takes of an operand.
pub(crate) fn bounded_bits(
    select: &Select<'_>,
    names: Names<'_, '_, '_, '_>,
    terms: &mut Terms,
    object: Object,
    operand: Operand,
) -> Result<Operand, NoMemory>
    requires taken { IsTaken (scope_at names.scope.now) (select_of select.now) }
    requires bounded { IsBounded (select_of select.now) }
    requires operand { IsOfSort terms.old operand.id.0 (word operand.width) }
    ensures grows { Grows terms.old terms.new }
    ensures bits { IfOk result (λ r. TakesBits (scope_at names.entry.scope.now) (images_at names.entry.table.now) terms.old terms.new (object_of object) (select_of select.now) operand.id.0 operand.width r.width r.id.0) }
{
    let span = select_bits(select, names.scope, &[], object);
    let id = fixed_bits(terms, operand.id, operand.width, span)?;
    Ok(Operand {
        id,
        width: span.count,
        signed: false,
    })
}

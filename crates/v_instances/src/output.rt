//! What is connected to an output: a target where it is one, else an expression.
ghost use Rattle.std.specs.Prelude.{◌≡◌, ◌||◌, Some, option_map};
ghost use Rattle.verilog_meaning.specs.Expression as meaning;
ghost use Rattle.verilog_trees.specs.Syntax as pure;
ghost use Rattle.verilog_designs.specs.Expressions as designs;
ghost use Rattle.v_value.specs.Scope.{object_of, scope_at};
ghost use Rattle.v_syntax.specs.Tree.{selects_of, tree_of};
ghost use Rattle.v_size.specs.Rule.{coded};
ghost use Rattle.v_size.specs.Judged.{capped};
ghost use Rattle.v_instances.specs.Connections.{are_none};
ghost use Rattle.v_instances.specs.Outputs.{written_at, no_part, with_part, whole, found_at, with_found, found_from, found_alone, in_net, expression_at, output_at, constant_at};

use v_size::{
    Broken, Names, Position, added, also, broken_in, by_total, constant_in, nothing, place_in,
};
use v_syntax::tree::{Expression, Selects};
use v_value::scope::Object;

/// What is found out of a target: the rules that it breaks, its width, where that has a value (129 stands for all above 128), and
/// whether a memory is written.
#[derive(Clone, Copy, PartialEq, Eq, Debug)]
pub(crate) struct Written {
    pub(crate) broken: Broken,
    pub(crate) width: Option<u32>,
    pub(crate) memory: bool,
}

/// The rules that an expression breaks where anything may be read.
pub(crate) fn broken_expression(expression: &Expression<'_>, names: Names<'_, '_>) -> Broken
    ensures { result ≡ expression_at (scope_at names.entry.scope.now) (tree_of expression.now) }
{
    broken_in(expression, names)
}

/// The rules that a constant breaks in the context of its own width and sign.
pub(crate) fn broken_constant(expression: &Expression<'_>, names: Names<'_, '_>) -> Broken
    ensures { result ≡ constant_at (scope_at names.entry.scope.now) (tree_of expression.now) }
{
    let constant = constant_in(expression, names);
    constant.broken
}

/// Whether one of the two holds.
fn or(x: bool, y: bool) -> bool
    ensures { result ≡ (x || y) }
{
    x || y
}

/// A width, 129 for all above 128.
fn capped(width: Option<u32>) -> Option<u32>
    ensures { result ≡ capped width }
{
    match width {
        Some(width) => Some(width.min(129)),
        None => None,
    }
}

/// Whether the object is a memory.
fn is_memory(object: Object) -> bool
    ensures { result ≡ meaning.is_memory (object_of object) }
{
    object.addresses.is_some()
}

/// The rule on memories, where it is broken.
fn memory_if(broken: bool) -> Broken
    ensures { result ≡ coded (designs.memory_if broken) }
{
    Broken {
        memory_use: broken,
        ..nothing()
    }
}

/// No parts.
fn no_part() -> Written
    ensures { result ≡ no_part }
{
    Written {
        broken: nothing(),
        width: Some(0),
        memory: false,
    }
}

/// A part after others.
fn with_part(before: Written, part: Written) -> Written
    ensures { result ≡ with_part before part }
{
    Written {
        broken: also(before.broken, part.broken),
        width: added(before.width, part.width),
        memory: or(before.memory, part.memory),
    }
}

/// A part after others, where all of them are targets.
fn with_found(before: Option<Written>, part: Option<Written>) -> Option<Written>
    ensures { result ≡ with_found before part }
{
    match before {
        Some(before) => match part {
            Some(part) => Some(with_part(before, part)),
            None => None,
        },
        None => None,
    }
}

/// Parts as one target.
fn whole(parts: Written) -> Written
    ensures { result ≡ whole parts }
{
    let width = capped(parts.width);
    Written {
        broken: also(by_total(width), parts.broken),
        width,
        memory: parts.memory,
    }
}

/// Parts as one target, where all of them are targets.
fn whole_found(parts: Option<Written>) -> Option<Written>
    ensures { result ≡ option_map whole parts }
{
    match parts {
        Some(parts) => Some(whole(parts)),
        None => None,
    }
}

/// A name with the selects after it, which must be constant.
fn judged_place(selects: &Selects<'_>, names: Names<'_, '_>, name: &str) -> Written
    ensures { result ≡ written_at (scope_at names.entry.scope.now) (pure.place name.now (selects_of selects.now)) }
{
    let object = names.scope.object(name);
    let found = place_in(selects, names, Position::Constant(None, false), object);
    Written {
        broken: found.0,
        width: capped(found.1),
        memory: is_memory(object),
    }
}

/// A target, where nothing else stands beside it.
fn found_alone<X>(others: &[X], found: Option<Written>) -> Option<Written>
    ensures { result ≡ found_alone (are_none others.now) found }
{
    if others.is_empty() { found } else { None }
}

/// An expression, where it is a target as well. A chain without links is what stands in it.
#[cycle(output)]
fn found_in(expression: &Expression<'_>, names: Names<'_, '_>) -> Option<Written>
    ensures { result ≡ found_at (scope_at names.entry.scope.now) (tree_of expression.now) }
{
    match expression {
        Expression::Number(_) => None,
        Expression::Name(name, selects) => Some(judged_place(selects, names, name)),
        Expression::Concatenation(parts) => whole_found(found_parts(parts, names)),
        Expression::Replication(_, _) => None,
        Expression::AsSigned(_) => None,
        Expression::AsUnsigned(_) => None,
        Expression::Prefix(operators, operand) => found_alone(operators, found_in(operand, names)),
        Expression::Binary(first, links) => found_alone(links, found_in(first, names)),
        Expression::Test(first, links) => found_alone(links, found_in(first, names)),
        Expression::Conditional(choices, last) => found_alone(choices, found_in(last, names)),
    }
}

/// Expressions side by side, where all of them are targets.
#[cycle(output)]
fn found_parts(parts: &[Expression<'_>], names: Names<'_, '_>) -> Option<Written>
    ensures { result ≡ found_from (scope_at names.entry.scope.now) (Some no_part) parts.now }
{
    let mut all = Some(no_part());
    for part in parts {
        all = with_found(all, found_in(part, names));
    }
    all
}

/// The rules that a target outside clocked blocks breaks.
fn in_net(target: Written) -> Broken
    ensures { result ≡ in_net target }
{
    also(memory_if(target.memory), target.broken)
}

/// The rules that what is connected to an output breaks.
pub(crate) fn broken_output(expression: &Expression<'_>, names: Names<'_, '_>) -> Broken
    ensures { result ≡ output_at (scope_at names.entry.scope.now) (tree_of expression.now) }
{
    match found_in(expression, names) {
        Some(target) => in_net(target),
        None => broken_in(expression, names),
    }
}

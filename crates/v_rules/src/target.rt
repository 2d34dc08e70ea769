//! The rules that targets break.
ghost use Rattle.std.specs.Prelude.{◌≡◌, ◌||◌};
ghost use Rattle.verilog_trees.specs.Syntax as pure;
ghost use Rattle.verilog_meaning.specs.Expression as meaning;
ghost use Rattle.verilog_designs.specs.Expressions as designs;
ghost use Rattle.v_value.specs.Scope.{object_of, scope_at};
ghost use Rattle.v_syntax.specs.Tree.{selects_of, target_of};
ghost use Rattle.v_size.specs.Rule.{coded, position_of};
ghost use Rattle.v_size.specs.Judged.{capped};
ghost use Rattle.v_rules.specs.Targets.{target_at, no_part, with_part, whole, targets_from, in_net, in_block, block_target_at, net_target_at};

use v_size::{Broken, Names, Position, added, also, by_total, nothing, place_in};
use v_syntax::tree::{Selects, Target};
use v_value::scope::Object;

/// What is found out of a target: the rules that it breaks, its width, where that has a value (129 stands for all above 128), and
/// whether a memory is written.
#[derive(Clone, Copy, PartialEq, Eq, Debug)]
pub(crate) struct Written {
    pub(crate) broken: Broken,
    pub(crate) width: Option<u32>,
    pub(crate) memory: bool,
}

/// Whether one of the two holds.
fn or(x: bool, y: bool) -> bool
    ensures { result ≡ (x || y) }
{
    x || y
}

/// A width, 129 for all above 128.
fn capped(width: Option<u32>) -> Option<u32>
    ensures { result ≡ capped width }
{
    match width {
        Some(width) => Some(width.min(129)),
        None => None,
    }
}

/// Whether the object is a memory.
pub(crate) fn is_memory(object: Object) -> bool
    ensures { result ≡ meaning.is_memory (object_of object) }
{
    object.addresses.is_some()
}

/// The rule on memories, where it is broken.
pub(crate) fn memory_if(broken: bool) -> Broken
    ensures { result ≡ coded (designs.memory_if broken) }
{
    Broken {
        memory_use: broken,
        ..nothing()
    }
}

/// No parts.
fn no_part() -> Written
    ensures { result ≡ no_part }
{
    Written {
        broken: nothing(),
        width: Some(0),
        memory: false,
    }
}

/// A part after others.
fn with_part(before: Written, part: Written) -> Written
    ensures { result ≡ with_part before part }
{
    Written {
        broken: also(before.broken, part.broken),
        width: added(before.width, part.width),
        memory: or(before.memory, part.memory),
    }
}

/// Parts as one target.
fn whole(parts: Written) -> Written
    ensures { result ≡ whole parts }
{
    let width = capped(parts.width);
    Written {
        broken: also(by_total(width), parts.broken),
        width,
        memory: parts.memory,
    }
}

/// A name with the selects after it.
fn judged_place(
    selects: &Selects<'_>,
    names: Names<'_, '_>,
    position: Position,
    name: &str,
) -> Written
    ensures { result ≡ target_at (scope_at names.entry.scope.now) (position_of position) (pure.place name.now (selects_of selects.now)) }
{
    let object = names.scope.object(name);
    let found = place_in(selects, names, position, object);
    Written {
        broken: found.0,
        width: capped(found.1),
        memory: is_memory(object),
    }
}

/// A target whose indexes stand in this place.
#[cycle(target)]
pub(crate) fn judged_target(
    target: &Target<'_>,
    names: Names<'_, '_>,
    position: Position,
) -> Written
    ensures { result ≡ target_at (scope_at names.entry.scope.now) (position_of position) (target_of target.now) }
{
    match target {
        Target::Place(name, selects) => judged_place(selects, names, position, name),
        Target::Joined(targets) => whole(judged_targets(targets, names, position)),
    }
}

/// Targets side by side.
#[cycle(target)]
fn judged_targets(targets: &[Target<'_>], names: Names<'_, '_>, position: Position) -> Written
    ensures { result ≡ targets_from (scope_at names.entry.scope.now) (position_of position) no_part targets.now }
{
    let mut all = no_part();
    for target in targets {
        all = with_part(all, judged_target(target, names, position));
    }
    all
}

/// The rules that a target outside clocked blocks breaks.
fn in_net(target: Written) -> Broken
    ensures { result ≡ in_net target }
{
    also(memory_if(target.memory), target.broken)
}

/// The rules that the target of a block breaks.
fn in_block(clocked: bool, target: Written) -> Broken
    ensures { result ≡ in_block clocked target }
{
    if clocked {
        return target.broken;
    }
    in_net(target)
}

/// The rules that a target outside clocked blocks breaks, whose indexes stand in this place.
pub(crate) fn broken_net_target(
    target: &Target<'_>,
    names: Names<'_, '_>,
    position: Position,
) -> Broken
    ensures { result ≡ net_target_at (scope_at names.entry.scope.now) (position_of position) (target_of target.now) }
{
    in_net(judged_target(target, names, position))
}

/// The rules that the target of an assignment in a block breaks.
pub(crate) fn broken_block_target(
    target: &Target<'_>,
    names: Names<'_, '_>,
    clocked: bool,
) -> Broken
    ensures { result ≡ block_target_at (scope_at names.entry.scope.now) clocked (target_of target.now) }
{
    in_block(clocked, judged_target(target, names, Position::Anywhere))
}

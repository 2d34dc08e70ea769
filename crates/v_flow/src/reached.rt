//! The bits that targets read, and those that an assignment to them may assign or surely assigns.

ghost use Rattle.std.specs.Prelude.{◌≡◌, OnOk, true, false};
ghost use Rattle.verilog_trees.specs.Syntax.{name as named};
ghost use Rattle.verilog_meaning.specs.Register.{may_reach};
ghost use Rattle.verilog_designs.specs.Reads.{or_in, target_reads, surely_reaches};
ghost use Rattle.v_value.specs.Scope.{scope_at};
ghost use Rattle.v_value.specs.Narrow.{IsNarrow, HasNarrowObjects};
ghost use Rattle.v_syntax.specs.Tree.{selects_of, target_of};
ghost use Rattle.v_statement.specs.Statements.{target_list};
ghost use Rattle.v_flow.specs.Spans.{bits_in, existing};
ghost use Rattle.v_flow.specs.Narrow.{HasNarrowParts, HaveNarrowParts};
ghost use Rattle.v_flow.specs.Flow.{place_reached, reached, one_reached, targets_read_at, target_reads_at};

use crate::constant::are_constant_selects;
use crate::place::add_meant;
use crate::read::add_selects;
use crate::span::Span;
use std::alloc::AllocError;
use v_syntax::tree::{Selects, Target};
use v_value::scope::Scope;

/// Adds the bits of a name with selects, those alone that are surely meant where `surely`.
fn add_place<'s>(
    selects: &Selects<'s>,
    scope: &Scope<'_>,
    surely: bool,
    name: &'s str,
    found: &mut Vec<Span<'s>>,
) -> Result<(), AllocError>
    requires objects { HasNarrowObjects (scope_at scope.now) }
    requires narrow { IsNarrow (scope_at scope.now) (named name.now (selects_of selects.now)) }
    ensures { OnOk result (bits_in found.new.items ≡ or_in (bits_in found.old.items) (place_reached (scope_at scope.now) surely name.now (selects_of selects.now))) }
{
    if surely {
        add_sure(selects, scope, name, found)
    } else {
        add_meant(selects, scope, name, found)
    }
}

/// Adds the bits of a name where all indexes behind it are constant.
fn add_sure<'s>(
    selects: &Selects<'s>,
    scope: &Scope<'_>,
    name: &'s str,
    found: &mut Vec<Span<'s>>,
) -> Result<(), AllocError>
    requires objects { HasNarrowObjects (scope_at scope.now) }
    requires narrow { IsNarrow (scope_at scope.now) (named name.now (selects_of selects.now)) }
    ensures { OnOk result (bits_in found.new.items ≡ or_in (bits_in found.old.items) (place_reached (scope_at scope.now) true name.now (selects_of selects.now))) }
{
    if are_constant_selects(selects, scope) {
        add_meant(selects, scope, name, found)
    } else {
        Ok(())
    }
}

#[cycle(reaching)]
pub(crate) fn add_each<'s>(
    target: &Target<'s>,
    scope: &Scope<'_>,
    surely: bool,
    found: &mut Vec<Span<'s>>,
) -> Result<(), AllocError>
    requires objects { HasNarrowObjects (scope_at scope.now) }
    requires narrow { HasNarrowParts (scope_at scope.now) (target_of target.now) }
    ensures { OnOk result (bits_in found.new.items ≡ or_in (bits_in found.old.items) (reached (scope_at scope.now) surely (target_of target.now))) }
{
    match target {
        Target::Place(name, selects) => add_place(selects, scope, surely, name, found),
        Target::Joined(targets) => add_all(targets, scope, surely, found),
    }
}

#[cycle(reaching)]
fn add_all<'s>(
    targets: &[Target<'s>],
    scope: &Scope<'_>,
    surely: bool,
    found: &mut Vec<Span<'s>>,
) -> Result<(), AllocError>
    requires objects { HasNarrowObjects (scope_at scope.now) }
    requires narrow { HaveNarrowParts (scope_at scope.now) (target_list targets.now) }
    ensures { OnOk result (bits_in found.new.items ≡ or_in (bits_in found.old.items) (one_reached (scope_at scope.now) surely (target_list targets.now))) }
{
    for target in targets {
        add_each(target, scope, surely, found)?;
    }
    Ok(())
}

#[cycle(indexing)]
pub(crate) fn add_indexes<'s>(
    target: &Target<'s>,
    scope: &Scope<'_>,
    found: &mut Vec<Span<'s>>,
) -> Result<(), AllocError>
    requires objects { HasNarrowObjects (scope_at scope.now) }
    requires narrow { HasNarrowParts (scope_at scope.now) (target_of target.now) }
    ensures { OnOk result (bits_in found.new.items ≡ or_in (bits_in found.old.items) (target_reads_at (scope_at scope.now) (target_of target.now))) }
{
    match target {
        Target::Place(_, selects) => add_selects(selects, scope, found),
        Target::Joined(targets) => add_all_indexes(targets, scope, found),
    }
}

#[cycle(indexing)]
fn add_all_indexes<'s>(
    targets: &[Target<'s>],
    scope: &Scope<'_>,
    found: &mut Vec<Span<'s>>,
) -> Result<(), AllocError>
    requires objects { HasNarrowObjects (scope_at scope.now) }
    requires narrow { HaveNarrowParts (scope_at scope.now) (target_list targets.now) }
    ensures { OnOk result (bits_in found.new.items ≡ or_in (bits_in found.old.items) (targets_read_at (scope_at scope.now) (target_list targets.now))) }
{
    for target in targets {
        add_indexes(target, scope, found)?;
    }
    Ok(())
}

/// Adds the bits that the indexes of a target read.
#[tactic(auto, unfolding(crate::specs::Flow::target_reads_at))]
pub fn add_target_reads<'s>(
    target: &Target<'s>,
    scope: &Scope<'_>,
    found: &mut Vec<Span<'s>>,
) -> Result<(), AllocError>
    requires objects { HasNarrowObjects (scope_at scope.now) }
    requires narrow { HasNarrowParts (scope_at scope.now) (target_of target.now) }
    ensures { OnOk result (bits_in found.new.items ≡ or_in (bits_in found.old.items) (target_reads (scope_at scope.now) (target_of target.now))) }
{
    add_indexes(target, scope, found)
}

/// Adds the bits that an assignment to a target may assign.
#[tactic(auto, unfolding(crate::specs::Flow::reached))]
pub fn add_reached<'s>(
    target: &Target<'s>,
    scope: &Scope<'_>,
    found: &mut Vec<Span<'s>>,
) -> Result<(), AllocError>
    requires objects { HasNarrowObjects (scope_at scope.now) }
    requires narrow { HasNarrowParts (scope_at scope.now) (target_of target.now) }
    ensures { OnOk result (bits_in found.new.items ≡ or_in (bits_in found.old.items) (existing (scope_at scope.now) (may_reach (scope_at scope.now) (target_of target.now)))) }
{
    add_each(target, scope, false, found)
}

/// Adds the bits that an assignment to a target assigns, whatever its variable indexes are.
#[tactic(auto, unfolding(crate::specs::Flow::reached))]
pub fn add_surely_reached<'s>(
    target: &Target<'s>,
    scope: &Scope<'_>,
    found: &mut Vec<Span<'s>>,
) -> Result<(), AllocError>
    requires objects { HasNarrowObjects (scope_at scope.now) }
    requires narrow { HasNarrowParts (scope_at scope.now) (target_of target.now) }
    ensures { OnOk result (bits_in found.new.items ≡ or_in (bits_in found.old.items) (existing (scope_at scope.now) (surely_reaches (scope_at scope.now) (target_of target.now)))) }
{
    add_each(target, scope, true, found)
}

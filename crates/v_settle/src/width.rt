//! How many bits targets have.

ghost use Rattle.std.specs.Prelude.{◌≡◌, ◌≤◌};
ghost use Rattle.verilog_trees.specs.Syntax.{name as named};
ghost use Rattle.verilog_meaning.specs.Expression.{object_width, selects_width};
ghost use Rattle.verilog_meaning.specs.Statement.{all_bits, target_width, targets_width};
ghost use Rattle.v_syntax.specs.Tree.{selects_of, target_of};
ghost use Rattle.v_value.specs.Scope.{object_of, scope_at};
ghost use Rattle.v_value.specs.Index.{span_of};
ghost use Rattle.v_value.specs.Narrow.{IsNarrow, HasNarrowObjects};
ghost use Rattle.v_statement.specs.Statements.{target_list};
ghost use Rattle.v_flow.specs.Narrow.{HasNarrowParts, HaveNarrowParts};
ghost use Rattle.v_depend.specs.Left.{part_bits};

use v_syntax::tree::{Selects, Target};
use v_value::scope::{Object, Scope};
use v_value::select::{Integer, Span};
use v_value::taken::select_bits;
use v_value::width::object_width;

/// All bits of an object. (This and the next stand in `v_depend`, where they are private.)
fn whole_span(object: Object) -> Span
    requires { object_width (object_of object) ≤ 128 }
    ensures { span_of result ≡ all_bits (object_of object) }
{
    Span {
        place: Integer {
            negative: false,
            magnitude: 0,
        },
        back: 0,
        count: object_width(object),
    }
}

/// The bits that a part of a target takes, its variable indexes read as 0.
pub(crate) fn part_span(selects: &Selects<'_>, name: &str, scope: &Scope<'_>) -> Span
    requires objects { HasNarrowObjects (scope_at scope.now) }
    requires narrow { IsNarrow (scope_at scope.now) (named name.now (selects_of selects.now)) }
    ensures { span_of result ≡ part_bits (scope_at scope.now) (scope_at scope.now name.now) (selects_of selects.now) }
{
    let object = scope.object(name);
    match selects {
        Selects::Whole => whole_span(object),
        Selects::One(select) => {
            if object.addresses.is_some() {
                whole_span(object)
            } else {
                select_bits(select, scope, &[], object)
            }
        }
        Selects::Two(_, select) => select_bits(select, scope, &[], object),
    }
}

/// How many bits a name with selects has.
pub(crate) fn place_width(selects: &Selects<'_>, name: &str, scope: &Scope<'_>) -> u32
    requires objects { HasNarrowObjects (scope_at scope.now) }
    requires narrow { IsNarrow (scope_at scope.now) (named name.now (selects_of selects.now)) }
    ensures { result ≡ selects_width (scope_at scope.now) (scope_at scope.now name.now) (selects_of selects.now) }
{
    let span = part_span(selects, name, scope);
    span.count
}

/// How many bits a target has.
#[cycle(measuring)]
pub(crate) fn target_width(target: &Target<'_>, scope: &Scope<'_>) -> u32
    requires objects { HasNarrowObjects (scope_at scope.now) }
    requires narrow { HasNarrowParts (scope_at scope.now) (target_of target.now) }
    requires at_most_128 { target_width (scope_at scope.now) (target_of target.now) ≤ 128 }
    ensures { result ≡ target_width (scope_at scope.now) (target_of target.now) }
{
    match target {
        Target::Place(name, selects) => place_width(selects, name, scope),
        Target::Joined(targets) => all_width(targets, scope),
    }
}

/// How many bits targets have together.
#[cycle(measuring)]
fn all_width(targets: &[Target<'_>], scope: &Scope<'_>) -> u32
    requires objects { HasNarrowObjects (scope_at scope.now) }
    requires narrow { HaveNarrowParts (scope_at scope.now) (target_list targets.now) }
    requires at_most_128 { targets_width (scope_at scope.now) (target_list targets.now) ≤ 128 }
    ensures { result ≡ targets_width (scope_at scope.now) (target_list targets.now) }
{
    let mut width = 0;
    for target in targets {
        let more = target_width(target, scope);
        width += more;
    }
    width
}

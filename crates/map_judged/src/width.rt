//! Which expression of a map has another width than it must have.

ghost use Rattle.std.specs.Prelude.{◌≡◌};
ghost use Rattle.verilog_meaning.specs.Settled.{Design};
ghost use Rattle.map_judged.specs.Asked.{asked_list, names_asked, AreNamed};
ghost use Rattle.map_judged.specs.Flaws.{IsFirstMismatch};
ghost use Rattle.map_judged.specs.Known.{AreKnown};
ghost use Rattle.map_judged.specs.Told.{differs_by, is_mismatch, first_mismatch_from};

use crate::expression::MapExpression;
use crate::known::KnownNames;
use map_sizes::judged;
use map_sizes::laws::scopes_that_agree_judge_alike;
use v_size::Names;

/// Whether both are there and differ.
fn differs(wanted: Option<u32>, width: Option<u32>) -> bool
    ensures { result ≡ differs_by wanted width }
{
    match (wanted, width) {
        (Some(wanted), Some(width)) => width != wanted,
        _ => false,
    }
}

/// Whether an expression has another width by itself than it must have.
fn is_mismatch(expression: &MapExpression<'_, '_>, known: &KnownNames<'_, '_>) -> bool
    ensures { result ≡ is_mismatch known.now expression.now }
{
    let names = Names {
        scope: &known.scope,
    };
    let found = judged(expression.tree, names);
    differs(expression.width, found.width)
}

/// The number of the first that has.
fn first_differing(
    expressions: &[MapExpression<'_, '_>],
    known: &KnownNames<'_, '_>,
) -> Option<usize>
    ensures { result ≡ first_mismatch_from known.now 0 expressions.now }
{
    for (index, expression) in expressions.iter().enumerate() {
        if is_mismatch(expression, known) {
            return Some(index);
        }
    }
    None
}

/// The number of the first of these expressions that has another width by itself than it must have, where these are the meanings of their
/// names. One whose width has no value is not among them.
pub fn first_mismatch(
    expressions: &[MapExpression<'_, '_>],
    known: &KnownNames<'_, '_>,
) -> Option<usize>
    ensures { (d : Design) → AreKnown d (names_asked (asked_list expressions.now)) known.now → AreNamed expressions.now
        → IsFirstMismatch d (asked_list expressions.now) result }
{
    scopes_that_agree_judge_alike();
    first_differing(expressions, known)
}

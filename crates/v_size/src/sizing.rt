//! The width and the sign of an expression, or why it is refused.
ghost use Rattle.std.specs.Prelude.{◌≡◌, false};
ghost use Rattle.verilog_rules.specs.Expression.{broken, anywhere};
ghost use Rattle.v_value.specs.Scope.{scope_at};
ghost use Rattle.v_value.specs.Narrow.{HasNarrowObjects};
ghost use Rattle.v_syntax.specs.Tree.{tree_of};
ghost use Rattle.v_size.specs.Sizing.{IsSizing, given};

use crate::judged::{Names, judge};
use crate::rule::{Kind, Position, first_kind};
use v_syntax::tree::Expression;
use v_value::scope::Scope;
use v_value::sign::sign_of;

/// Why an expression is refused.
#[derive(Clone, Copy, PartialEq, Eq, Debug)]
pub struct SizeRefusal {
    pub kind: Kind,
}

/// What is answered, where this is the first kind whose rule is broken, and this the width.
fn given(kind: Option<Kind>, width: Option<u32>, signed: bool) -> Result<(u32, bool), SizeRefusal>
    ensures { result ≡ given kind width signed }
{
    match (kind, width) {
        (Some(kind), _) => Err(SizeRefusal { kind }),
        (None, Some(width)) => Ok((width, signed)),
        // No tree of a text comes here.
        (None, None) => Err(SizeRefusal {
            kind: Kind::WidthOver128,
        }),
    }
}

/// The width of the expression in bits, 1 to 128, and whether it is signed (1364-2005, 5.4.1 and 5.5.1), or the first kind of
/// refusal whose rule it breaks. All names of the scope have at most 128 bits, and what is said holds of an expression of a text,
/// whose numbers fit their widths.
pub fn size(expression: &Expression<'_>, scope: &Scope<'_>) -> Result<(u32, bool), SizeRefusal>
    requires { HasNarrowObjects (scope_at scope.now) }
    ensures { (broken (scope_at scope.now) anywhere (tree_of expression.now)).misshapen ≡ false → IsSizing (scope_at scope.now) (tree_of expression.now) result }
{
    let names = Names { scope };
    let judged = judge(expression, names, Position::Anywhere);
    let signed = sign_of(expression, scope);
    given(first_kind(judged.broken), judged.width, signed)
}

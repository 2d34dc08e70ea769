//! What is assigned to, and assignments.
ghost use Rattle.std.specs.Prelude.{false, OnOk};
ghost use Rattle.v_token.specs.View.{mark_of};
ghost use Rattle.v_syntax.specs.Tree.{tree_of, target_of};
ghost use Rattle.v_print.specs.Writes.{Writes};
ghost use Rattle.v_print_source.specs.Lists.{target_list};
ghost use Rattle.v_print_source.specs.Shown.{printed_target, printed_targets, printed_assignment};

use std::alloc::AllocError;
use v_print::expression::{write, write_selects};
use v_print::writer::Writer;
use v_syntax::tree::{Expression, Target};
use v_token::token::Mark;

/// A target.
#[cycle(target)]
pub(crate) fn write_target(target: &Target<'_>, out: &mut Writer) -> Result<(), AllocError>
    ensures { OnOk result (Writes out.old out.new (λ r. printed_target (target_of target.now) r)) }
{
    match target {
        Target::Place(name, selects) => {
            out.word(name)?;
            write_selects(selects, out)?;
            Ok(())
        }
        Target::Joined(parts) => {
            out.mark(Mark::LeftBrace)?;
            write_targets(parts, out)?;
            out.mark(Mark::RightBrace)?;
            Ok(())
        }
    }
}

/// Targets with commas between them.
#[cycle(target)]
fn write_targets(parts: &[Target<'_>], out: &mut Writer) -> Result<(), AllocError>
    ensures { OnOk result (Writes out.old out.new (λ r. printed_targets false (target_list parts.now) r)) }
{
    let mut started = false;
    for part in parts {
        out.comma_if(started)?;
        write_target(part, out)?;
        started = true;
    }
    Ok(())
}

/// A target, the sign, and the value.
pub(crate) fn write_assignment(
    target: &Target<'_>,
    sign: Mark,
    value: &Expression<'_>,
    out: &mut Writer,
) -> Result<(), AllocError>
    ensures { OnOk result (Writes out.old out.new (λ r. printed_assignment (mark_of sign) (target_of target.now) (tree_of value.now) r)) }
{
    write_target(target, out)?;
    out.between(sign)?;
    write(value, out)?;
    Ok(())
}

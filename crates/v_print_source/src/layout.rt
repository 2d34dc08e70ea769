//! Where lines begin, and what stands between the parts of a list.
ghost use Rattle.std.specs.Prelude.{◌≡◌, OnOk};
ghost use Rattle.v_print.specs.Spelled.{parted};
ghost use Rattle.v_print.specs.Writes.{Writes};
ghost use Rattle.v_print_source.specs.Lists.{is_nil};

use std::alloc::AllocError;
use v_print::writer::Writer;
use v_token::token::Mark;

/// Lines stand no further in than so many levels, so that a text is no longer than so many times its tokens.
const MOST_LEVELS: u64 = 32;

/// A new line at a level.
pub(crate) fn begin_line(level: u64, out: &mut Writer) -> Result<(), AllocError>
    ensures { OnOk result (Writes out.old out.new (λ r. r)) }
{
    out.line(level.min(MOST_LEVELS))?;
    Ok(())
}

/// The level of a body: the same where it stands on the line that is open, else one more.
pub(crate) fn body_level(beside: bool, level: u64) -> u64 {
    if beside {
        level
    } else {
        level.saturating_add(1)
    }
}

/// A blank where what comes next stands on the line that is open, else a new line.
pub(crate) fn gap(beside: bool, level: u64, out: &mut Writer) -> Result<(), AllocError>
    ensures { OnOk result (Writes out.old out.new (λ r. r)) }
{
    if beside {
        out.blank()?;
        return Ok(());
    }
    begin_line(level, out)?;
    Ok(())
}

/// What stands before a part of a list: a comma, but for the first; and a new line, where each stands on its own.
pub(crate) fn separate(
    started: bool,
    on_lines: bool,
    level: u64,
    out: &mut Writer,
) -> Result<(), AllocError>
    ensures { OnOk result (Writes out.old out.new (λ r. parted started r)) }
{
    if !on_lines {
        out.comma_if(started)?;
        return Ok(());
    }
    out.mark_if(Mark::Comma, started)?;
    begin_line(level, out)?;
    Ok(())
}

/// Whether there is nothing in a list.
pub(crate) fn is_nil<T>(items: &[T]) -> bool
    ensures { result ≡ is_nil items.now }
{
    match items {
        [] => true,
        [_, ..] => false,
    }
}

//! What the rules ask of a written term.

ghost use Rattle.std.specs.Prelude.{◌≡◌, Some, None, option_map, ◌||◌, ◌&&◌, ◌^◌, nat_lt};
ghost use Rattle.wb_values.specs.Choice.{some_if};
ghost use Rattle.model_files.specs.Rules.{has_widths, has_fitting_constants};
ghost use Rattle.ila_file.specs.View.{sort_view, term_view};
ghost use Rattle.ila_rules.specs.Seen.{sort_at, memory_at, uses_unknown, common_memory};
ghost use Rattle.ila_rules.specs.View.{look_of, name_view};

use crate::scope::{Frame, find_in};
use crate::sorts;
use ila_file::{WrittenSort, WrittenTerm};

/// Whether the term uses a name that is not visible.
pub(crate) fn uses_unknown<'v>(
    term: &WrittenTerm<'v>,
    frames: &[Frame<'v>],
    last: &Frame<'v>,
) -> bool
    ensures { result ≡ uses_unknown (look_of frames.now last.now) (term_view term.now) }
{
    match term {
        WrittenTerm::Name(name) => find_in(frames, last, name).is_none(),
        WrittenTerm::Truth(_) | WrittenTerm::Const(_, _) => false,
        WrittenTerm::Unary(_, operand)
        | WrittenTerm::Extract(_, _, operand)
        | WrittenTerm::Widen(_, _, operand) => uses_unknown(operand, frames, last),
        WrittenTerm::Binary(_, first, second) => {
            uses_unknown(first, frames, last) || uses_unknown(second, frames, last)
        }
        WrittenTerm::Ite(first, second, third) | WrittenTerm::Store(first, second, third) => {
            uses_unknown(first, frames, last)
                || uses_unknown(second, frames, last)
                || uses_unknown(third, frames, last)
        }
    }
}

/// Whether each width and index that the term states is in range.
pub(crate) fn has_widths(term: &WrittenTerm<'_>) -> bool
    ensures { result ≡ has_widths (term_view term.now) }
{
    match term {
        WrittenTerm::Name(_) | WrittenTerm::Truth(_) => true,
        WrittenTerm::Const(width, _) => sorts::is_width(*width),
        WrittenTerm::Unary(_, operand) => has_widths(operand),
        WrittenTerm::Extract(high, low, operand) => {
            *high <= 127 && *low <= 127 && has_widths(operand)
        }
        WrittenTerm::Widen(_, width, operand) => sorts::is_width(*width) && has_widths(operand),
        WrittenTerm::Binary(_, first, second) => has_widths(first) && has_widths(second),
        WrittenTerm::Ite(first, second, third) | WrittenTerm::Store(first, second, third) => {
            has_widths(first) && has_widths(second) && has_widths(third)
        }
    }
}

/// Whether the number is below 2^width.
pub(crate) fn fits(width: u64, number: u128) -> bool
    ensures { result ≡ nat_lt number (2 ^ width) }
{
    if width >= 128 {
        return true;
    }
    number >> width == 0
}

/// Whether each constant of the term fits its width.
pub(crate) fn has_fitting_constants(term: &WrittenTerm<'_>) -> bool
    ensures { result ≡ has_fitting_constants (term_view term.now) }
{
    match term {
        WrittenTerm::Name(_) | WrittenTerm::Truth(_) => true,
        WrittenTerm::Const(width, number) => fits(*width, *number),
        WrittenTerm::Unary(_, operand)
        | WrittenTerm::Extract(_, _, operand)
        | WrittenTerm::Widen(_, _, operand) => has_fitting_constants(operand),
        WrittenTerm::Binary(_, first, second) => {
            has_fitting_constants(first) && has_fitting_constants(second)
        }
        WrittenTerm::Ite(first, second, third) | WrittenTerm::Store(first, second, third) => {
            has_fitting_constants(first)
                && has_fitting_constants(second)
                && has_fitting_constants(third)
        }
    }
}

/// The sort of the term, where it has one.
pub(crate) fn sort_of<'v>(
    term: &WrittenTerm<'v>,
    frames: &[Frame<'v>],
    last: &Frame<'v>,
) -> Option<WrittenSort>
    ensures { option_map sort_view result ≡ sort_at (look_of frames.now last.now) (term_view term.now) }
{
    match term {
        WrittenTerm::Name(name) => find_in(frames, last, name).and_then(|seen| seen.sort),
        WrittenTerm::Truth(_) => Some(WrittenSort::Truth),
        WrittenTerm::Const(width, _) => sorts::word_if(sorts::is_width(*width), *width),
        WrittenTerm::Unary(operator, operand) => {
            sorts::unary_sort(*operator, sort_of(operand, frames, last))
        }
        WrittenTerm::Binary(operator, first, second) => sorts::binary_sort(
            *operator,
            sort_of(first, frames, last),
            sort_of(second, frames, last),
        ),
        WrittenTerm::Extract(high, low, operand) => {
            sorts::extract_sort(*high, *low, sort_of(operand, frames, last))
        }
        WrittenTerm::Widen(_, width, operand) => {
            sorts::extended_sort(*width, sort_of(operand, frames, last))
        }
        WrittenTerm::Ite(condition, first, second) => sorts::ite_sort(
            sort_of(condition, frames, last),
            sort_of(first, frames, last),
            sort_of(second, frames, last),
        ),
        WrittenTerm::Store(memory, address, value) => sorts::store_sort(
            sort_of(memory, frames, last),
            sort_of(address, frames, last),
            sort_of(value, frames, last),
        ),
    }
}

/// The memory that both are.
fn common_memory<'v>(first: Option<&'v str>, second: Option<&'v str>) -> Option<&'v str>
    ensures { name_view result ≡ common_memory (name_view first.entry) (name_view second.entry) }
{
    match (first, second) {
        (Some(name), Some(other)) => { if name == other { Some(name) } else { None } }
        _ => None,
    }
}

/// The memory that the term is with words stored to it, if it is one.
pub(crate) fn memory_of<'v>(
    term: &WrittenTerm<'v>,
    frames: &[Frame<'v>],
    last: &Frame<'v>,
) -> Option<&'v str>
    ensures { name_view result ≡ memory_at (look_of frames.now last.now) (term_view term.now) }
{
    match term {
        WrittenTerm::Name(name) => find_in(frames, last, name).and_then(|seen| seen.memory),
        WrittenTerm::Store(memory, _, _) => memory_of(memory, frames, last),
        WrittenTerm::Ite(_, first, second) => common_memory(
            memory_of(first, frames, last),
            memory_of(second, frames, last),
        ),
        _ => None,
    }
}

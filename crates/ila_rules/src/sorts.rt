//! Sorts of written terms.

ghost use Rattle.std.specs.Prelude.{◌≡◌, Some, None, option_map};
ghost use Rattle.wb_values.specs.Choice.{some_if};
ghost use Rattle.model_meaning.specs.Term.{is_width, is_sort, same_sort, bits_sort, same_bits_sort, word_sort, same_word_sort, compared, concat_sort, extract_sort, extended_sort, ite_sort, load_sort, store_sort};
ghost use Rattle.model_files.specs.Scope.{unary_sort, binary_sort};
ghost use Rattle.ila_file.specs.View.{sort_view, unary_view, binary_view};
ghost use Rattle.ila_file.specs.declared.written.WrittenSort.TheVariants.{Word, Memory};

use ila_file::{BinaryOperator, UnaryOperator, WrittenSort};

/// Whether a word may have so many bits.
pub(crate) fn is_width(width: u64) -> bool
    ensures { result ≡ is_width width }
{
    1 <= width && width <= 128
}

/// Whether the sort's widths are in range.
pub(crate) fn is_sort(sort: WrittenSort) -> bool
    ensures { result ≡ is_sort (sort_view sort) }
{
    match sort {
        WrittenSort::Truth => true,
        WrittenSort::Word(width) => is_width(width),
        WrittenSort::Memory(address, bits) => 1 <= address && address <= 16 && is_width(bits),
    }
}

/// The sort where its widths are in range.
pub(crate) fn valid_sort(sort: WrittenSort) -> Option<WrittenSort>
    ensures { option_map sort_view result ≡ some_if (is_sort (sort_view sort)) (sort_view sort) }
{
    if is_sort(sort) { Some(sort) } else { None }
}

/// Whether two sorts are the same.
pub(crate) fn same_sort(first: WrittenSort, second: WrittenSort) -> bool
    ensures { result ≡ same_sort (sort_view first) (sort_view second) }
{
    match (first, second) {
        (WrittenSort::Truth, WrittenSort::Truth) => true,
        (WrittenSort::Word(first), WrittenSort::Word(second)) => first == second,
        (WrittenSort::Memory(address, bits), WrittenSort::Memory(other_address, other_bits)) => {
            address == other_address && bits == other_bits
        }
        _ => false,
    }
}

/// A word of so many bits, if that fits.
pub(crate) fn word_if(fits: bool, width: u64) -> Option<WrittenSort>
    ensures { option_map sort_view result ≡ some_if fits (sort_view (Word width)) }
{
    if fits {
        Some(WrittenSort::Word(width))
    } else {
        None
    }
}

fn bits_sort(operand: Option<WrittenSort>) -> Option<WrittenSort>
    ensures { option_map sort_view result ≡ bits_sort (option_map sort_view operand) }
{
    match operand {
        Some(WrittenSort::Truth) => Some(WrittenSort::Truth),
        Some(WrittenSort::Word(width)) => Some(WrittenSort::Word(width)),
        _ => None,
    }
}

fn word_sort(operand: Option<WrittenSort>) -> Option<WrittenSort>
    ensures { option_map sort_view result ≡ word_sort (option_map sort_view operand) }
{
    match operand {
        Some(WrittenSort::Word(width)) => Some(WrittenSort::Word(width)),
        _ => None,
    }
}

fn same_bits_sort(first: Option<WrittenSort>, second: Option<WrittenSort>) -> Option<WrittenSort>
    ensures { option_map sort_view result ≡ same_bits_sort (option_map sort_view first) (option_map sort_view second) }
{
    match (first, second) {
        (Some(WrittenSort::Truth), Some(WrittenSort::Truth)) => Some(WrittenSort::Truth),
        (Some(WrittenSort::Word(first)), Some(WrittenSort::Word(second))) => {
            word_if(first == second, first)
        }
        _ => None,
    }
}

fn same_word_sort(first: Option<WrittenSort>, second: Option<WrittenSort>) -> Option<WrittenSort>
    ensures { option_map sort_view result ≡ same_word_sort (option_map sort_view first) (option_map sort_view second) }
{
    match (first, second) {
        (Some(WrittenSort::Word(first)), Some(WrittenSort::Word(second))) => {
            word_if(first == second, first)
        }
        _ => None,
    }
}

fn compared(operands: Option<WrittenSort>) -> Option<WrittenSort>
    ensures { option_map sort_view result ≡ compared (option_map sort_view operands) }
{
    match operands {
        Some(_) => Some(WrittenSort::Truth),
        None => None,
    }
}

fn concat_sort(first: Option<WrittenSort>, second: Option<WrittenSort>) -> Option<WrittenSort>
    ensures { option_map sort_view result ≡ concat_sort (option_map sort_view first) (option_map sort_view second) }
{
    match (first, second) {
        (Some(WrittenSort::Word(high)), Some(WrittenSort::Word(low))) => joined(high, low),
        _ => None,
    }
}

/// A word of both widths together.
fn joined(high: u64, low: u64) -> Option<WrittenSort>
    ensures { option_map sort_view result ≡ concat_sort (Some (sort_view (Word high))) (Some (sort_view (Word low))) }
{
    if high <= 128 && low <= 128 - high {
        Some(WrittenSort::Word(high + low))
    } else {
        None
    }
}

fn load_sort(memory: Option<WrittenSort>, address: Option<WrittenSort>) -> Option<WrittenSort>
    ensures { option_map sort_view result ≡ load_sort (option_map sort_view memory) (option_map sort_view address) }
{
    match (memory, address) {
        (Some(WrittenSort::Memory(index, bits)), Some(WrittenSort::Word(width))) => {
            word_if(width == index, bits)
        }
        _ => None,
    }
}

/// The sort of an operator with one operand.
pub(crate) fn unary_sort(
    operator: UnaryOperator,
    operand: Option<WrittenSort>,
) -> Option<WrittenSort>
    ensures { option_map sort_view result ≡ unary_sort (unary_view operator) (option_map sort_view operand) }
{
    match operator {
        UnaryOperator::Not => bits_sort(operand),
        UnaryOperator::Neg => word_sort(operand),
    }
}

/// The sort of an operator with two operands.
pub(crate) fn binary_sort(
    operator: BinaryOperator,
    first: Option<WrittenSort>,
    second: Option<WrittenSort>,
) -> Option<WrittenSort>
    ensures { option_map sort_view result ≡ binary_sort (binary_view operator) (option_map sort_view first) (option_map sort_view second) }
{
    match operator {
        BinaryOperator::And | BinaryOperator::Or | BinaryOperator::Xor => {
            same_bits_sort(first, second)
        }
        BinaryOperator::Eq => compared(same_bits_sort(first, second)),
        BinaryOperator::Ult | BinaryOperator::Ule | BinaryOperator::Slt | BinaryOperator::Sle =>
            compared(same_word_sort(first, second)),
        BinaryOperator::Concat => concat_sort(first, second),
        BinaryOperator::Load => load_sort(first, second),
        BinaryOperator::Add
        | BinaryOperator::Sub
        | BinaryOperator::Mul
        | BinaryOperator::Shl
        | BinaryOperator::Lshr
        | BinaryOperator::Ashr => same_word_sort(first, second),
    }
}

/// The sort of the bits from a high index down to a low one.
pub(crate) fn extract_sort(high: u64, low: u64, operand: Option<WrittenSort>) -> Option<WrittenSort>
    ensures { option_map sort_view result ≡ extract_sort high low (option_map sort_view operand) }
{
    match operand {
        Some(WrittenSort::Word(width)) => extracted(high, low, width),
        _ => None,
    }
}

fn extracted(high: u64, low: u64, width: u64) -> Option<WrittenSort>
    ensures { option_map sort_view result ≡ extract_sort high low (Some (sort_view (Word width))) }
{
    if low <= high && high < width {
        Some(WrittenSort::Word(high + 1 - low))
    } else {
        None
    }
}

/// The sort of a word widened to a width.
pub(crate) fn extended_sort(to: u64, operand: Option<WrittenSort>) -> Option<WrittenSort>
    ensures { option_map sort_view result ≡ extended_sort to (option_map sort_view operand) }
{
    match operand {
        Some(WrittenSort::Word(width)) => word_if(width <= to && to <= 128, to),
        _ => None,
    }
}

/// The sort of a choice.
pub(crate) fn ite_sort(
    condition: Option<WrittenSort>,
    first: Option<WrittenSort>,
    second: Option<WrittenSort>,
) -> Option<WrittenSort>
    ensures { option_map sort_view result ≡ ite_sort (option_map sort_view condition) (option_map sort_view first) (option_map sort_view second) }
{
    match (condition, first, second) {
        (Some(WrittenSort::Truth), Some(first), Some(second)) => chosen(first, second),
        _ => None,
    }
}

fn chosen(first: WrittenSort, second: WrittenSort) -> Option<WrittenSort>
    ensures { option_map sort_view result ≡ some_if (same_sort (sort_view first) (sort_view second)) (sort_view first) }
{
    if same_sort(first, second) {
        Some(first)
    } else {
        None
    }
}

/// The sort of a memory with a word stored to it.
pub(crate) fn store_sort(
    memory: Option<WrittenSort>,
    address: Option<WrittenSort>,
    value: Option<WrittenSort>,
) -> Option<WrittenSort>
    ensures { option_map sort_view result ≡ store_sort (option_map sort_view memory) (option_map sort_view address) (option_map sort_view value) }
{
    match (memory, address, value) {
        (
            Some(WrittenSort::Memory(index, bits)),
            Some(WrittenSort::Word(place)),
            Some(WrittenSort::Word(width)),
        ) => stored(index, bits, place == index && width == bits),
        _ => None,
    }
}

fn stored(address: u64, bits: u64, fits: bool) -> Option<WrittenSort>
    ensures { option_map sort_view result ≡ some_if fits (sort_view (Memory address bits)) }
{
    if fits {
        Some(WrittenSort::Memory(address, bits))
    } else {
        None
    }
}

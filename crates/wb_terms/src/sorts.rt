//! The sorts of terms, and the sort that each form gives for the sorts of its operands.

ghost use Rattle.std.specs.Prelude.{◌≡◌, ◌^◌, ◌&&◌, nat_lt, option_map};
ghost use Rattle.wb_values.specs.Value.{word};
ghost use Rattle.wb_values.specs.Choice.{some_if};
ghost use Rattle.model_meaning.specs.Term.{is_width, is_sort, bits_sort, same_bits_sort, word_sort, same_word_sort, compared, concat_sort, extract_sort, extended_sort, ite_sort, load_sort, store_sort};
ghost use Rattle.wb_terms.specs.Sort.{as_sort};

use wb_bits::{MAX_WIDTH, mask};

/// The greatest address width of a memory, in bits.
pub const MAX_ADDRESS_WIDTH: u32 = 16;

/// The sort of a term.
#[derive(Clone, Copy, Debug, PartialEq, Eq)]
pub enum Sort {
    /// A truth value.
    Truth,
    /// A word of so many bits, 1 to 128.
    Word(u32),
    /// A memory of 2^a words of d bits each: the address width a, 1 to 16, and the word width d, 1 to 128.
    Memory(u32, u32),
}

/// Whether a word may have this width.
pub fn is_width(width: u32) -> bool
    ensures { result ≡ is_width width }
{
    1 <= width && width <= MAX_WIDTH
}

/// Whether the widths of the sort are in range.
pub fn is_sort(sort: Sort) -> bool
    ensures { result ≡ is_sort (as_sort sort) }
{
    match sort {
        Sort::Truth => true,
        Sort::Word(width) => is_width(width),
        Sort::Memory(address_width, word_width) => {
            1 <= address_width && address_width <= MAX_ADDRESS_WIDTH && is_width(word_width)
        }
    }
}

/// The sort of a constant word.
pub(crate) fn const_sort(width: u32, value: u128) -> Option<Sort>
    ensures { option_map as_sort result
        ≡ some_if (is_width width && nat_lt value (2 ^ width)) (word width) }
{
    if is_width(width) && value <= mask(width) {
        Some(Sort::Word(width))
    } else {
        None
    }
}

/// The sort of a complement.
pub(crate) fn bits_sort(x: Sort) -> Option<Sort>
    ensures { option_map as_sort result ≡ bits_sort (Some (as_sort x)) }
{
    match x {
        Sort::Truth => Some(Sort::Truth),
        Sort::Word(width) => Some(Sort::Word(width)),
        Sort::Memory(_, _) => None,
    }
}

/// The sort of a conjunction, a disjunction or an exclusive or.
pub(crate) fn same_bits_sort(x: Sort, y: Sort) -> Option<Sort>
    ensures { option_map as_sort result ≡ same_bits_sort (Some (as_sort x)) (Some (as_sort y)) }
{
    match x {
        Sort::Truth => match y {
            Sort::Truth => Some(Sort::Truth),
            _ => None,
        },
        _ => same_word_sort(x, y),
    }
}

/// The sort of a negation.
pub(crate) fn word_sort(x: Sort) -> Option<Sort>
    ensures { option_map as_sort result ≡ word_sort (Some (as_sort x)) }
{
    match x {
        Sort::Word(width) => Some(Sort::Word(width)),
        _ => None,
    }
}

/// The sort of arithmetic and of a shift.
pub(crate) fn same_word_sort(x: Sort, y: Sort) -> Option<Sort>
    ensures { option_map as_sort result ≡ same_word_sort (Some (as_sort x)) (Some (as_sort y)) }
{
    match (x, y) {
        (Sort::Word(width), Sort::Word(other)) => (width == other).then_some(x),
        _ => None,
    }
}

/// The sort of a comparison, by the sort that its operands have together.
pub(crate) fn compared(operands: Option<Sort>) -> Option<Sort>
    ensures { option_map as_sort result ≡ compared (option_map as_sort operands) }
{
    match operands {
        Some(_) => Some(Sort::Truth),
        None => None,
    }
}

/// The sort of a concatenation.
pub(crate) fn concat_sort(x: Sort, y: Sort) -> Option<Sort>
    ensures { option_map as_sort result ≡ concat_sort (Some (as_sort x)) (Some (as_sort y)) }
{
    match (x, y) {
        (Sort::Word(high), Sort::Word(low)) => {
            if low <= MAX_WIDTH && high <= MAX_WIDTH - low {
                Some(Sort::Word(high + low))
            } else {
                None
            }
        }
        _ => None,
    }
}

/// The sort of a range of bits.
pub(crate) fn extract_sort(high: u32, low: u32, x: Sort) -> Option<Sort>
    ensures { option_map as_sort result ≡ extract_sort high low (Some (as_sort x)) }
{
    match x {
        Sort::Word(width) if low <= high && high < width => Some(Sort::Word(high - low + 1)),
        _ => None,
    }
}

/// The sort of an extension.
pub(crate) fn extended_sort(width: u32, x: Sort) -> Option<Sort>
    ensures { option_map as_sort result ≡ extended_sort width (Some (as_sort x)) }
{
    match x {
        Sort::Word(narrow) if narrow <= width && width <= MAX_WIDTH => Some(Sort::Word(width)),
        _ => None,
    }
}

/// The sort of a choice.
pub(crate) fn ite_sort(condition: Sort, x: Sort, y: Sort) -> Option<Sort>
    ensures { option_map as_sort result ≡ ite_sort (Some (as_sort condition)) (Some (as_sort x)) (Some (as_sort y)) }
{
    match condition {
        Sort::Truth => (x == y).then_some(x),
        _ => None,
    }
}

/// The sort of a word that is read from a memory.
pub(crate) fn load_sort(memory: Sort, address: Sort) -> Option<Sort>
    ensures { option_map as_sort result ≡ load_sort (Some (as_sort memory)) (Some (as_sort address)) }
{
    match (memory, address) {
        (Sort::Memory(address_width, word_width), Sort::Word(width)) => {
            (width == address_width).then_some(Sort::Word(word_width))
        }
        _ => None,
    }
}

/// The sort of a memory with a word replaced.
pub(crate) fn store_sort(memory: Sort, address: Sort, x: Sort) -> Option<Sort>
    ensures { option_map as_sort result ≡ store_sort (Some (as_sort memory)) (Some (as_sort address)) (Some (as_sort x)) }
{
    match load_sort(memory, address) {
        Some(word) => (word == x).then_some(memory),
        None => None,
    }
}

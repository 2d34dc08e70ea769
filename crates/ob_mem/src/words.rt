//! Words of memories, and the texts of their names.

ghost use Rattle.std.specs.Prelude.{◌≡◌, ◌<◌, ◌≤◌, length, IfOk, string_bytes};
ghost use Rattle.ob_mem.specs.Words.{marks_of, AllHaveFewer, name_of_word};

use crate::NoMemory;
use itoa::Buffer;
use std::alloc::{AllocError, Global};
use wb_terms::{NameId, Terms};

/// A word of a memory, and the name that stands for it.
#[derive(Clone, Copy, Debug, PartialEq, Eq)]
pub struct MemoryWord {
    /// The memory's name, in both stores.
    pub memory: NameId,
    /// The address of the word, from 0.
    pub address: u64,
    /// The name that stands for the word, in the new store.
    pub name: NameId,
}

/// With how many `#` a name begins.
fn marks_of(name: &[u8]) -> usize
    ensures { result ≡ marks_of name.now }
{
    let mut count: usize = 0;
    for byte in name {
        if *byte != b'#' {
            return count;
        }
        count += 1;
    }
    count
}

/// At least so many marks, and more than a count.
fn more_marks(marks: usize, count: usize) -> Result<usize, NoMemory>
    ensures least { IfOk result (λ m. marks ≤ m) }
    ensures more { IfOk result (λ m. count < m) }
{
    if count < marks {
        return Ok(marks);
    }
    match count.checked_add(1) {
        Some(more) => Ok(more),
        None => Err(AllocError),
    }
}

/// So many `#` as no declared name begins with.
pub(crate) fn new_marks(terms: &Terms) -> Result<usize, NoMemory>
    ensures { IfOk result (λ marks. AllHaveFewer marks terms.now.names) }
{
    let mut marks: usize = 0;
    for place in 0..terms.name_count() as usize {
        let name = terms.name(NameId(place));
        marks = more_marks(marks, marks_of(name.as_bytes()))?;
    }
    Ok(marks)
}

/// The text of the name of a word: so many `#`, then the place of the name.
pub(crate) fn word_name(alloc: Global, marks: usize, place: usize) -> Result<String, NoMemory>
    ensures { IfOk result (λ text. string_bytes text ≡ name_of_word marks place) }
{
    let mut text = String::new(alloc);
    for mark in 0..marks {
        text.push_str("#")?;
    }
    let mut buffer = Buffer::new();
    text.push_str(buffer.format(place))?;
    Ok(text)
}

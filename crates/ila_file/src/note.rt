//! Notes: short texts that lead a reader to a place in a model file.

ghost use Rattle.std.specs.Prelude.{◌≡◌, ◌<◌, ◌≤◌, length, map, take, IfOk, IsTrue};
ghost use Rattle.std.specs.List.{list_all};
ghost use Rattle.model_places.specs.Notes.{shown, is_printable, or_quotes, note_of};

use crate::NoMemory;
use std::alloc::Global;

/// The most bytes of a note.
const MOST: usize = 80;

/// A text of 1 to 80 bytes, each of them printable ASCII, that leads to a place in a model file.
#[derive(Drop)]
pub struct Note {
    text: Vec<u8>,
    ghost some: { 0 < length text.items },
    ghost short: { length text.items ≤ 80 },
    ghost printable: { IsTrue (list_all is_printable text.items) },
}

impl Note {
    /// The first 80 bytes of a text; what is not printable ASCII is shown as `?`, and an empty text as two quotation marks.
    pub fn new(alloc: Global, text: &[u8]) -> Result<Note, NoMemory>
        ensures { IfOk result (λ n. n.text.items ≡ note_of text.now) }
    {
        let text = shown_bytes(alloc, first_bytes(or_quotes(text)))?;
        Ok(Note { text })
    }

    /// The bytes of the text, without a line feed.
    pub fn as_bytes(&self) -> &[u8]
        ensures text { result.now ≡ self.now.text.items }
        ensures some { 0 < length result.now }
        ensures short { length result.now ≤ 80 }
        ensures printable { IsTrue (list_all is_printable result.now) }
    {
        &self.text
    }
}

/// The text, or two quotation marks for an empty one.
fn or_quotes(text: &[u8]) -> &[u8]
    ensures { result.now ≡ or_quotes text.now }
{
    match text {
        [] => b"\"\"".as_slice(),
        _ => text,
    }
}

/// At most 80 bytes, from the first on.
fn first_bytes(text: &[u8]) -> &[u8]
    ensures { result.now ≡ take 80 text.now }
{
    if text.len() <= MOST {
        text
    } else {
        &text[..MOST]
    }
}

fn shown_bytes(alloc: Global, text: &[u8]) -> Result<Vec<u8>, NoMemory>
    ensures { IfOk result (λ v. v.items ≡ map shown text.now) }
{
    let mut kept = Vec::new(alloc);
    for byte in text {
        kept.push(shown(*byte))?;
    }
    Ok(kept)
}

/// The byte as a note shows it.
fn shown(byte: u8) -> u8
    ensures { result ≡ shown byte }
{
    if 32 <= byte && byte <= 126 {
        byte
    } else {
        b'?'
    }
}

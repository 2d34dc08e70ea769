//! Notes: short texts that lead a reader to a place in the files.

ghost use Rattle.std.specs.Prelude.{◌≡◌, ◌≤◌, ◌++◌, ◌∷◌, length, map, take, IfOk, IfSome, IsTrue};
ghost use Rattle.std.specs.List.{list_all};
ghost use Rattle.v_lex.specs.Notes.{shown, is_printable};

use crate::stop::NoMemory;
use std::alloc::Global;

/// The most bytes of a note.
const MOST: usize = 80;

/// A text of at most 80 bytes, each of them printable ASCII, that leads to a place in the files.
#[derive(Drop)]
pub struct Note {
    /// The number of the file, from 0.
    pub file: u32,
    text: Vec<u8>,
    ghost short: { length text.items ≤ 80 },
    ghost printable: { IsTrue (list_all is_printable text.items) },
}

impl Note {
    /// The first 80 bytes of a text on the file of this number; what is not printable ASCII is shown as `?`.
    pub(crate) fn new(alloc: Global, file: u32, text: &[u8]) -> Result<Note, NoMemory>
        ensures text { IfOk result (λ n. n.text.items ≡ map shown (take 80 text.now)) }
        ensures file { IfOk result (λ n. n.file ≡ file) }
    {
        let text = shown_bytes(alloc, first_bytes(text))?;
        Ok(Note { file, text })
    }

    /// The note with a name before it: the first 80 bytes of the name, a blank and the text. None where memory runs out.
    pub fn named(&self, alloc: Global, name: &[u8]) -> Option<Note>
        ensures { IfSome result (λ n. n.text.items ≡ map shown (take 80 (name.now ++ 32 ∷ self.now.text.items))) }
    {
        match with_blank(alloc, name, &self.text) {
            Ok(text) => match Note::new(alloc, self.file, &text) {
                Ok(note) => Some(note),
                Err(_) => None,
            },
            Err(_) => None,
        }
    }

    /// The bytes of the text, without a line feed.
    pub fn as_bytes(&self) -> &[u8]
        ensures text { result.now ≡ self.now.text.items }
        ensures short { length result.now ≤ 80 }
        ensures printable { IsTrue (list_all is_printable result.now) }
    {
        &self.text
    }
}

/// Two texts with a blank between them.
fn with_blank(alloc: Global, first: &[u8], second: &[u8]) -> Result<Vec<u8>, NoMemory>
    ensures { IfOk result (λ v. v.items ≡ first.now ++ 32 ∷ second.now) }
{
    let mut text = Vec::new(alloc);
    text.extend_from_slice(first)?;
    text.push(b' ')?;
    text.extend_from_slice(second)?;
    Ok(text)
}

/// At most 80 bytes, from the first on.
fn first_bytes(text: &[u8]) -> &[u8]
    ensures { result.now ≡ take 80 text.now }
{
    if text.len() <= MOST {
        text
    } else {
        &text[..MOST]
    }
}

fn shown_bytes(alloc: Global, text: &[u8]) -> Result<Vec<u8>, NoMemory>
    ensures { IfOk result (λ v. v.items ≡ map shown text.now) }
{
    let mut kept = Vec::new(alloc);
    for byte in text {
        kept.push(shown(*byte))?;
    }
    Ok(kept)
}

/// The byte as a note shows it.
fn shown(byte: u8) -> u8
    ensures { result ≡ shown byte }
{
    if 32 <= byte && byte <= 126 {
        byte
    } else {
        b'?'
    }
}

//! Places in the files.

ghost use Rattle.std.specs.Prelude.{◌≡◌, ◌+◌, ◌-◌, min, length};
ghost use Rattle.v_lex.specs.Notes.{place_of};

use v_token::token::Token;

/// A place in the files.
#[derive(Clone, Copy, PartialEq, Eq, Debug)]
pub(crate) struct Place {
    /// The number of the file, from 0.
    pub file: u32,
    /// The byte in it.
    pub start: u32,
}

/// Where a token begins.
pub(crate) fn place_of(token: Token<'_>) -> Place
    ensures { result ≡ place_of token.entry }
{
    Place {
        file: token.file,
        start: token.start,
    }
}

/// A count as a number of 32 bits.
pub(crate) fn short(count: usize) -> u32
    ensures { result ≡ min count 4294967295 }
{
    u32::try_from(count).unwrap_or(u32::MAX)
}

/// The place of a rest of the text that stands at a place.
pub(crate) fn moved(place: Place, from: &[u8], to: &[u8]) -> Place
    ensures file { result.file ≡ place.file }
    ensures start { result.start ≡ min (place.start + (length from.now - length to.now)) 4294967295 }
{
    let passed = short(from.len().saturating_sub(to.len()));
    Place {
        file: place.file,
        start: place.start.saturating_add(passed),
    }
}

/// The place of a text that ends at a place.
pub(crate) fn moved_back(place: Place, text: &[u8]) -> Place
    ensures file { result.file ≡ place.file }
    ensures start { result.start ≡ place.start - min (length text.now) 4294967295 }
{
    Place {
        file: place.file,
        start: place.start.saturating_sub(short(text.len())),
    }
}

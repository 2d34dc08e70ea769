//! Places at which files are refused.

ghost use Rattle.std.specs.Prelude.{◌≡◌, cond};
ghost use Rattle.v_lex.specs.Notes.{remark_text, ends_at, number_place, place_of, stray_place};
ghost use Rattle.v_lex.specs.Faults.{plain_at, remarked, moved_to, last_token, use_in_file};

use crate::place::{Place, place_of};
use crate::scan::begins_with_byte;
use v_token::token::{Token, TokenKind};

/// What a note says of a place besides what stands there.
#[derive(Clone, Copy, PartialEq, Eq, Debug)]
pub(crate) enum Remark {
    /// Nothing.
    Nothing,
    /// The conditional that begins there is open where its file ends.
    NoEnd,
    /// The macro is used within 64 others.
    ManyLevels,
    /// There are as many tokens before it as there may be.
    ManyTokens,
    /// With the text of this macro there are more bytes of such texts than there may be.
    ManyBytes,
}

/// A place at which files are refused.
#[derive(Clone, Copy, PartialEq, Eq, Debug)]
pub(crate) struct Fault {
    /// The place.
    pub place: Place,
    /// Where the macro is used in a file in whose text the place stands.
    pub used: Option<Place>,
    /// What is to be said of it.
    pub remark: Remark,
}

impl Fault {
    /// A place of which nothing is to be said.
    pub(crate) fn plain(place: Place) -> Fault
        ensures { result ≡ plain_at place }
    {
        Fault {
            place,
            used: None,
            remark: Remark::Nothing,
        }
    }

    /// The same place, with this to be said of it.
    pub(crate) fn with(self, remark: Remark) -> Fault
        ensures { result ≡ remarked remark self }
    {
        Fault {
            place: self.place,
            used: self.used,
            remark,
        }
    }

    /// Another place, of which the same is to be said.
    pub(crate) fn moved_to(self, place: Place) -> Fault
        ensures { result ≡ moved_to place self }
    {
        Fault {
            place,
            used: self.used,
            remark: self.remark,
        }
    }
}

/// A remark as a note has it.
pub(crate) fn remark_text(remark: Remark) -> &'static [u8]
    ensures { result.now ≡ remark_text remark }
{
    match remark {
        Remark::Nothing => b"".as_slice(),
        Remark::NoEnd => b"without `endif: ".as_slice(),
        Remark::ManyLevels => b"macros past 64 levels: ".as_slice(),
        Remark::ManyTokens => b"past 4194304 tokens: ".as_slice(),
        Remark::ManyBytes => b"macros past 64 MiB: ".as_slice(),
    }
}

/// The last of some tokens.
pub(crate) fn last_token<'s>(tokens: &[Token<'s>]) -> Option<Token<'s>>
    ensures { result ≡ last_token tokens.now }
{
    match tokens.last() {
        Some(token) => Some(*token),
        None => None,
    }
}

/// Whether the text of a token ends at a place.
fn ends_at(token: Token<'_>, place: Place) -> bool
    ensures { result ≡ ends_at token.entry place }
{
    if token.file != place.file || token.start > place.start {
        return false;
    }
    (place.start - token.start) as usize == token.text.len()
}

/// Where a number begins whose base stands at a place: with its size, if the token before is one and ends there.
pub(crate) fn number_place(before: Option<Token<'_>>, place: Place) -> Place
    ensures { result ≡ number_place before.entry place }
{
    let Some(token) = before else {
        return place;
    };
    match token.kind {
        TokenKind::Decimal => size_place(token, place),
        _ => place,
    }
}

/// The same behind a plain decimal.
fn size_place(token: Token<'_>, place: Place) -> Place
    ensures { result ≡ cond (ends_at token.entry place) (place_of token.entry) place }
{
    if ends_at(token, place) {
        place_of(token)
    } else {
        place
    }
}

/// Where a file uses a macro whose use stands at a place: there, if the place is in the text of none.
pub(crate) fn use_in_file(here: Fault) -> Place
    ensures { result ≡ use_in_file here }
{
    match here.used {
        Some(place) => place,
        None => here.place,
    }
}

/// Where a text begins no token: at its first byte; a number that its base begins, with its size.
pub(crate) fn stray_place(before: Option<Token<'_>>, text: &[u8], place: Place) -> Place
    ensures { result ≡ stray_place before.entry text.now place }
{
    if begins_with_byte(text, b'\'') {
        number_place(before, place)
    } else {
        place
    }
}

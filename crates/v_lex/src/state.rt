//! What is known behind a part of the files.

ghost use Rattle.std.specs.Prelude.{◌≡◌, IsTrue};
ghost use Rattle.v_lex.specs.Quotes.{are_alone};

use crate::fault::Fault;
use crate::place::Place;
use std::collections::BTreeMap;
use v_token::token::Token;

/// A part of a file and where it begins.
#[derive(Clone, Copy)]
pub(crate) struct Span<'s> {
    /// The bytes.
    pub text: &'s [u8],
    /// Where they begin.
    pub place: Place,
    /// Quotes in front of so many last bytes have no partners on their lines, so that none of these lines is searched twice.
    pub alone: usize,
    pub ghost are_alone: { IsTrue (are_alone alone text.now) },
}

/// What becomes of a conditional's text.
#[derive(Clone, Copy)]
pub(crate) enum Branch {
    /// It is read.
    Taken,
    /// No branch was read yet.
    Waiting,
    /// A branch was read, or none is to be read.
    Passed,
}

/// An open conditional.
#[derive(Clone, Copy)]
pub(crate) struct Conditional {
    /// What becomes of its text.
    pub branch: Branch,
    /// Whether its last branch has begun.
    pub has_else: bool,
    /// Where it begins.
    pub opener: Fault,
}

/// What is known behind a part of the files.
#[derive(Drop)]
pub(crate) struct Reader<'s> {
    /// The macros' texts; none where a name is not defined any more.
    pub macros: BTreeMap<&'s [u8], Option<Span<'s>>>,
    /// The open conditionals, the innermost last.
    pub conditionals: Vec<Conditional>,
    /// The tokens so far.
    pub tokens: Vec<Token<'s>>,
    /// Whether the token before is a plain decimal of value 0.
    pub is_behind_zero: bool,
    /// The bytes of the macros' texts, counted at each use.
    pub used: usize,
    /// The first wrong directive.
    pub misdirected: Option<Fault>,
    /// The first construct that the subset leaves out.
    pub left_out: Option<Fault>,
    /// Where the last macro was used that is used in a file, and not in the text of another.
    pub last_use: Option<Place>,
}

//! Why reading stops.

ghost use Rattle.std.specs.Prelude.{◌≡◌};
ghost use Rattle.v_lex.specs.declared.stop.Stop.TheVariants.{Memory};

use crate::fault::Fault;
use crate::note::Note;
use std::alloc::{AllocError, AllocFailed};

/// The kinds of refusals, in the order in which they are answered.
#[derive(Clone, Copy, PartialEq, Eq, Debug)]
pub enum LexKind {
    /// V1: a file is not UTF-8.
    NotText,
    /// V2: a character that begins no token; a comment, string or attribute without end; a size 0; wrong digits.
    BadToken,
    /// V3: a wrong directive, an undefined macro, conditionals that do not match, or a limit of expansion that is passed.
    BadDirective,
    /// V4: a word, string, real number, escaped identifier or `$` name that the subset leaves out.
    Unsupported,
    /// V5: more than 200 constructs are open.
    TooDeep,
}

/// Why reading stops.
#[derive(Clone, Copy, PartialEq, Eq, Debug)]
pub(crate) enum Stop {
    /// There was not enough memory.
    Memory,
    /// The files are refused.
    Refused(LexKind, Fault),
}

impl From<AllocError> for Stop {
    ghost from_gives = { λ _ e. e ≡ Memory };

    fn from(_e: AllocError) -> Stop {
        Stop::Memory
    }
}

impl<T: Drop> From<AllocFailed<T>> for Stop {
    ghost from_gives = { λ _ e. e ≡ Memory };

    fn from(_e: AllocFailed<T>) -> Stop {
        Stop::Memory
    }
}

/// Why files are refused.
#[derive(Drop)]
pub struct LexRefusal {
    /// The first kind, in the order of the kinds, that the files have anywhere.
    pub kind: LexKind,
    /// Where it stands: the number of the file, from 0, and `line 3 column 7: ` with the word there, lines and columns from 1. Where the
    /// place stands in the text of a macro, the note says where this is used; and it says which limit is passed.
    pub note: Note,
}

/// Why there are no tokens.
#[derive(Drop)]
pub enum LexStop {
    /// The files are refused.
    Refused(LexRefusal),
    /// There was not enough memory.
    NoMemory,
}

/// There was not enough memory.
#[derive(Clone, Copy, PartialEq, Eq, Debug)]
pub(crate) struct NoMemory;

impl From<AllocError> for NoMemory {
    fn from(_e: AllocError) -> NoMemory {
        NoMemory
    }
}

impl<T: Drop> From<AllocFailed<T>> for NoMemory {
    fn from(_e: AllocFailed<T>) -> NoMemory {
        NoMemory
    }
}

//! Why a text is no script.

use ila_file::Note;

/// What is wrong with a text.
#[derive(Clone, Copy, PartialEq, Eq, Debug)]
pub enum ScriptKind {
    /// A line is none of a script.
    BadLine,
    /// Each line is one, and an input line leaves out an input.
    MissingInput,
}

/// A text that is no script.
#[derive(Drop)]
pub struct ScriptRefusal {
    pub kind: ScriptKind,
    /// The line, counted from 1, and the word that is wrong, or the input that is left out.
    pub note: Note,
}

/// Why a text gives no script.
#[derive(Drop)]
pub enum ScriptStop {
    /// It is none.
    Refused(ScriptRefusal),
    /// Memory ran out, which says nothing of the text.
    NoMemory,
}

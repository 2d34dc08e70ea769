//! A command and the files that it reads.

ghost use Rattle.std.specs.Prelude.{IsTrue, length};
ghost use Rattle.wb_top.specs.Words.{is_command};
ghost use Rattle.wb_top.specs.Verbs.{verb_view};

use crate::verb::Verb;

/// What is asked for, and the names of the files in the order in which they are read.
#[derive(Drop)]
pub(crate) struct Wanted {
    pub(crate) verb: Verb,
    pub(crate) files: Vec<String>,
    pub(crate) ghost counted: { IsTrue (is_command (verb_view verb) (length files.items)) },
}

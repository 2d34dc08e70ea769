//! What the words of a command ask for.

ghost use Rattle.std.specs.Prelude.{◌≡◌, true, false, IfOk, IsErrAnd, map, string_bytes};
ghost use Rattle.clap.specs.Words.{kind_of, subcommand_of, subcommand_rows_of, takes};
ghost use Rattle.wb_words.specs.Application.{workbench_app};
ghost use Rattle.wb_words.specs.Requests.{request_of};
ghost use Rattle.wb_words.specs.View.{IsAnswer, request_view, stop_for};
ghost use Rattle.wb_words.specs.declared.stop.WordsStop.TheVariants.{Usage};

use crate::application::workbench;
use crate::matches::entered;
use crate::requests::Request;
use crate::stop::WordsStop;
use clap::error::ErrorKind;
use clap::{ArgMatches, Error};
use std::alloc::Global;

/// What the words ask for, the first of them the program's name.
pub fn request<'a>(alloc: Global, words: &'a [String]) -> Result<Request<'a>, WordsStop>
    ensures request { IsAnswer request_view result (request_of (map string_bytes words.entry.now)) }
    ensures refused { IsErrAnd result (λ stop. stop ≡ Usage) → takes workbench_app (map string_bytes words.entry.now) ≡ false }
{
    let matches = taken(alloc, words)?;
    entered(alloc, &matches)
}

/// What `clap` finds in words that it takes.
fn taken<'a>(alloc: Global, words: &'a [String]) -> Result<ArgMatches<'a>, WordsStop>
    ensures taken { IfOk result (λ m. takes workbench_app (map string_bytes words.entry.now) ≡ true) }
    ensures found { IfOk result (λ m. subcommand_rows_of m ≡ subcommand_of workbench_app (map string_bytes words.entry.now)) }
    ensures refused { IsErrAnd result (λ stop. stop ≡ Usage) → takes workbench_app (map string_bytes words.entry.now) ≡ false }
{
    let command = workbench(alloc)?;
    match command.try_get_matches_from(words) {
        Ok(matches) => Ok(matches),
        Err(error) => Err(stop_for(&error)),
    }
}

/// Why the words are not taken.
fn stop_for(error: &Error) -> WordsStop
    ensures { result ≡ stop_for (kind_of error.now) }
{
    match error.kind() {
        ErrorKind::OutOfMemory => WordsStop::NoMemory,
        _ => WordsStop::Usage,
    }
}

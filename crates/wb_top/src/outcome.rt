//! The outcome of a call, before it is written.

ghost use Rattle.std.specs.Prelude.{◌≡◌, ◌≢◌, ◌≤◌, IfOk, OnOk, OnErr, IsErrOf, IsSome, map, string_bytes};
ghost use Rattle.wb_outside.specs.Outside.{Rose, next_count, with_appended, GrewByPrefix};
ghost use Rattle.wb_top.specs.Outcome.{IsCallOutcome};
ghost use Rattle.wb_top.specs.Showing.{told_of};
ghost use Rattle.wb_top.specs.Words.{command_of};
ghost use Rattle.wb_top.specs.Asked.{AskedAll, AskedSome};

use crate::answer::{Outcome, answer};
use crate::length::MOST_BYTES;
use crate::status::Status;
use crate::stop::{NoMemory, Stop};
use crate::texts::usage;
use crate::words::wanted;
use std::alloc::Global;
use wb_outside::{Shelf, Sink, read_all};

/// What the words ask for, on the files that the shelf holds.
///
/// # Errors
///
/// `ReadFault` where a file could not be read, and then the shelf's count of faults rose; `NoMemory`.
pub(crate) fn outcome<S: Shelf>(
    alloc: Global,
    words: &[String],
    shelf: &mut S,
) -> Result<Outcome, Stop>
    ensures keeps { S.holds shelf.new ≡ S.holds shelf.old }
    ensures outcome { IfOk result (λ o. IsCallOutcome (S.holds shelf.old) (map string_bytes words.now) o.status (told_of o)) }
    ensures ok_asked { OnOk result (AskedAll (command_of (map string_bytes words.now)) (S.asked shelf.old) (S.asked shelf.new)) }
    ensures err_asked { OnErr result (AskedSome (command_of (map string_bytes words.now)) (S.asked shelf.old) (S.asked shelf.new)) }
    ensures never_falls { S.faults shelf.old ≤ S.faults shelf.new }
    ensures failed_rose { IsErrOf result Stop.ReadFault → Rose (S.faults shelf.old) (S.faults shelf.new) }
    ensures failed_command { IsErrOf result Stop.ReadFault → IsSome (command_of (map string_bytes words.now)) }
{
    match wanted(alloc, words)? {
        Some(wanted) => {
            let contents = read_all(shelf, alloc, &wanted.files, MOST_BYTES)?;
            let outcome = answer(alloc, &wanted.verb, &wanted.files, &contents)?;
            Ok(outcome)
        }
        None => {
            let text = usage(alloc)?;
            Ok(Outcome::plain(Status::Usage, text))
        }
    }
}

/// Writes an outcome's text. Gives the outcome's status, or `WriteFault` where the text could not be written whole.
pub(crate) fn written<K: Sink>(outcome: &Outcome, out: &mut K) -> Status
    requires { outcome.now.status ≢ Status.WriteFault }
    ensures whole { result ≢ Status.WriteFault → K.written out.new ≡ with_appended (K.written out.old) outcome.now.text.items }
    ensures status { result ≢ Status.WriteFault → result ≡ outcome.now.status }
    ensures prefix { result ≡ Status.WriteFault → GrewByPrefix (K.written out.old) (K.written out.new) outcome.now.text.items }
    ensures rose { result ≡ Status.WriteFault → Rose (K.faults out.old) (K.faults out.new) }
    ensures never_falls { K.faults out.old ≤ K.faults out.new }
    ensures one_write { K.writes out.new ≡ next_count (K.writes out.old) }
{
    match out.write(&outcome.text) {
        Ok(()) => outcome.status,
        Err(_) => Status::WriteFault,
    }
}

//! Reading from any reader up to a limit, and writing a whole piece to any writer.
ghost use Rattle.std.specs.Prelude.{◌≡◌, ◌≢◌, ◌≤◌, ◌<◌, ◌+◌, ◌-◌, ℕ, min, take, length, IfOk, OnOk, OnErr, IfSome};
ghost use Rattle.std.specs.IoError.{error_kind};
ghost use Rattle.std.specs.Io.KnownBytes.{Appends, Consumes, IsAtEnd, Keeps};

use super::{ReadStop, WriteStop};
use std::alloc::Global;
use std::io::{Error, ErrorKind, Read, Write};

// The most bytes that one read asks for.
const MOST_AT_ONCE: usize = 16_384;

/// The first bytes that a reader gives, at most `limit` + 1 of them, so that more than `limit`
/// bytes say that there are too many.
///
/// # Errors
///
/// As `stop_of` tells an error of the reader that is no interruption; `NoMemory` too where memory
/// for the bytes could not be found.
pub fn read_limited<R: Read>(reader: &mut R, alloc: Global, limit: u64) -> Result<Vec<u8>, ReadStop>
    ensures told { IfOk result (λ bytes. IfSome (R.remaining reader.old) (λ rest. bytes.items ≡ take (limit + 1) rest)) }
    ensures bounded { IfOk result (λ bytes. length bytes.items ≤ limit + 1) }
    ensures taken { IfOk result (λ bytes. Consumes (R.remaining reader.old) (R.remaining reader.new) bytes.items) }
{
    let mut bytes = Vec::new(alloc);
    let mut piece = [0u8; MOST_AT_ONCE];
    for _ in 0..u64::MAX {
        let most = room(bytes.len(), limit);
        if most == 0 {
            return Ok(bytes);
        }
        let count = read_front(reader, &mut piece, most)?;
        if count == 0 {
            return Ok(bytes);
        }
        if bytes.extend_from_slice(&piece[..count]).is_err() {
            return Err(ReadStop::NoMemory);
        }
    }
    Err(ReadStop::Failed)
}

// How many bytes the next read asks for, behind this many.
fn room(count: usize, limit: u64) -> usize
    ensures { result ≡ min 16384 (limit + 1 - count) }
{
    let count = count as u64;
    if count > limit {
        return 0;
    }
    let more = (limit - count).min(MOST_AT_ONCE as u64 - 1);
    more as usize + 1
}

// One read into the first `most` bytes.
fn read_front<R: Read>(reader: &mut R, piece: &mut [u8], most: usize) -> Result<usize, ReadStop>
    requires { most ≤ length piece.old }
    ensures long { length piece.new ≡ length piece.old }
    ensures fits { IfOk result (λ count. count ≤ most) }
    ensures ok { IfOk result (λ count. Consumes (R.remaining reader.old) (R.remaining reader.new) (take count piece.new)) }
    ensures end { IfOk result (λ count. count ≡ 0 → 0 < most → IsAtEnd (R.remaining reader.new)) }
{
    read_piece(reader, &mut piece[..most])
}

// One read, tried again where it was interrupted.
fn read_piece<R: Read>(reader: &mut R, piece: &mut [u8]) -> Result<usize, ReadStop>
    ensures long { length piece.new ≡ length piece.old }
    ensures fits { IfOk result (λ count. count ≤ length piece.new) }
    ensures ok { IfOk result (λ count. Consumes (R.remaining reader.old) (R.remaining reader.new) (take count piece.new)) }
    ensures end { IfOk result (λ count. count ≡ 0 → 0 < length piece.old → IsAtEnd (R.remaining reader.new)) }
{
    for _ in 0..u64::MAX {
        match reader.read(piece) {
            Ok(count) => return Ok(count),
            Err(error) if error.kind() == ErrorKind::Interrupted => {}
            Err(error) => return Err(stop_of(&error)),
        }
    }
    Err(ReadStop::Failed)
}

// What an error means for who reads: memory could not be found, or the outside failed.
pub(crate) fn stop_of(error: &Error) -> ReadStop
    ensures no_memory { error_kind error.now ≡ ErrorKind.OutOfMemory → result ≡ ReadStop.NoMemory }
    ensures failed { error_kind error.now ≢ ErrorKind.OutOfMemory → result ≡ ReadStop.Failed }
{
    if error.kind() == ErrorKind::OutOfMemory {
        ReadStop::NoMemory
    } else {
        ReadStop::Failed
    }
}

/// Writes the piece by as many writes as it takes. A writer that takes nothing has failed.
///
/// # Errors
///
/// `Failed` where a write gave an error that is no interruption, or took nothing; a prefix of the
/// piece is written.
pub fn write_whole<W: Write>(writer: &mut W, piece: &[u8]) -> Result<(), WriteStop>
    ensures ok { OnOk result (Appends (W.contents writer.old) (W.contents writer.new) piece.now) }
    ensures failed { OnErr result ((count : ℕ) × Appends (W.contents writer.old) (W.contents writer.new) (take count piece.now)) }
{
    let mut done = 0;
    for _ in 0..u64::MAX {
        if done == piece.len() {
            return Ok(());
        }
        done += write_piece(writer, &piece[done..])?;
    }
    Err(WriteStop::Failed)
}

// One write, tried again where it was interrupted.
fn write_piece<W: Write>(writer: &mut W, piece: &[u8]) -> Result<usize, WriteStop>
    ensures fits { IfOk result (λ count. count ≤ length piece.now) }
    ensures ok { IfOk result (λ count. Appends (W.contents writer.old) (W.contents writer.new) (take count piece.now)) }
    ensures failed { OnErr result (Keeps (W.contents writer.old) (W.contents writer.new)) }
{
    for _ in 0..u64::MAX {
        match writer.write(piece) {
            Ok(0) => return Err(WriteStop::Failed),
            Ok(count) => return Ok(count),
            Err(error) if error.kind() == ErrorKind::Interrupted => {}
            Err(_) => return Err(WriteStop::Failed),
        }
    }
    Err(WriteStop::Failed)
}

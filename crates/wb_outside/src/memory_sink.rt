//! A sink in memory that tells all, whose writes fail as a list says.
ghost use Rattle.std.specs.Prelude.{◌≡◌, ◌≤◌, [], Some, IfOk, if◌then◌else◌};
ghost use Rattle.wb_outside.specs.Outside.{last_count};
ghost use Rattle.wb_outside.specs.MemSink.{listed_keep, is_fault, after_write};

use super::{NoMemory, Sink, WriteStop};
use std::alloc::Global;
use std::marker::Model;

/// A sink in memory with room for so many bytes. Its writes are numbered from 1, and those that
/// its list names fail and keep so many bytes. Of two entries with one number the first counts.
#[derive(Drop)]
pub struct MemSink {
    room: u64,
    failing: Vec<(u64, u64)>,
    writes: u64,
    written: Vec<u8>,
    faults: u64,
}

impl Model for MemSink {
    ghost use Rattle.std.specs.Prelude.{◌≤◌, vec_len, vec_capacity};
    ghost use Rattle.wb_outside.specs.MemSink.{SinkState};

    ghost Value = { SinkState };

    ghost view = { λ sink. record {
      room = sink.room;
      failing = sink.failing.items;
      writes = sink.writes;
      written = sink.written.items;
      faults = sink.faults;
    } };

    ghost invariant = { λ sink. (vec_len sink.written ≤ sink.room) × (sink.room ≤ vec_capacity sink.written) };
}

impl MemSink {
    /// A sink with room for `room` bytes, whose writes with the numbers in `failing`, from 1, are
    /// to fail; each number stands beside the count of bytes that this write keeps.
    ///
    /// # Errors
    ///
    /// `NoMemory` where the room could not be found.
    pub fn new(alloc: Global, room: u64, failing: Vec<(u64, u64)>) -> Result<MemSink, NoMemory>
        ensures { IfOk result (λ sink. sink ≡ record {
          room = room;
          failing = failing.items;
          writes = 0;
          written = [];
          faults = 0;
        }) }
    {
        let written = Vec::with_capacity(alloc, room as usize)?;
        Ok(MemSink {
            room,
            failing,
            writes: 0,
            written,
            faults: 0,
        })
    }

    /// The bytes written so far.
    pub fn bytes(&self) -> &[u8]
        ensures { result.now ≡ self.now.written }
    {
        &self.written
    }

    /// How many of the writes were faults.
    pub fn fault_count(&self) -> u64
        ensures { result ≡ self.now.faults }
    {
        self.faults
    }
}

impl Sink for MemSink {
    ghost written = { λ sink. Some sink.written };

    ghost faults = { λ sink. sink.faults };

    ghost writes = { λ sink. sink.writes };

    fn write(&mut self, piece: &[u8]) -> Result<(), WriteStop>
        ensures answer { result ≡ (if is_fault self.old piece.now then Err WriteStop.Failed else Ok tt) }
        ensures after { self.new ≡ after_write self.old piece.now }
        ensures never_falls { self.old.faults ≤ self.new.faults }
        ensures in_range { self.new.faults ≤ last_count }
    {
        let listed = next_listed(&self.failing, self.writes);
        let left = self.room as usize - self.written.len();
        let allowed = listed.map_or(piece.len(), |bytes| bytes as usize);
        let kept = allowed.min(left).min(piece.len());
        // The room was reserved, so this takes no memory.
        if self.written.extend_from_slice(&piece[..kept]).is_err() {
            unreachable!()
        }
        self.writes = self.writes.saturating_add(1);
        if listed.is_some() || left < piece.len() {
            self.faults = self.faults.saturating_add(1);
            return Err(WriteStop::Failed);
        }
        Ok(())
    }
}

// How many bytes the write behind this many is listed to keep, where it is listed.
fn next_listed(failing: &[(u64, u64)], writes: u64) -> Option<u64>
    ensures { result ≡ listed_keep failing.now writes }
{
    let number = u128::from(writes) + 1;
    failing
        .iter()
        .find(|entry| u128::from(entry.0) == number)
        .map(|entry| entry.1)
}

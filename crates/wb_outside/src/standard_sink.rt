//! Standard output as a sink. It tells nothing of what was written.
ghost use Rattle.std.specs.Prelude.{◌≡◌, ◌≤◌, None, is_ok, if◌then◌else◌};
ghost use Rattle.wb_outside.specs.Outside.{last_count, next_count};
ghost use Rattle.wb_outside.specs.StdSink.{SinkCounts};

use super::{Sink, WriteStop, write_whole};
use std::io::writer;
use std::marker::Model;

/// The standard output of a runtime. Contracts see its counts of writes and of faults.
#[derive(Drop)]
pub struct StdSink<R> {
    output: R,
    writes: u64,
    faults: u64,
}

impl<R> Model for StdSink<R> {
    ghost use Rattle.std.specs.Prelude.{◌≤◌};
    ghost use Rattle.wb_outside.specs.Outside.{last_count};
    ghost use Rattle.wb_outside.specs.StdSink.{SinkCounts};

    ghost Value = { SinkCounts };

    ghost view = { λ sink. record { writes = sink.writes; faults = sink.faults } };

    ghost invariant = { λ sink. sink.faults ≤ last_count };
}

impl<R: Print> StdSink<R> {
    /// The standard output of the runtime, with no write and no fault yet.
    pub fn new(output: R) -> StdSink<R>
        ensures { result ≡ record { writes = 0; faults = 0 } }
    {
        StdSink {
            output,
            writes: 0,
            faults: 0,
        }
    }

    /// How many of the writes gave an error.
    pub fn fault_count(&self) -> u64
        ensures { result ≡ self.now.faults }
    {
        self.faults
    }
}

impl<R: Print> Sink for StdSink<R> {
    ghost written = { λ _. None };

    ghost faults = { λ sink. sink.faults };

    ghost writes = { λ sink. sink.writes };

    // Each error is a fault.
    fn write(&mut self, piece: &[u8]) -> Result<(), WriteStop>
        ensures count { self.new.faults ≡ (if is_ok result then self.old.faults else next_count self.old.faults) }
        ensures counted { self.new.writes ≡ next_count self.old.writes }
        ensures never_falls { self.old.faults ≤ self.new.faults }
        ensures in_range { self.new.faults ≤ last_count }
    {
        let answer = write_whole(&mut writer(&self.output), piece);
        self.writes = self.writes.saturating_add(1);
        if answer.is_err() {
            self.faults = self.faults.saturating_add(1);
        }
        answer
    }
}

//! What a sink is: a place that takes bytes piece by piece, and what each write tells of it.
ghost use Rattle.std.specs.Prelude.{◌≡◌, ◌≤◌, ℕ, List, OnOk, OnErr};
ghost use Rattle.std.specs.declared.option.Option.{Option};
ghost use Rattle.wb_outside.specs.Outside.{Rose, last_count, next_count, with_appended, GrewByPrefix};

/// Why a write did not take its whole piece.
#[derive(Clone, Copy, Debug, PartialEq, Eq)]
pub enum WriteStop {
    /// The outside failed; a prefix of the piece may have been taken.
    Failed,
}

/// A place that takes bytes.
pub trait Sink {
    // The bytes written so far, where the sink tells them.
    ghost written: { Self → Option (List ℕ) };

    // How many faults there were; it stops at the last value of a u64.
    ghost faults: { Self → ℕ };

    // How many writes there were; it stops at the last value of a u64.
    ghost writes: { Self → ℕ };

    /// Writes the piece behind what was written, and is counted as one write, whatever it answers.
    /// It takes no memory.
    ///
    /// # Errors
    ///
    /// `Failed` where the outside failed, and then the count of faults rose, or stands at its last
    /// value; a prefix of the piece is written.
    fn write(&mut self, piece: &[u8]) -> Result<(), WriteStop>
        ensures ok { OnOk result (written self.new ≡ with_appended (written self.old) piece.now) }
        ensures failed { OnErr result (GrewByPrefix (written self.old) (written self.new) piece.now) }

        ensures never_falls { faults self.old ≤ faults self.new }
        ensures in_range { faults self.new ≤ last_count }
        ensures failed_rose { OnErr result (Rose (faults self.old) (faults self.new)) }
        ensures ok_stays { OnOk result (faults self.new ≡ faults self.old) }

        ensures counted { writes self.new ≡ next_count (writes self.old) };
}

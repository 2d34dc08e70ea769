//! The real files as a shelf. It tells nothing of what they hold.
ghost use Rattle.std.specs.Prelude.{◌≡◌, ◌≤◌, ◌+◌, ℕ, None, length, IfOk, OnOk, IsErrOf};
ghost use Rattle.wb_outside.specs.Outside.{last_count, next_count};

use super::streams::stop_of;
use super::{ReadStop, Shelf, read_limited};
use std::alloc::Global;
use std::fs;
use std::marker::Model;
use std::rt::Files;

/// The files that a runtime reaches, by their paths. Contracts see its count of faults.
#[derive(Drop)]
pub struct FileShelf<R> {
    files: R,
    faults: u64,
}

impl<R> Model for FileShelf<R> {
    ghost use Rattle.std.specs.Prelude.{ℕ, ◌≤◌};
    ghost use Rattle.wb_outside.specs.Outside.{last_count};

    ghost Value = { ℕ };

    ghost view = { λ shelf. shelf.faults };

    ghost invariant = { λ shelf. shelf.faults ≤ last_count };
}

impl<R: Files> FileShelf<R> {
    /// A shelf of the runtime's files, with no fault yet.
    pub fn new(files: R) -> FileShelf<R>
        ensures { result ≡ 0 }
    {
        FileShelf { files, faults: 0 }
    }

    /// How many of the reads were faults.
    pub fn fault_count(&self) -> u64
        ensures { result ≡ self.now }
    {
        self.faults
    }
}

impl<R: Files> Shelf for FileShelf<R> {
    ghost holds = { λ _. None };

    ghost asked = { λ _. None };

    ghost faults = { λ shelf. shelf };

    ghost last_fault = { λ _. None };

    // Each error is a fault, but for out of memory. A file that is missing is a fault.
    fn read(&mut self, alloc: Global, name: &str, limit: u64) -> Result<Vec<u8>, ReadStop>
        ensures bounded { IfOk result (λ bytes. length bytes.items ≤ limit + 1) }
        ensures ok_count { OnOk result (self.new ≡ self.old) }
        ensures failed_count { IsErrOf result ReadStop.Failed → self.new ≡ next_count self.old }
        ensures no_memory_count { IsErrOf result ReadStop.NoMemory → self.new ≡ self.old }
        ensures never_falls { self.old ≤ self.new }
        ensures in_range { self.new ≤ last_count }
    {
        let answer = read_file(&self.files, alloc, name, limit);
        if matches!(&answer, Err(ReadStop::Failed)) {
            self.faults = self.faults.saturating_add(1);
        }
        answer
    }
}

// The first bytes of a file, one more than the limit at most.
fn read_file<R: Files>(
    files: &R,
    alloc: Global,
    name: &str,
    limit: u64,
) -> Result<Vec<u8>, ReadStop>
    ensures bounded { IfOk result (λ bytes. length bytes.items ≤ limit + 1) }
{
    match fs::open(files, name) {
        Ok(mut file) => read_limited(&mut file, alloc, limit),
        Err(error) => Err(stop_of(&error)),
    }
}

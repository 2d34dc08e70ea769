//! What a shelf is: files that are read by name, and what each read tells of them.
ghost use Rattle.std.specs.Prelude.{◌≡◌, ◌≤◌, ◌+◌, ℕ, List, [], ◌∷◌, map, length, All, IfOk, OnOk, OnErr, IsErrOf, string_bytes};
ghost use Rattle.std.specs.declared.option.Option.{Option};
ghost use Rattle.std.specs.Option.{option_map};
ghost use Rattle.wb_outside.specs.Outside.{Rose, last_count, with_appended, GrewByPrefix, IsStartOf, AreStartsOf};

use std::alloc::{AllocError, AllocFailed, Global};

/// Memory could not be found.
#[derive(Clone, Copy, Debug, PartialEq, Eq)]
pub struct NoMemory;

impl From<AllocError> for NoMemory {
    fn from(_error: AllocError) -> NoMemory {
        NoMemory
    }
}

impl<T: Drop> From<AllocFailed<T>> for NoMemory {
    fn from(_error: AllocFailed<T>) -> NoMemory {
        NoMemory
    }
}

/// Why a read gave no bytes.
#[derive(Clone, Copy, Debug, PartialEq, Eq)]
pub enum ReadStop {
    /// The outside failed, or no file has the name.
    Failed,
    /// Memory for the answer could not be found.
    NoMemory,
}

impl From<NoMemory> for ReadStop {
    ghost use Rattle.std.specs.Prelude.{◌≡◌};
    ghost use Rattle.wb_outside.specs.declared.reading.ReadStop.{ReadStop};

    ghost from_gives = { λ _ stop. stop ≡ ReadStop.NoMemory };

    fn from(_error: NoMemory) -> ReadStop {
        ReadStop::NoMemory
    }
}

/// Files that are read by name.
pub trait Shelf {
    // What the shelf holds, where it tells: the bytes under each name, or that there are none.
    ghost holds: { Self → Option (List ℕ → Option (List ℕ)) };

    // The names read so far, where the shelf tells them.
    ghost asked: { Self → Option (List (List ℕ)) };

    // How many faults there were; it stops at the last value of a u64.
    ghost faults: { Self → ℕ };

    // How many names were read when the last fault came, that fault's among them, where the shelf tells the names.
    ghost last_fault: { Self → Option ℕ };

    /// Reads the first bytes under `name`, at most `limit` + 1 of them, so that more than `limit`
    /// bytes say that the file is too long.
    ///
    /// # Errors
    ///
    /// `Failed` where the outside failed, and then the count of faults rose, or stands at its last
    /// value; `NoMemory` where memory for the answer could not be found, which is no fault.
    fn read(&mut self, alloc: Global, name: &str, limit: u64) -> Result<Vec<u8>, ReadStop>
        ensures keeps { holds self.new ≡ holds self.old }
        ensures first_bytes { IfOk result (λ bytes. IsStartOf (holds self.old) name.now limit bytes.items) }
        ensures bounded { IfOk result (λ bytes. length bytes.items ≤ limit + 1) }

        ensures ok_asked { OnOk result (asked self.new ≡ with_appended (asked self.old) (name.now ∷ [])) }
        ensures failed_asked { IsErrOf result ReadStop.Failed →
            asked self.new ≡ with_appended (asked self.old) (name.now ∷ []) }
        ensures no_memory_asked { IsErrOf result ReadStop.NoMemory → asked self.new ≡ asked self.old }

        ensures never_falls { faults self.old ≤ faults self.new }
        ensures in_range { faults self.new ≤ last_count }
        ensures failed_rose { IsErrOf result ReadStop.Failed → Rose (faults self.old) (faults self.new) }
        ensures ok_stays { OnOk result (faults self.new ≡ faults self.old) }
        ensures no_memory_stays { IsErrOf result ReadStop.NoMemory → faults self.new ≡ faults self.old }

        ensures ok_last { OnOk result (last_fault self.new ≡ last_fault self.old) }
        ensures failed_last { IsErrOf result ReadStop.Failed → last_fault self.new ≡ option_map length (asked self.new) }
        ensures no_memory_last { IsErrOf result ReadStop.NoMemory → last_fault self.new ≡ last_fault self.old };
}

/// Reads the files of these names in turn, each as far as one byte past `limit`.
///
/// # Errors
///
/// The first read's that gives one; the names behind it are not asked for.
pub fn read_all<S: Shelf>(
    shelf: &mut S,
    alloc: Global,
    names: &[String],
    limit: u64,
) -> Result<Vec<Vec<u8>>, ReadStop>
    ensures keeps { S.holds shelf.new ≡ S.holds shelf.old }
    ensures first_bytes { IfOk result (λ contents. AreStartsOf (S.holds shelf.old)
        (map string_bytes names.now) limit (map (λ bytes. bytes.items) contents.items)) }
    ensures bounded { IfOk result (λ contents. All (λ bytes. length bytes.items ≤ limit + 1) contents.items) }
    ensures count { IfOk result (λ contents. length contents.items ≡ length names.now) }
    ensures ok_asked { OnOk result
        (S.asked shelf.new ≡ with_appended (S.asked shelf.old) (map string_bytes names.now)) }
    ensures err_asked { OnErr result
        (GrewByPrefix (S.asked shelf.old) (S.asked shelf.new) (map string_bytes names.now)) }
    ensures never_falls { S.faults shelf.old ≤ S.faults shelf.new }
    ensures failed_rose { IsErrOf result ReadStop.Failed → Rose (S.faults shelf.old) (S.faults shelf.new) }
    ensures ok_stays { OnOk result (S.faults shelf.new ≡ S.faults shelf.old) }
    ensures no_memory_stays { IsErrOf result ReadStop.NoMemory → S.faults shelf.new ≡ S.faults shelf.old }
    ensures ok_last { OnOk result (S.last_fault shelf.new ≡ S.last_fault shelf.old) }
    ensures failed_last { IsErrOf result ReadStop.Failed → S.last_fault shelf.new ≡ option_map length (S.asked shelf.new) }
    ensures no_memory_last { IsErrOf result ReadStop.NoMemory → S.last_fault shelf.new ≡ S.last_fault shelf.old }
{
    let mut contents = Vec::new(alloc);
    for name in names {
        let bytes = shelf.read(alloc, name.as_str(), limit)?;
        if contents.push(bytes).is_err() {
            return Err(ReadStop::NoMemory);
        }
    }
    Ok(contents)
}

//! A shelf in memory that tells all, whose reads fail as a list says.
ghost use Rattle.std.specs.Prelude.{◌≡◌, ◌+◌, ◌≤◌, [], take, length, map, None, Some, IfOk, IfSome, OnOk, OnErr, IsErrOf, string_bytes};
ghost use Rattle.std.specs.Option.{option_map, option_copied};
ghost use Rattle.wb_outside.specs.Outside.{last_count};
ghost use Rattle.wb_outside.specs.MemShelf.{files_of, bytes_named, is_listed, found, after_read, after_fault};

use super::{NoMemory, ReadStop, Shelf};
use std::alloc::Global;
use std::marker::Model;

/// A shelf of files in memory. Its reads are numbered from 1, but for those that find no memory,
/// and those that its list names fail. Of two files with one name the first counts.
#[derive(Drop)]
pub struct MemShelf {
    files: Vec<(String, Vec<u8>)>,
    failing: Vec<u64>,
    asked: Vec<String>,
    faults: u64,
    last_fault: usize,
}

impl Model for MemShelf {
    ghost use Rattle.std.specs.Prelude.{◌≤◌, map, string_bytes};
    ghost use Rattle.wb_outside.specs.Outside.{last_count};
    ghost use Rattle.wb_outside.specs.MemShelf.{ShelfState, files_of};

    ghost Value = { ShelfState };

    ghost view = { λ shelf. record {
      files = files_of shelf.files.items;
      failing = shelf.failing.items;
      asked = map string_bytes shelf.asked.items;
      faults = shelf.faults;
      last_fault = shelf.last_fault;
    } };

    ghost invariant = { λ shelf. shelf.faults ≤ last_count };
}

impl MemShelf {
    /// A shelf of these files, whose reads with the numbers in `failing`, from 1, are to fail.
    ///
    /// # Errors
    ///
    /// `NoMemory` where room for the names of the reads could not be found.
    pub fn new(
        alloc: Global,
        files: Vec<(String, Vec<u8>)>,
        failing: Vec<u64>,
    ) -> Result<MemShelf, NoMemory>
        ensures { IfOk result (λ shelf. shelf ≡ record {
          files = files_of files.items;
          failing = failing.items;
          asked = [];
          faults = 0;
          last_fault = 0;
        }) }
    {
        let asked = Vec::with_capacity(alloc, files.len())?;
        Ok(MemShelf {
            files,
            failing,
            asked,
            faults: 0,
            last_fault: 0,
        })
    }

    /// The names of the reads so far.
    pub fn names(&self) -> &[String]
        ensures { map string_bytes result.now ≡ self.now.asked }
    {
        &self.asked
    }

    /// How many of the reads were faults.
    pub fn fault_count(&self) -> u64
        ensures { result ≡ self.now.faults }
    {
        self.faults
    }

    // The first bytes of what the next read finds under the name.
    fn serve(&self, alloc: Global, name: &str, limit: u64) -> Result<Option<Vec<u8>>, NoMemory>
        ensures in_range { self.now.faults ≤ last_count }
        ensures found { IfOk result (λ answer.
            option_map (λ bytes. bytes.items) answer ≡ option_map (take (limit + 1)) (found self.now name.now)) }
        ensures bounded { IfOk result (λ answer. IfSome answer (λ bytes. length bytes.items ≤ limit + 1)) }
    {
        if next_is_listed(&self.failing, self.asked.len()) {
            return Ok(None);
        }
        match file_named(&self.files, name) {
            Some(bytes) => Ok(Some(Vec::from_slice(alloc, first_bytes(bytes, limit))?)),
            None => Ok(None),
        }
    }

    // Notes that a read of the name was answered.
    fn note(&mut self, alloc: Global, name: &str) -> Result<(), NoMemory>
        ensures ok { OnOk result (self.new ≡ after_read self.old name.now) }
        ensures err { OnErr result (self.new ≡ self.old) }
    {
        let name = String::from_str(alloc, name)?;
        self.asked.push(name)?;
        Ok(())
    }
}

impl Shelf for MemShelf {
    ghost holds = { λ shelf. Some (bytes_named shelf.files) };

    ghost asked = { λ shelf. Some shelf.asked };

    ghost faults = { λ shelf. shelf.faults };

    ghost last_fault = { λ shelf. Some shelf.last_fault };

    fn read(&mut self, alloc: Global, name: &str, limit: u64) -> Result<Vec<u8>, ReadStop>
        ensures ok { IfOk result (λ bytes. option_map (take (limit + 1)) (found self.old name.now) ≡ Some bytes.items) }
        ensures ok_after { OnOk result (self.new ≡ after_read self.old name.now) }
        ensures failed { IsErrOf result ReadStop.Failed → found self.old name.now ≡ None }
        ensures failed_after { IsErrOf result ReadStop.Failed → self.new ≡ after_fault self.old name.now }
        ensures no_memory_after { IsErrOf result ReadStop.NoMemory → self.new ≡ self.old }
        ensures never_falls { self.old.faults ≤ self.new.faults }
        ensures in_range { self.new.faults ≤ last_count }
        ensures first_bytes { IfOk result (λ bytes. option_map (take (limit + 1)) (bytes_named self.old.files name.now) ≡ Some bytes.items) }
        ensures bounded { IfOk result (λ bytes. length bytes.items ≤ limit + 1) }
    {
        let answer = self.serve(alloc, name, limit)?;
        self.note(alloc, name)?;
        match answer {
            Some(bytes) => Ok(bytes),
            None => {
                self.faults = self.faults.saturating_add(1);
                self.last_fault = self.asked.len();
                Err(ReadStop::Failed)
            }
        }
    }
}

// Whether the read behind this many answered ones is listed.
fn next_is_listed(failing: &[u64], answered: usize) -> bool
    ensures { result ≡ is_listed failing.now answered }
{
    let number = answered as u128 + 1;
    failing.iter().any(|&listed| u128::from(listed) == number)
}

// The bytes of the first file with this name.
fn file_named<'a>(files: &'a [(String, Vec<u8>)], name: &str) -> Option<&'a [u8]>
    ensures { option_copied result ≡ bytes_named (files_of files.now) name.now }
{
    for file in files {
        if file.0.as_str() == name {
            return Some(file.1.as_slice());
        }
    }
    None
}

// The bytes up to one more than the limit.
fn first_bytes(bytes: &[u8], limit: u64) -> &[u8]
    ensures start { result.now ≡ take (limit + 1) bytes.now }
    ensures bounded { length result.now ≤ limit + 1 }
{
    if limit < bytes.len() as u64 {
        &bytes[..limit as usize + 1]
    } else {
        bytes
    }
}

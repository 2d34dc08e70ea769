//! A table of rows, line by line. The head of rows.txt says how they are written. Empty lines and those that begin with `#` are skipped.

use crate::ladder::ladder_run;
use crate::objects::{Names, no_names};
use crate::runs::{edge, part_assigned, written};
use crate::texts::halves;
use crate::value::{Ask, answered};
use std::alloc::{AllocError, Global};

/// The names of the rows that follow, and what came of the rows.
#[derive(Drop)]
pub struct Table<'s> {
    names: Names<'s>,
    /// How many rows there were.
    pub rows: u64,
    /// How many of them came out otherwise.
    pub differ: u64,
}

/// What stands before and after the arrow of a row. A line without one wants what nothing is.
fn sides(line: &str) -> (&str, &str) {
    match line.split_once(" => ") {
        Some((left, wanted)) => (left, wanted),
        None => (line, "a row has an arrow"),
    }
}

/// What is found for a row.
fn found(names: &Names<'_>, alloc: Global, row: &str) -> Result<String, AllocError> {
    let (kind, text) = halves(row, " ");
    match kind {
        "self" => answered(names, alloc, Ask::Whole, text),
        "size" => answered(names, alloc, Ask::Sized, text),
        "sized" => answered(names, alloc, Ask::IsSized, text),
        "wider" => answered(names, alloc, Ask::Wider, text),
        "run" => part_assigned(alloc, text),
        "ladder" => ladder_run(alloc, text),
        "write" => written(alloc),
        "edge" => edge(alloc),
        _ => {
            let width = kind.parse::<u32>().unwrap_or(0);
            answered(names, alloc, Ask::Assigned(width), text)
        }
    }
}

impl<'s> Table<'s> {
    /// A table without rows.
    pub fn new(alloc: Global) -> Table<'s> {
        Table {
            names: no_names(alloc),
            rows: 0,
            differ: 0,
        }
    }

    /// Takes a line that is no row, where it is one: of names or their values.
    fn is_taken(&mut self, alloc: Global, line: &'s str) -> Result<bool, AllocError> {
        let (kind, text) = halves(line, " ");
        match kind {
            "object" => self.names.declare(alloc, text),
            "values" => self.names.set(alloc, text),
            "clear" => {
                self.names = no_names(alloc);
                Ok(true)
            }
            _ => Ok(line.is_empty() || line.starts_with("#")),
        }
    }

    /// Takes a line of the table. Gives what is found for it, where it is a row that came out otherwise.
    pub fn take(&mut self, alloc: Global, line: &'s str) -> Result<Option<String>, AllocError> {
        if self.is_taken(alloc, line)? {
            return Ok(None);
        }
        self.rows = self.rows.saturating_add(1);
        let (row, wanted) = sides(line);
        let found = found(&self.names, alloc, row)?;
        if found.as_str() == wanted {
            return Ok(None);
        }
        self.differ = self.differ.saturating_add(1);
        Ok(Some(found))
    }
}

//! Map files with what they say, or with the rule and the note of their refusal. Prints each row that differs, and how many rows there
//! are.
#![tactic(auto)]

mod bytes;
mod said;

use bytes::{add_bytes, add_unescaped};
use map_file::{MapStop, map_heads};
use said::said_of;
use std::alloc::{AllocError, Global};
use std::{fs, io};

fn main(rt: HostRuntime) -> io::Result<()> {
    let alloc = rt.alloc();
    let table = fs::read_to_string(&rt, "rows.txt")?;
    let mut map = "";
    let mut rows: u64 = 0;
    let mut differing: u64 = 0;
    for line in table.as_str().lines() {
        if let Some(text) = line.strip_prefix("map\t") {
            map = text;
            continue;
        }
        let Some((test, wanted)) = line.rsplit_once("\t") else {
            continue;
        };
        let found = answer(alloc, map, test)?;
        rows = rows.saturating_add(1);
        if found.as_str() != wanted {
            differing = differing.saturating_add(1);
            println!(rt; "{test}\n  {found}")?;
        }
    }
    println!(rt; "{rows} rows, {differing} differ")
}

/// What is found for a test of this map: its kind, a tab, and what the kind asks for.
fn answer(alloc: Global, map: &str, test: &str) -> Result<String, AllocError> {
    let (kind, text) = test.split_once("\t").unwrap_or((test, ""));
    let mut file = Vec::new(alloc);
    match kind {
        "file" => add_unescaped(&mut file, text)?,
        "lists" => add_lists(&mut file, text)?,
        "again" => add_again(&mut file, map, text)?,
        "cuts" => return answer_to_cuts(alloc, map),
        _ => add_changed(&mut file, map, text)?,
    }
    answer_to(alloc, &file, kind == "said")
}

/// Adds the map in which the first OLD of `OLD => NEW` is changed into NEW, or the map itself where nothing is to be changed.
fn add_changed(file: &mut Vec<u8>, map: &str, change: &str) -> Result<(), AllocError> {
    let (old, new) = change.split_once(" => ").unwrap_or((change, ""));
    match map.split_once(old) {
        Some((before, after)) => {
            add_bytes(file, before)?;
            add_unescaped(file, new)?;
            add_bytes(file, after)
        }
        None => add_bytes(file, "this row changes nothing"),
    }
}

/// Adds so many empty lists, each but the last within the one before.
fn add_lists(file: &mut Vec<u8>, count: &str) -> Result<(), AllocError> {
    let count = count.parse::<u32>().unwrap_or(0);
    for _ in 0..count {
        add_bytes(file, "[")?;
    }
    for _ in 0..count {
        add_bytes(file, "]")?;
    }
    Ok(())
}

/// Adds the map with a member so many times before its own: `COUNT MEMBER`.
fn add_again(file: &mut Vec<u8>, map: &str, text: &str) -> Result<(), AllocError> {
    let (count, member) = text.split_once(" ").unwrap_or(("0", text));
    add_bytes(file, "{")?;
    for _ in 0..count.parse::<u32>().unwrap_or(0) {
        add_bytes(file, member)?;
        add_bytes(file, ",")?;
    }
    add_bytes(file, map.strip_prefix("{").unwrap_or(map))
}

/// What is found for a file.
fn answer_to(alloc: Global, file: &[u8], is_said: bool) -> Result<String, AllocError> {
    match map_heads(alloc, file) {
        Ok(heads) if is_said => said_of(alloc, &heads),
        Ok(_) => String::from_str(alloc, "a map"),
        Err(stop) => told_of(alloc, &stop),
    }
}

fn told_of(alloc: Global, stop: &MapStop) -> Result<String, AllocError> {
    match stop {
        MapStop::Refused(refusal) => {
            let note = String::from_utf8_lossy(alloc, refusal.note.as_bytes())?;
            format!(in alloc; "{}: {note}", refusal.rule.name())
        }
        MapStop::NoMemory => String::from_str(alloc, "no memory"),
    }
}

fn rule_of(alloc: Global, file: &[u8]) -> &'static str {
    match map_heads(alloc, file) {
        Ok(_) => "a map",
        Err(MapStop::Refused(refusal)) => refusal.rule.name(),
        Err(MapStop::NoMemory) => "no memory",
    }
}

/// What is found for each file that begins the map and is shorter.
fn answer_to_cuts(alloc: Global, map: &str) -> Result<String, AllocError> {
    let bytes = map.as_bytes();
    let rule = rule_of(alloc, b"");
    for end in 0..bytes.len() {
        if rule_of(alloc, &bytes[..end]) != rule {
            return String::from_str(alloc, "two rules");
        }
    }
    String::from_str(alloc, rule)
}

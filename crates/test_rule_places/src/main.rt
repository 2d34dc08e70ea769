//! Texts of refused designs with the kind that refuses each and the place that is to be told of it. Prints each row that differs, and how
//! many rows there are.
#![tactic(auto)]

use rule_places::{RuleKind, broken_at};
use std::alloc::{AllocError, Global};
use std::{fs, io};
use v_lex::{note_behind, tokens};
use v_parse::parse;

fn main(rt: HostRuntime) -> io::Result<()> {
    let alloc = rt.alloc();
    let table = fs::read_to_string(&rt, "rows.txt")?;
    let mut rows: u64 = 0;
    let mut differing: u64 = 0;
    for line in table.as_str().lines() {
        let Some((kind, rest)) = line.split_once("\t") else {
            continue;
        };
        let Some((wanted, text)) = rest.split_once("\t") else {
            continue;
        };
        let found = answer(alloc, kind, text)?;
        rows = rows.saturating_add(1);
        if found.as_str() != wanted {
            differing = differing.saturating_add(1);
            println!(rt; "{kind} {text}\n  {found}")?;
        }
    }
    println!(rt; "{rows} rows, {differing} differ")
}

/// The files of a row: `§` stands between files, `¶` for a line's end.
fn files_of(alloc: Global, text: &str) -> Result<Vec<Vec<u8>>, AllocError> {
    let mut files = Vec::new(alloc);
    for part in text.split("§") {
        let mut file = Vec::new(alloc);
        for line in part.split("¶") {
            file.extend_from_slice(line.as_bytes())?;
            file.extend_from_slice(b"\n")?;
        }
        files.push(file)?;
    }
    Ok(files)
}

/// The place that is told of the design whose top is the text's module `t`, with the clock `c`.
fn answer(alloc: Global, kind: &str, text: &str) -> Result<String, AllocError> {
    let files = files_of(alloc, text)?;
    let Ok(tokens) = tokens(alloc, &files) else {
        return String::from_str(alloc, "unread");
    };
    let Ok(tree) = parse(alloc, &tokens) else {
        return String::from_str(alloc, "unread");
    };
    let Some(kind) = kind_of(kind) else {
        return String::from_str(alloc, "no kind");
    };
    match broken_at(&tree, &tokens, alloc, "t", "c", kind)? {
        Some(token) => match note_behind(alloc, &files, &[token], 0) {
            Some(note) => {
                let mut told = String::from_utf8_lossy(alloc, note.as_bytes())?;
                if token.file > 0 {
                    told.push_str(" in the second file")?;
                }
                Ok(told)
            }
            None => Err(AllocError),
        },
        None => String::from_str(alloc, "nowhere"),
    }
}

fn kind_of(word: &str) -> Option<RuleKind> {
    match word {
        "V7" => Some(RuleKind::NoTop),
        "V8" => Some(RuleKind::Undeclared),
        "V9" => Some(RuleKind::DuplicateName),
        "V10" => Some(RuleKind::BadHierarchy),
        "V11" => Some(RuleKind::HasXz),
        "V12" => Some(RuleKind::BadPort),
        "V13" => Some(RuleKind::BadConstant),
        "V14" => Some(RuleKind::WidthOver128),
        "V15" => Some(RuleKind::BadSelect),
        "V16" => Some(RuleKind::MemoryUse),
        "V17" => Some(RuleKind::ClockAsData),
        "V18" => Some(RuleKind::BadEventList),
        "V19" => Some(RuleKind::BlockingInClocked),
        "V20" => Some(RuleKind::NonblockingInComb),
        "V21" => Some(RuleKind::Latch),
        "V22" => Some(RuleKind::BadDriver),
        "V23" => Some(RuleKind::Undriven),
        "V24" => Some(RuleKind::CombLoop),
        _ => None,
    }
}

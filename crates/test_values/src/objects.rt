//! Names with what they stand for, and their values.

use std::alloc::{AllocError, Global};
use std::str::SplitWhitespace;
use v_value::scope::{Declaration, Entry, Object, Scope, Value, Values};

/// The names of the rows that follow.
#[derive(Drop)]
pub struct Names<'s> {
    pub scope: Scope<'s>,
    pub values: Values<'s>,
}

/// No names.
pub fn no_names<'s>(alloc: Global) -> Names<'s> {
    Names {
        scope: Scope::new(alloc),
        values: Values {
            entries: Vec::new(alloc),
        },
    }
}

/// The next word as a number.
pub fn number(words: &mut SplitWhitespace<'_>) -> Option<u32> {
    words.next()?.parse::<u32>().ok()
}

/// Whether there is a range, and its bounds: `LEFT RIGHT` or `scalar`.
fn range_of(words: &mut SplitWhitespace<'_>) -> Option<(bool, u32, u32)> {
    let first = words.next()?;
    if first == "scalar" {
        return Some((false, 0, 0));
    }
    Some((true, first.parse::<u32>().ok()?, number(words)?))
}

/// The addresses of a memory, `memory FIRST LAST`, or the value of a constant, `parameter NUMBER`.
fn kind_of(words: &mut SplitWhitespace<'_>) -> Option<(Option<(u32, u32)>, Option<u128>)> {
    match words.next() {
        Some("memory") => Some((Some((number(words)?, number(words)?)), None)),
        Some(_) => Some((None, Some(words.next()?.parse::<u128>().ok()?))),
        None => Some((None, None)),
    }
}

/// An object from its words: `SIGN LEFT RIGHT` or `SIGN scalar`, and `memory FIRST LAST` or `parameter NUMBER` besides.
fn object_of(text: &str) -> Option<Object> {
    let mut words = text.split_whitespace();
    let signed = words.next()? == "signed";
    let (has_range, left, right) = range_of(&mut words)?;
    let (addresses, constant) = kind_of(&mut words)?;
    Some(Object {
        is_declared: true,
        signed,
        has_range,
        left,
        right,
        addresses,
        constant,
    })
}

/// A value: a number, or words with commas between them.
fn value_of(alloc: Global, text: &str) -> Result<Option<Value>, AllocError> {
    if !text.contains(",") {
        return Ok(text.parse::<u128>().ok().map(Value::Number));
    }
    let mut words = Vec::new(alloc);
    for word in text.split(",") {
        let Ok(number) = word.parse::<u128>() else {
            return Ok(None);
        };
        words.push(number)?;
    }
    Ok(Some(Value::Words(words)))
}

impl<'s> Names<'s> {
    /// Declares a name: `NAME OBJECT`. False where the text is no declaration.
    pub fn declare(&mut self, alloc: Global, text: &'s str) -> Result<bool, AllocError> {
        let Some((name, rest)) = text.split_once(" ") else {
            return Ok(false);
        };
        let Some(object) = object_of(rest) else {
            return Ok(false);
        };
        let mut declarations = Vec::new(alloc);
        for each in self.scope.declarations() {
            declarations.push(*each)?;
        }
        declarations.push(Declaration { name, object })?;
        self.scope = Scope::of(alloc, declarations)?;
        Ok(true)
    }

    /// Gives names their values, `NAME=VALUE ..`, in the place of those before. False where the text is none of values.
    pub fn set(&mut self, alloc: Global, text: &'s str) -> Result<bool, AllocError> {
        let mut entries = Vec::new(alloc);
        for word in text.split_whitespace() {
            let Some((name, number)) = word.split_once("=") else {
                return Ok(false);
            };
            let Some(value) = value_of(alloc, number)? else {
                return Ok(false);
            };
            entries.push(Entry { name, value })?;
        }
        self.values = Values { entries };
        Ok(true)
    }
}

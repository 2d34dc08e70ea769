//! Bytes that are written piece by piece. Where no memory is left, that is told once, at their end.

use std::alloc::{AllocError, Global};

/// The bytes so far.
#[derive(Drop)]
pub struct Sheet {
    bytes: Vec<u8>,
    is_full: bool,
}

impl Sheet {
    /// Nothing at all.
    pub fn new(alloc: Global) -> Sheet {
        Sheet {
            bytes: Vec::new(alloc),
            is_full: false,
        }
    }

    /// Adds bytes.
    pub fn add_bytes(&mut self, bytes: &[u8]) {
        if self.bytes.extend_from_slice(bytes).is_err() {
            self.is_full = true;
        }
    }

    /// Adds a text.
    pub fn add(&mut self, text: &str) {
        self.add_bytes(text.as_bytes());
    }

    /// Adds a text and a number.
    pub fn add_number(&mut self, alloc: Global, before: &str, number: u128) {
        self.add(before);
        match format!(in alloc; "{number}") {
            Ok(digits) => self.add(&digits),
            Err(_) => self.is_full = true,
        }
    }

    /// Adds a text so many times.
    pub fn add_times(&mut self, text: &str, count: usize) {
        for _ in 0..count {
            self.add(text);
        }
    }

    /// Adds the bytes of a text in which a backslash and a letter or digit stand for one byte.
    pub fn add_unescaped(&mut self, text: &str) {
        let mut is_escaped = false;
        for byte in text.as_bytes() {
            if !is_escaped && *byte == b'\\' {
                is_escaped = true;
                continue;
            }
            let meant = if is_escaped { meant(*byte) } else { *byte };
            self.add_bytes(&[meant]);
            is_escaped = false;
        }
    }

    /// Says that no memory was left.
    pub fn fail(&mut self) {
        self.is_full = true;
    }

    /// The bytes so far.
    pub fn bytes(&self) -> &[u8] {
        &self.bytes
    }

    /// Whether there was memory for all bytes, and they are these.
    pub fn is(&self, bytes: &[u8]) -> bool {
        !self.is_full && self.bytes.as_slice() == bytes
    }

    /// The bytes, or as many of them as there was memory for.
    pub fn into_bytes(self) -> Vec<u8> {
        self.bytes
    }

    /// The text of the bytes, where there was memory for all of them.
    pub fn into_text(self, alloc: Global) -> Result<String, AllocError> {
        if self.is_full {
            return Err(AllocError);
        }
        String::from_utf8_lossy(alloc, &self.bytes)
    }
}

/// The byte that a letter after a backslash stands for.
fn meant(letter: u8) -> u8 {
    match letter {
        b'n' => b'\n',
        b'r' => b'\r',
        b't' => b'\t',
        b'0' => 0,
        b'1' => 1,
        b'v' => 11,
        b'f' => 12,
        b'x' => 255,
        _ => letter,
    }
}

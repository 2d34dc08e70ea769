//! A text that is written piece by piece. Where no memory is left, that is told once, at its end.

use std::alloc::{AllocError, Global};

/// The text so far.
#[derive(Drop)]
pub struct Sheet {
    text: String,
    is_full: bool,
}

impl Sheet {
    /// Nothing at all.
    pub fn new(alloc: Global) -> Sheet {
        Sheet {
            text: String::new(alloc),
            is_full: false,
        }
    }

    /// Adds a piece.
    pub fn add(&mut self, piece: &str) {
        if self.text.push_str(piece).is_err() {
            self.is_full = true;
        }
    }

    /// Adds a piece and a number.
    pub fn add_number(&mut self, alloc: Global, before: &str, number: u128) {
        self.add(before);
        match format!(in alloc; "{number}") {
            Ok(digits) => self.add(&digits),
            Err(_) => self.is_full = true,
        }
    }

    /// Adds a piece whose marks stand for other characters: `¶` for a line feed, `␍` for a carriage return, and `␠` for a blank.
    pub fn add_unmarked(&mut self, piece: &str) {
        for character in piece.chars() {
            let meant = match character {
                '¶' => '\n',
                '␍' => '\r',
                '␠' => ' ',
                other => other,
            };
            if self.text.push(meant).is_err() {
                self.is_full = true;
            }
        }
    }

    /// Says that no memory was left.
    pub fn fail(&mut self) {
        self.is_full = true;
    }

    /// The text so far.
    pub fn text(&self) -> &str {
        self.text.as_str()
    }

    /// Whether there was memory for all of the text, and it is this one.
    pub fn is(&self, text: &str) -> bool {
        !self.is_full && self.text.as_str() == text
    }

    /// The text, where there was memory for all of it.
    pub fn into_text(self) -> Result<String, AllocError> {
        if self.is_full {
            return Err(AllocError);
        }
        Ok(self.text)
    }
}

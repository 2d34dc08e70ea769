//! Texts cut in two, and copies of texts.

use std::alloc::AllocError;

/// What stands before and after the first mark; nothing after it where there is none.
pub fn halves<'t>(text: &'t str, mark: &str) -> (&'t str, &'t str) {
    text.split_once(mark).unwrap_or((text, ""))
}

/// Adds so many copies of a piece. A count that is no number adds none.
pub fn copied(bytes: &mut Vec<u8>, count: &str, piece: &str) -> Result<(), AllocError> {
    for _ in 0..count.parse::<u32>().unwrap_or(0) {
        bytes.extend_from_slice(piece.as_bytes())?;
    }
    Ok(())
}

//! The bytes of a file, written piece by piece.

use std::alloc::AllocError;

pub fn add_bytes(file: &mut Vec<u8>, text: &str) -> Result<(), AllocError> {
    file.extend_from_slice(text.as_bytes())
}

/// Adds the bytes of a text in which `\n` stands for a line feed, `\x` for a byte that is in no text, and a backslash before another
/// byte for that byte.
pub fn add_unescaped(file: &mut Vec<u8>, text: &str) -> Result<(), AllocError> {
    let mut is_escaped = false;
    for byte in text.as_bytes() {
        if !is_escaped && *byte == b'\\' {
            is_escaped = true;
            continue;
        }
        let meant = if is_escaped { meant(*byte) } else { *byte };
        file.push(meant)?;
        is_escaped = false;
    }
    Ok(())
}

/// The byte that a letter after a backslash stands for.
fn meant(letter: u8) -> u8 {
    match letter {
        b'n' => b'\n',
        b'x' => 255,
        _ => letter,
    }
}

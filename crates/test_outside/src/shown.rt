//! What a read or a write gives, as text.

use wb_outside::{ReadStop, WriteStop};

/// The bytes of a read, or why there are none.
pub fn of_read(answer: &Result<Vec<u8>, ReadStop>) -> &[u8] {
    match answer {
        Ok(bytes) => bytes.as_slice(),
        Err(stop) => of_stop(*stop).as_bytes(),
    }
}

/// Why a read gives no bytes.
pub fn of_stop(stop: ReadStop) -> &'static str {
    match stop {
        ReadStop::Failed => "failed",
        ReadStop::NoMemory => "no memory",
    }
}

/// Whether a write was taken.
pub fn of_write(answer: Result<(), WriteStop>) -> &'static str {
    match answer {
        Ok(()) => "taken",
        Err(WriteStop::Failed) => "failed",
    }
}

//! The words of a row, and what calls answer that may find no memory.
use mpm_base::{ConnName, NoMemory};
use std::io::{self, ErrorKind};

/// The first word of a row, and the rest.
pub fn words(row: &str) -> (&str, &str) {
    row.split_once(' ').unwrap_or((row, ""))
}

/// The number that the text writes, or 0.
pub fn number_of(text: &str) -> u64 {
    text.parse::<u64>().unwrap_or(0)
}

/// The number that the text writes, or 0.
pub fn small_of(text: &str) -> u32 {
    text.parse::<u32>().unwrap_or(0)
}

/// The name of a connection: its slot, a point, and its life.
pub fn name_of(text: &str) -> ConnName {
    let (slot, life) = text.split_once('.').unwrap_or((text, ""));
    ConnName {
        slot: small_of(slot),
        life: small_of(life),
    }
}

/// What a call answers that may find no memory.
pub fn grown<T>(answer: Result<T, NoMemory>) -> io::Result<T> {
    match answer {
        Ok(value) => Ok(value),
        Err(NoMemory) => Err(out_of_memory()),
    }
}

/// The error for want of memory.
pub fn out_of_memory() -> io::Error {
    io::Error::from(ErrorKind::OutOfMemory)
}

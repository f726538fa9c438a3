//! What is printed, put together first.
use crate::row::out_of_memory;
use std::alloc::Global;
use std::fmt::{Display, Write};
use std::io;

/// What is to be printed, in its order. `print!` and `println!` put values there as they would print them, but that this can't fail where
/// it is done: want of memory is kept in mind, and told when the sheet is shown. So a function that puts something there has no way out
/// in its midst.
#[derive(Drop)]
pub struct Sheet {
    alloc: Global,
    text: String,
    is_whole: bool,
}

impl Sheet {
    /// A sheet without text.
    pub fn make(alloc: Global) -> Sheet {
        Sheet {
            alloc,
            text: String::new(alloc),
            is_whole: true,
        }
    }

    /// Puts the value at the end.
    pub fn print<D: Display + Drop>(&mut self, value: D) {
        if write!(self.text, "{value}").is_err() {
            self.is_whole = false;
        }
    }

    /// Puts the value at the end, and the end of a line.
    pub fn println<D: Display + Drop>(&mut self, value: D) {
        self.print(value);
        self.print("\n");
    }

    /// Puts the name at the end, and the bytes as a text between quotes.
    pub fn bytes(&mut self, name: &str, bytes: &[u8]) {
        match String::from_utf8_lossy(self.alloc, bytes) {
            Ok(text) => print!(self; "{name} {text:?}"),
            Err(_) => self.is_whole = false,
        }
    }

    /// Puts the bytes at the end, as a text.
    pub fn text(&mut self, bytes: &[u8]) {
        match String::from_utf8_lossy(self.alloc, bytes) {
            Ok(text) => print!(self; "{text}"),
            Err(_) => self.is_whole = false,
        }
    }

    /// Prints the sheet, where there was memory for all that was put there.
    pub fn show(&self, rt: &impl Print) -> io::Result<()> {
        if !self.is_whole {
            return Err(out_of_memory());
        }
        print!(rt; "{}", self.text)
    }
}

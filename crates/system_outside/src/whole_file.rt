//! The bytes of a reader, piece by piece up to its end.
//! Why it is so stands in docs/DECISIONS.md: 86, Loops over a file or a folder.
ghost use Rattle.std.specs.Prelude.{◌≡◌, ◌<◌, ◌≤◌, length, IfSome, None, is_none, is_some};
ghost use Rattle.system_outside.specs.WholeFile.{ReadsNextPiece, ReadsWhole, more_bytes};

use mpm_base::{Octets, StoreFault};
use std::alloc::Global;
use std::io::{self, Read};

/// A reader, the error of its last read where that failed, and how many bytes came of it.
#[derive(Drop)]
pub struct Reading<F: Read> {
    file: F,
    error: Option<io::Error>,
    // It is 2^64 - 1 where that many bytes came or more.
    size: u64,
}

impl<F: Read> Reading<F> {
    /// A reader of which nothing was read.
    pub fn of(file: F) -> Reading<F>
        ensures file { result.file ≡ file }
        ensures error { result.error ≡ None }
        ensures size { result.size ≡ 0 }
    {
        Reading {
            file,
            error: None,
            size: 0,
        }
    }

    /// The error of the last read, where that failed.
    pub fn error(&self) -> Option<&io::Error> {
        self.error.as_ref()
    }

    /// Reads the next bytes to the front of the buffer, and answers how many; none where the read failed.
    fn next(&mut self, buffer: &mut [u8]) -> Option<usize>
        ensures bound { IfSome result (λ n. n ≤ length buffer.new) }
        ensures bytes { ReadsNextPiece (F.remaining self.old.file) (F.remaining self.new.file)
            result buffer.new }
        ensures error { is_some self.new.error ≡ is_none result }
        ensures size { self.new.size ≡ more_bytes self.old.size result }
    {
        match self.file.read(buffer) {
            Ok(count) => {
                self.error = None;
                self.size = self.size.saturating_add(count as u64);
                Some(count)
            }
            Err(error) => {
                self.error = Some(error);
                None
            }
        }
    }
}

/// All bytes up to the end, where they are at most so many. They come in pieces of the buffer's size.
pub fn read_whole<F: Read>(
    alloc: Global,
    reading: &mut Reading<F>,
    buffer: &mut [u8],
    most: u64,
) -> Result<Octets, StoreFault>
    requires fresh { reading.old.error ≡ None }
    requires unread { reading.old.size ≡ 0 }
    requires room { 0 < length buffer.old }
    ensures { let old = F.remaining reading.old.file in
        let new = F.remaining reading.new.file in
        ReadsWhole old new (is_some reading.new.error) reading.new.size most result }
{
    let mut bytes = Octets::make(alloc);
    loop {
        let Some(count) = reading.next(buffer) else {
            return Err(StoreFault::Failed);
        };
        if count == 0 {
            return if reading.size <= most {
                Ok(bytes)
            } else {
                Err(StoreFault::Large(reading.size))
            };
        }
        if reading.size == u64::MAX {
            return Err(StoreFault::Failed);
        }
        if reading.size <= most && bytes.add(&buffer[..count]).is_err() {
            return Err(StoreFault::NoMemory);
        }
    }
}

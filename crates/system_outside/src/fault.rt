//! Which fault of a store an error of the file system is, and which file is refused.
ghost use Rattle.std.specs.Prelude.{◌≡◌, Err};
ghost use Rattle.std.specs.IoError.{error_kind};
ghost use Rattle.std.specs.Fs.{IsFile, file_type, metadata_len};
ghost use Rattle.mpm_base.specs.declared.store.StoreFault.TheVariants as fault;
ghost use Rattle.system_outside.specs.Fault.{fault_for, size_within};

use mpm_base::StoreFault;
use std::fs::Metadata;
use std::io::{self, ErrorKind};

/// The fault that the error is.
pub fn fault_of(error: &io::Error) -> StoreFault
    ensures { result ≡ fault_for (error_kind error.now) }
{
    match error.kind() {
        ErrorKind::NotFound => StoreFault::Missing,
        ErrorKind::OutOfMemory => StoreFault::NoMemory,
        _ => StoreFault::Failed,
    }
}

/// Refuses what may not be read, by what the file system tells of it: what isn't a regular file, which is no file of the
/// store, and a file of more bytes than these.
pub fn check_file(metadata: &Metadata, most: u64) -> Result<(), StoreFault>
    ensures file { IsFile (file_type metadata.now)
        → result ≡ size_within most (metadata_len metadata.now) }
    ensures other { ¬ IsFile (file_type metadata.now) → result ≡ Err fault.Missing }
{
    if metadata.is_file() {
        size_within(metadata.len(), most)
    } else {
        Err(StoreFault::Missing)
    }
}

/// Refuses a file of more bytes than these.
fn size_within(size: u64, most: u64) -> Result<(), StoreFault>
    ensures { result ≡ size_within most size }
{
    if size > most {
        Err(StoreFault::Large(size))
    } else {
        Ok(())
    }
}

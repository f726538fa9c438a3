//! What an entry of a folder leads to.
ghost use Rattle.std.specs.Prelude.{◌≡◌, IsOkAnd, Some, Ok, MatchResult};
ghost use Rattle.std.specs.IoError.{error_kind};
ghost use Rattle.std.specs.Fs.{IsSymlink, file_type};
ghost use Rattle.system_outside.specs.Entry.{IsKindBehind, IsKindOf, IsOwnKind, own_unknown, unknown_kind, unnamed_entry};

use std::fs::{self, DirEntry, FileType, Metadata};
use std::io::{self, ErrorKind};
use std::rt::Files;

/// What stands in a folder, as a listing takes it.
#[derive(Clone, Copy, PartialEq, Eq)]
pub enum EntryKind {
    /// A folder, which is gone through.
    Folder,
    /// A regular file, or a link to one.
    File,
    /// Anything else. It is left out, and never opened.
    Other,
}

/// The entry, or none where its name isn't UTF-8.
pub fn entry_given<T>(told: io::Result<T>) -> io::Result<Option<T>>
    ensures { MatchResult told
        (λ entry. result ≡ Ok (Some entry))
        (λ e. result ≡ unnamed_entry (error_kind e) e) }
{
    match told {
        Ok(entry) => Ok(Some(entry)),
        Err(error) => match error.kind() {
            ErrorKind::InvalidFilename => Ok(None),
            _ => Err(error),
        },
    }
}

/// What the entry leads to. A link is followed to a file alone.
pub fn kind_in<R: Files>(rt: &R, entry: &DirEntry<R>) -> io::Result<EntryKind> {
    match own_kind(entry.file_type())? {
        Some(kind) => Ok(kind),
        None => kind_behind(fs::metadata(rt, entry.path())),
    }
}

/// What the entry is by its own type, or none where it is a link.
pub fn own_kind(told: io::Result<FileType>) -> io::Result<Option<EntryKind>>
    ensures { MatchResult told
        (λ t. IsOkAnd result (IsOwnKind t))
        (λ e. result ≡ own_unknown (error_kind e) e) }
{
    match told {
        Ok(kind) if kind.is_symlink() => Ok(None),
        Ok(kind) => Ok(Some(kind_of_type(kind))),
        Err(error) => Ok(Some(without_kind(error)?)),
    }
}

/// What is of that type, and no link.
fn kind_of_type(kind: FileType) -> EntryKind
    requires { ¬ IsSymlink kind }
    ensures { IsKindOf kind result }
{
    if kind.is_dir() {
        EntryKind::Folder
    } else if kind.is_file() {
        EntryKind::File
    } else {
        EntryKind::Other
    }
}

/// What stands behind a link, by what the file system tells of that.
pub fn kind_behind(told: io::Result<Metadata>) -> io::Result<EntryKind>
    ensures { MatchResult told
        (λ m. IsOkAnd result (IsKindBehind (file_type m)))
        (λ e. result ≡ unknown_kind (error_kind e) e) }
{
    match told {
        Ok(metadata) => {
            if metadata.is_file() {
                Ok(EntryKind::File)
            } else {
                Ok(EntryKind::Other)
            }
        }
        Err(error) => without_kind(error),
    }
}

/// What an entry is of which the file system tells nothing.
fn without_kind(error: io::Error) -> io::Result<EntryKind>
    ensures { result ≡ unknown_kind (error_kind error) error }
{
    match error.kind() {
        ErrorKind::NotFound | ErrorKind::NotADirectory | ErrorKind::FilesystemLoop => {
            Ok(EntryKind::Other)
        }
        _ => Err(error),
    }
}

//! A file of the current folder as a log.
//! Why it is so stands in docs/DECISIONS.md: 128, How the file of a log is opened.
ghost use Rattle.std.specs.Prelude.{◌≡◌, ◌↔◌, true, false, None, IfErr, IfOk, IsErr, IsOk, Ok, length};
ghost use Rattle.std.specs.Fs.{IsFile, file_type};
ghost use Rattle.std.specs.Io.KnownBytes.{Appends};
ghost use Rattle.std.specs.IoError.{error_kind};
ghost use Rattle.std.specs.Path.{PathStartsWith, path_buf_bytes};
ghost use Rattle.mpm_base.specs.Sink.{Begins, FitsOutput, Puts, put_bytes, silent_sink};
ghost use Rattle.system_outside.specs.LogFile.{is_way_out, leads_out, options_of, way_unless_there};
ghost use Rattle.mpm_base.specs.declared.sink.Put.TheVariants as put;
ghost use Rattle.system_outside.specs.declared.log_file.Way.TheVariants as way;

use crate::operator::Operator;
use crate::output::put_of;
use mpm_base::{Logs, Put, Sink};
use std::fs;
use std::fs::{Metadata, OpenOptions};
use std::io::{self, ErrorKind, Write};
use std::path::{Path, PathBuf};
use std::rt::Files;

/// How the file of a log is opened.
#[derive(Clone, Copy)]
pub enum Way {
    /// It is there, and is written behind what it has.
    Append,
    /// Nothing of its name is there, and it is made.
    Make,
}

impl Way {
    /// What is asked of the system: never that the file is cut.
    pub fn options(self) -> OpenOptions
        ensures { result ≡ options_of self }
    {
        let mut options = OpenOptions::new();
        options.append(true);
        if let Way::Make = self {
            options.create_new(true);
        }
        options
    }
}

/// A log whose names are those of files of the current folder. It tells nothing; the operator hears of each opening and write that fails.
#[derive(Drop)]
pub struct LogFile<'a, R: Files + Eprint> {
    rt: &'a R,
    operator: &'a Operator<'a, R>,
    file: Option<R::File>,
    faults: u64,
}

impl<'a, R: Files + Eprint> LogFile<'a, R> {
    /// A log that isn't open.
    pub fn new(rt: &'a R, operator: &'a Operator<'a, R>) -> LogFile<'a, R>
        ensures { result.file ≡ None }
    {
        LogFile {
            rt,
            operator,
            file: None,
            faults: 0,
        }
    }
}

impl<'a, R: Files + Eprint> Sink for LogFile<'a, R> {
    ghost seen = { λ l. silent_sink l.faults };

    /// Answers Failed where the log was never opened, or the system refuses the write or takes nothing.
    fn write(&mut self, bytes: &[u8]) -> Put
        ensures sink { Puts (silent_sink self.old.faults) (silent_sink self.new.faults)
            result bytes.now }
        ensures unopened { self.old.file ≡ None → result ≡ put.Failed }
    {
        let put = match &mut self.file {
            Some(file) => write_piece(self.operator, file, bytes),
            None => Put::Failed,
        };
        if put == Put::Failed {
            self.faults = self.faults.saturating_add(1);
        }
        put
    }
}

impl<'a, R: Files + AllocGlobal + Eprint> Logs for LogFile<'a, R> {
    /// Closes what was opened before, once the new file is open. Answers false where the name or a link leads out of the folder, where
    /// what has that name is no regular file, or where the system refuses a call.
    fn begin(&mut self, name: &str) -> bool
        ensures log { Begins (silent_sink self.old.faults) (silent_sink self.new.faults)
            name.now result }
        ensures within { result ≡ true → leads_out name.now ≡ false }
        ensures stays { result ≡ false → self.new.file ≡ self.old.file }
    {
        match open_within(self.rt, name) {
            Ok(file) => {
                self.file = Some(file);
                true
            }
            Err(error) => {
                self.operator.hear_of_fault("open", name, error);
                self.faults = self.faults.saturating_add(1);
                false
            }
        }
    }
}

/// Writes from the front of the piece. The operator hears of an error.
fn write_piece<W: Write, R: Eprint>(operator: &Operator<'_, R>, file: &mut W, piece: &[u8]) -> Put
    ensures fits { FitsOutput result (length piece.now) }
    ensures bytes { Appends (W.contents file.old) (W.contents file.new)
        (put_bytes result piece.now) }
{
    let answer = file.write(piece);
    if let Err(error) = &answer {
        operator.hear_of_fault("write", "the log", error);
    }
    put_of(answer, piece)
}

/// Opens the file of that name, behind what it has. Nothing is opened that isn't a regular file of the current folder, by what the system
/// told of it just before.
fn open_within<R: Files + AllocGlobal>(rt: &R, name: &str) -> io::Result<R::File>
    ensures { IsOk result → leads_out name.now ≡ false }
{
    check_name(name)?;
    let way = way_to(fs::metadata(rt, name))?;
    let folder = fs::canonicalize(rt, ".")?;
    let place = place_of(rt, name, way)?;
    open_in(rt, &folder, &place, way)
}

/// Refuses a name that leads out of its folder.
pub fn check_name(name: &str) -> io::Result<()>
    ensures { IsOk result ↔ leads_out name.now ≡ false }
{
    if leads_out(name) {
        let message = "the name leads out of the folder";
        return Err(io::Error::new(ErrorKind::PermissionDenied, message));
    }
    Ok(())
}

/// Whether some part of the name leads out of its folder.
fn leads_out(name: &str) -> bool
    ensures { result ≡ leads_out name.now }
{
    for part in Path::new(name).components() {
        if is_way_out(part.as_os_str()) {
            return true;
        }
    }
    false
}

/// Whether a part of a name is the root, or what is above.
fn is_way_out(part: &str) -> bool
    ensures { result ≡ is_way_out part.now }
{
    part == "/" || part == ".."
}

/// How the file is opened of which the system told this. What is there has to be a regular file: a named pipe without a reader would keep
/// who opens it.
pub fn way_to(told: io::Result<Metadata>) -> io::Result<Way>
    ensures file { IfOk told (λ m. IsFile (file_type m) → result ≡ Ok way.Append) }
    ensures other { IfOk told (λ m. ¬ IsFile (file_type m) → IsErr result) }
    ensures untold { IfErr told (λ e. result ≡ way_unless_there (error_kind e) e) }
{
    match told {
        Ok(metadata) => {
            if metadata.is_file() {
                Ok(Way::Append)
            } else {
                Err(io::Error::new(ErrorKind::InvalidInput, "not a regular file"))
            }
        }
        Err(error) => {
            if error.kind() == ErrorKind::NotFound {
                Ok(Way::Make)
            } else {
                Err(error)
            }
        }
    }
}

/// Where the file of that name lies, or is made, without any link: the whole path.
fn place_of<R: Files + AllocGlobal>(rt: &R, name: &str, way: Way) -> io::Result<PathBuf> {
    match way {
        Way::Append => fs::canonicalize(rt, name),
        Way::Make => {
            let (folder, file) = name.rsplit_once('/').unwrap_or((".", name));
            let mut place = fs::canonicalize(rt, folder)?;
            place.push(file)?;
            Ok(place)
        }
    }
}

/// Opens the file at the place, which has to lie within the folder.
fn open_in<R: Files>(rt: &R, folder: &PathBuf, place: &PathBuf, way: Way) -> io::Result<R::File>
    ensures { IsOk result → PathStartsWith (path_buf_bytes place.now) (path_buf_bytes folder.now) }
{
    if !place.starts_with(folder) {
        let message = "a link leads out of the folder";
        return Err(io::Error::new(ErrorKind::PermissionDenied, message));
    }
    way.options().open(rt, place)
}

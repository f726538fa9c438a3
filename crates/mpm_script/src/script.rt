//! The scripts that say what comes to the server, and when.
//!
//! A script is a list of lines, each ended by a line feed (`specs/Script.antt`); which text is which line stands in
//! `specs/ScriptLine.antt`, and what a TEXT spells in `specs/Escapes.antt`.
ghost use Rattle.std.specs.Prelude.{◌≡◌, ◌<◌, ℕ, List, [], ◌∷◌, ◌++◌, length, Result, Err, IfErr, IfSome, IfNone, IfOk, MatchOption, OnOk, OnErr};
ghost use Rattle.std.specs.List.{prefix_len};
ghost use Rattle.mpm_script.specs.FileNames.{HaveTextNames};
ghost use Rattle.mpm_script.specs.ReadLinesInside.{AreRead, ReadsLine, RefusesLine};
ghost use Rattle.mpm_script.specs.Script.{Begins, BeginsWithLine, IsSureAnswer, IsScript, ScriptIs, is_line_byte};
ghost use Rattle.mpm_base.specs.declared.script_line.ScriptLine.{ScriptLine as Line};
ghost use Rattle.mpm_script.specs.declared.script.ScriptFault.{ScriptFault as Fault};

use crate::line_reader::{line_of, one_line};
use crate::read_lines::ReadLines;
use mpm_base::{NoMemory, ScriptLine};
use std::alloc::Global;
use std::marker::Model;
use thiserror::Error;

/// A script, as it was read: a list of lines, as contracts see it.
#[derive(Drop)]
pub struct Script {
    items: Vec<ScriptLine>,
}

impl Model for Script {
    ghost use Rattle.std.specs.Prelude.{List};
    ghost use Rattle.mpm_base.specs.declared.script_line.ScriptLine.{ScriptLine as Line};

    ghost Value = { List Line };

    ghost view = { λ s. s.items.items };
}

impl Script {
    /// The empty script, which takes no memory.
    pub fn make(alloc: Global) -> Script
        ensures { result ≡ [] }
    {
        Script {
            items: Vec::new(alloc),
        }
    }

    /// Puts the line at the end. Where memory lacks nothing changes.
    pub fn add(&mut self, line: ScriptLine) -> Result<(), NoMemory>
        ensures ok { OnOk result (self.new ≡ self.old ++ line ∷ []) }
        ensures err { OnErr result (self.new ≡ self.old) }
    {
        match self.items.push(line) {
            Ok(()) => Ok(()),
            Err(_) => Err(NoMemory),
        }
    }

    /// The lines, in order.
    pub fn lines(&self) -> &[ScriptLine]
        ensures { result.now ≡ self.now }
    {
        self.items.as_slice()
    }
}

/// Why a script was not read. The number is that of the line, from 1.
#[derive(Clone, Copy, Debug, PartialEq, Eq, Error)]
pub enum ScriptFault {
    /// The line is none of a script, or makes a connection whose name was used.
    #[error("line {0} is none of a script")]
    BadLine(u64),
    /// The line goes back to an earlier moment.
    #[error("line {0} goes back to an earlier moment")]
    MomentBackwards(u64),
    /// The line names a connection that no earlier line makes.
    #[error("line {0} names no connection")]
    UnknownName(u64),
    /// Memory was wanted and not found.
    #[error("out of memory")]
    NoMemory,
}

impl From<NoMemory> for ScriptFault {
    ghost use Rattle.std.specs.Prelude.{◌≡◌};
    ghost use Rattle.mpm_script.specs.declared.script.ScriptFault.TheVariants as fault;

    ghost from_gives = { λ _ e. e ≡ fault.NoMemory };

    fn from(_: NoMemory) -> ScriptFault {
        ScriptFault::NoMemory
    }
}

/// Reads a script. Each line ends with LF, the last one too, and words have one space between them. The earliest line that
/// is refused is told.
pub fn read_script(alloc: Global, bytes: &[u8]) -> Result<Script, ScriptFault>
    ensures answer { ScriptIs bytes.now result }

    // So the files that its lines set or remove have UTF-8 names.
    ensures names { IfOk result (λ script. HaveTextNames script) }
{
    file_names_are_texts();
    let mut read = ReadLines::make(alloc);
    read_lines(alloc, &mut read, bytes)?;
    Ok(read.into_script())
}

/// Reads all lines of the bytes.
fn read_lines(alloc: Global, read: &mut ReadLines, bytes: &[u8]) -> Result<(), ScriptFault>
    requires none { read.old.script ≡ [] }
    requires read { AreRead read.old }
    ensures ok { OnOk result (IsScript bytes.now read.new.script) }
    ensures err { IfErr result (λ fault. ScriptIs bytes.now (Err fault)) }
{
    let mut rest = bytes;
    'lines: while !rest.is_empty() {
        let behind = read_line(alloc, read, rest)?;
        rest = behind;
    }
    Ok(())
}

/// Reads the line that the bytes begin with, and answers the bytes behind it.
fn read_line<'a>(
    alloc: Global,
    read: &mut ReadLines,
    bytes: &'a [u8],
) -> Result<&'a [u8], ScriptFault>
    requires some { 0 < length bytes.now }
    requires read { AreRead read.old }
    ensures line { IfOk result (λ rest.
        ReadsLine bytes.now rest.now read.old.script read.new.script) }
    ensures read { IfOk result (λ _. AreRead read.new) }
    ensures err { IfErr result (RefusesLine read.old.script bytes.now) }
{
    one_line();
    let number = read.next_number();
    let Some((line, rest)) = next_line(alloc, bytes)? else {
        return Err(ScriptFault::BadLine(number));
    };
    read.check(number, &line)?;
    read.add(alloc, line)?;
    Ok(rest)
}

/// A law of scripts: bytes have one answer, unless memory lacks.
pub fn one_answer()
    ensures { (bytes : List ℕ) (answer other : Result (List Line) Fault) → ScriptIs bytes answer →
        ScriptIs bytes other
        → IsSureAnswer answer → IsSureAnswer other → answer ≡ other }
{
    one_line();
}

/// A law of scripts: the files that their lines set or remove have UTF-8 names.
pub fn file_names_are_texts()
    ensures { (bytes : List ℕ) (lines : List Line) → IsScript bytes lines → HaveTextNames lines }
{}

// The line that the bytes begin with, and the bytes behind it; None where they begin with none.
fn next_line(alloc: Global, bytes: &[u8]) -> Result<Option<(ScriptLine, &[u8])>, NoMemory>
    ensures { IfOk result
        (λ next.
        MatchOption next ((line : Line) (rest : List ℕ) → ¬ BeginsWithLine bytes.now line rest)
        (λ next. BeginsWithLine bytes.now next.0 next.1.now)) }
{
    let Some((text, rest)) = first_line(bytes) else {
        return Ok(None);
    };
    match line_of(alloc, text)? {
        Some(line) => Ok(Some((line, rest))),
        None => Ok(None),
    }
}

// The bytes before the first line feed, and those behind it.
fn first_line(bytes: &[u8]) -> Option<(&[u8], &[u8])>
    ensures some { IfSome result (λ cut. Begins bytes.now cut.0.now cut.1.now) }
    ensures none { IfNone result ((text rest : List ℕ) → ¬ Begins bytes.now text rest) }
{
    let (text, end) = bytes.split_at(line_len(bytes));
    let (_, rest) = end.split_first()?;
    Some((text, rest))
}

fn line_len(bytes: &[u8]) -> usize
    ensures { result ≡ prefix_len is_line_byte bytes.now }
{
    bytes.iter().take_while(|byte| **byte != b'\n').count()
}

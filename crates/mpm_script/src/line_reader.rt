//! Reads one line of a script. Which text is which line stands in `specs/ScriptLine.antt`.
ghost use Rattle.std.specs.Prelude.{◌≡◌, ℕ, List, [], Option, IfOk, IfSome, IfNone, MatchOption};
ghost use Rattle.mpm_script.specs.ScriptLine.{IsBehindName, IsSiteLine, IsLine};
ghost use Rattle.mpm_script.specs.LineWordsInside.{IsNamed, IsSpelledBehind};
ghost use Rattle.mpm_base.specs.declared.script_line.LinkCall.{LinkCall as Call};
ghost use Rattle.mpm_base.specs.declared.script_line.CommandWord.{CommandWord as Word};
ghost use Rattle.mpm_base.specs.declared.script_line.ClientAct.{ClientAct as Act};
ghost use Rattle.mpm_base.specs.declared.script_line.ClientAct.TheVariants as act;
ghost use Rattle.mpm_base.specs.declared.script_line.SiteLine.{SiteLine as Site};
ghost use Rattle.mpm_base.specs.declared.script_line.SiteLine.TheVariants as site;
ghost use Rattle.mpm_base.specs.declared.script_line.ScriptLine.{ScriptLine as Line};
ghost use Rattle.mpm_base.specs.declared.script_line.ScriptLine.TheVariants as line;

use crate::escapes::spelled;
use crate::line_words::{filed, is_file_name, is_name, named, number};
use mpm_base::{
    ClientAct, CommandWord, GREATEST_MOMENT, LinkCall, Moment, NoMemory, Octets, ScriptLine,
    SiteLine,
};
use std::alloc::Global;

/// The line that the text is, without its line feed; None where it is none.
pub(crate) fn line_of(alloc: Global, text: &[u8]) -> Result<Option<ScriptLine>, NoMemory>
    ensures { IfOk result
        (λ line. MatchOption line ((l : Line) → ¬ IsLine text.now l) (IsLine text.now)) }
{
    if let Some(moment) = at_line(text) {
        return Ok(Some(ScriptLine::At(moment)));
    }
    if let Some(name) = conn_line(text) {
        return Ok(Some(ScriptLine::Conn(Octets::of(alloc, name)?)));
    }
    if let Some(word) = command_line(text) {
        return Ok(Some(ScriptLine::Command(word)));
    }
    if let Some((name, act)) = client_line(alloc, text)? {
        return Ok(Some(ScriptLine::Client(Octets::of(alloc, name)?, act)));
    }
    match site_line(alloc, text)? {
        Some(site) => Ok(Some(ScriptLine::Site(site))),
        None => Ok(None),
    }
}

/// A law of lines: a text is one line at most.
pub fn one_line()
    ensures { (text : List ℕ) (line other : Line) → IsLine text line → IsLine text other →
        line ≡ other }
{}

fn at_line(text: &[u8]) -> Option<Moment>
    ensures some { IfSome result (λ moment. IsLine text.now (line.At moment)) }
    ensures none { IfNone result ((moment : ℕ) → ¬ IsLine text.now (line.At moment)) }
{
    let moment = number(text.strip_prefix(b"at ")?)?;
    if moment <= GREATEST_MOMENT {
        Some(moment)
    } else {
        None
    }
}

// The name of the connection that arrives.
fn conn_line(text: &[u8]) -> Option<&[u8]>
    ensures some { IfSome result (λ name. IsLine text.now (line.Conn name.now)) }
    ensures none { IfNone result ((name : List ℕ) → ¬ IsLine text.now (line.Conn name)) }
{
    let name = text.strip_prefix(b"conn ")?;
    if is_name(name) { Some(name) } else { None }
}

fn command_line(text: &[u8]) -> Option<CommandWord>
    ensures some { IfSome result (λ word. IsLine text.now (line.Command word)) }
    ensures none { IfNone result ((word : Word) → ¬ IsLine text.now (line.Command word)) }
{
    let word = text.strip_prefix(b"command ")?;
    if word == b"graceful".as_slice() {
        Some(CommandWord::Graceful)
    } else if word == b"graceful-stop".as_slice() {
        Some(CommandWord::GracefulStop)
    } else if word == b"stop".as_slice() {
        Some(CommandWord::Stop)
    } else if word == b"status".as_slice() {
        Some(CommandWord::Status)
    } else {
        None
    }
}

// What happens to the link of a connection, with the name of that connection.
fn client_line(alloc: Global, text: &[u8]) -> Result<Option<(&[u8], ClientAct)>, NoMemory>
    ensures { IfOk result (λ read. MatchOption read
        ((name : List ℕ) (act : Act) → ¬ IsLine text.now (line.Client name act))
        (λ client. IsLine text.now (line.Client client.0.now client.1))) }
{
    if let Some(name) = bare_line(text, b"end ") {
        return Ok(Some((name, ClientAct::End)));
    }
    if let Some(name) = bare_line(text, b"drop ") {
        return Ok(Some((name, ClientAct::Drop)));
    }
    if let Some((name, room)) = room_line(text) {
        return Ok(Some((name, ClientAct::Room(room))));
    }
    if let Some((name, call, number)) = fail_line(text) {
        return Ok(Some((name, ClientAct::Fail(call, number))));
    }
    match send_line(alloc, text)? {
        Some((name, bytes)) => Ok(Some((name, ClientAct::Send(bytes)))),
        None => Ok(None),
    }
}

// The name of the connection, behind which nothing stands.
fn bare_line<'a>(text: &'a [u8], word: &[u8]) -> Option<&'a [u8]>
    ensures some { IfSome result (λ name. IsNamed word.now text.now name.now []) }
    ensures none { IfNone result ((name : List ℕ) → ¬ IsNamed word.now text.now name []) }
{
    let (name, behind) = named(text, word)?;
    if behind.is_empty() { Some(name) } else { None }
}

fn room_line(text: &[u8]) -> Option<(&[u8], Option<u64>)>
    ensures some { IfSome result
        (λ client. IsLine text.now (line.Client client.0.now (act.Room client.1))) }
    ensures none { IfNone result
        ((name : List ℕ) (room : Option ℕ) → ¬ IsLine text.now (line.Client name (act.Room room))) }
{
    let (name, behind) = named(text, b"room ")?;
    Some((name, room(behind)?))
}

// The room that is written behind a name.
fn room(behind: &[u8]) -> Option<Option<u64>>
    ensures some { IfSome result (λ room. IsBehindName (act.Room room) behind.now) }
    ensures none { IfNone result ((room : Option ℕ) → ¬ IsBehindName (act.Room room) behind.now) }
{
    if behind == b" all".as_slice() {
        return Some(None);
    }
    Some(Some(number(behind.strip_prefix(b" ")?)?))
}

fn fail_line(text: &[u8]) -> Option<(&[u8], LinkCall, u64)>
    ensures some { IfSome result
        (λ client. IsLine text.now (line.Client client.0.now (act.Fail client.1 client.2))) }
    ensures none { IfNone result
        ((name : List ℕ) (which : Call) (n : ℕ) →
        ¬ IsLine text.now (line.Client name (act.Fail which n))) }
{
    let (name, behind) = named(text, b"fail ")?;
    let (which, number) = failing(behind)?;
    Some((name, which, number))
}

// The call that fails, as it is written behind a name.
fn failing(behind: &[u8]) -> Option<(LinkCall, u64)>
    ensures some { IfSome result (λ call. IsBehindName (act.Fail call.0 call.1) behind.now) }
    ensures none { IfNone result
        ((which : Call) (n : ℕ) → ¬ IsBehindName (act.Fail which n) behind.now) }
{
    match behind.strip_prefix(b" read ") {
        Some(digits) => Some((LinkCall::Read, number(digits)?)),
        None => Some((LinkCall::Write, number(behind.strip_prefix(b" write ")?)?)),
    }
}

fn send_line(alloc: Global, text: &[u8]) -> Result<Option<(&[u8], Octets)>, NoMemory>
    ensures { IfOk result (λ read. MatchOption read
        ((name bytes : List ℕ) → ¬ IsLine text.now (line.Client name (act.Send bytes)))
        (λ client. IsLine text.now (line.Client client.0.now (act.Send client.1)))) }
{
    let Some((name, behind)) = named(text, b"send ") else {
        return Ok(None);
    };
    match spelled_behind(alloc, behind, b" ")? {
        Some(bytes) => Ok(Some((name, bytes))),
        None => Ok(None),
    }
}

// The bytes that the text spells behind the word.
fn spelled_behind(alloc: Global, text: &[u8], word: &[u8]) -> Result<Option<Octets>, NoMemory>
    ensures { IfOk result (λ read. MatchOption read
        ((bytes : List ℕ) → ¬ IsSpelledBehind word.now text.now bytes)
        (IsSpelledBehind word.now text.now)) }
{
    match text.strip_prefix(word) {
        Some(spelling) => spelled(alloc, spelling),
        None => Ok(None),
    }
}

fn site_line(alloc: Global, text: &[u8]) -> Result<Option<SiteLine>, NoMemory>
    ensures { IfOk result (λ read. MatchOption read
        ((site : Site) → ¬ IsSiteLine text.now site)
        (IsSiteLine text.now)) }
{
    if text == b"clear".as_slice() {
        return Ok(Some(SiteLine::Clear));
    }
    if let Some(name) = unfile_line(text) {
        return Ok(Some(SiteLine::Unfile(Octets::of(alloc, name)?)));
    }
    if let Some(bytes) = spelled_behind(alloc, text, b"conf ")? {
        return Ok(Some(SiteLine::Conf(bytes)));
    }
    match file_line(alloc, text)? {
        Some((name, bytes)) => Ok(Some(SiteLine::File(Octets::of(alloc, name)?, bytes))),
        None => Ok(None),
    }
}

fn unfile_line(text: &[u8]) -> Option<&[u8]>
    ensures some { IfSome result (λ name. IsSiteLine text.now (site.Unfile name.now)) }
    ensures none { IfNone result ((name : List ℕ) → ¬ IsSiteLine text.now (site.Unfile name)) }
{
    let name = text.strip_prefix(b"unfile ")?;
    if is_file_name(name) { Some(name) } else { None }
}

fn file_line(alloc: Global, text: &[u8]) -> Result<Option<(&[u8], Octets)>, NoMemory>
    ensures { IfOk result (λ read. MatchOption read
        ((name bytes : List ℕ) → ¬ IsSiteLine text.now (site.File name bytes))
        (λ file. IsSiteLine text.now (site.File file.0.now file.1))) }
{
    let Some((name, spelling)) = filed(text) else {
        return Ok(None);
    };
    match spelled(alloc, spelling)? {
        Some(bytes) => Ok(Some((name, bytes))),
        None => Ok(None),
    }
}

//! Writes the lines of a head.
//! Why it is so stands in docs/DECISIONS.md: 26, What a response takes.
ghost use Rattle.std.specs.Prelude.{◌≡◌, ◌++◌, ◌-◌, ◌<◌, codes, length, slice_get, option_and_then, IfSome, OnOk};
ghost use Rattle.std.specs.Fmt.{decimal};
ghost use Rattle.httpdate.specs.Date.{date_text, unix_secs};
ghost use Rattle.mpm_base.specs.Moment.{IsSecond};
ghost use Rattle.http_core.specs.Ask.{IsServedOf};
ghost use Rattle.http_core.specs.Reply as spec;
ghost use Rattle.http_core.specs.ReplyInside.{AreMarksAdded, IsHeadAdded, IsTimeAdded};

use crate::code::Code;
use crate::plan::{FilePart, Plan, Served};
use crate::status_page::page_type;
use file_table::{Site, content_type, entity_tag, last_change};
use httpdate::HttpDate;
use mpm_base::{NoMemory, Note, Octets};

/// Room for a head without marks, without its Location and with a short type. None takes more: at most, with their ends, 30 bytes of a
/// status line with a part's code, 37 of Date, 24 of Connection, 85 of Content-Range, 40 of Content-Type, 38 of Content-Length, numbers
/// having at most 20 digits, and 2 of the empty line. A longer status line, or Allow, goes with no part. A body that is copied behind the
/// head isn't counted.
const USUAL_ROOM: usize = 256;

/// Room for the marks of a file: 42 bytes of ETag, 46 of Last-Modified and 22 of Accept-Ranges.
const MARKS_ROOM: usize = 110;

/// A type of no more bytes is counted.
const USUAL_TYPE: usize = 24;

/// The line that says which methods are served.
const ALLOW: &[u8] = b"Allow: GET, HEAD, OPTIONS\r\n";

/// The line of the type of a text.
const TEXT: &[u8] = b"Content-Type: text/plain\r\n";

/// How much room the head takes of a response that sends the file, or says of it that the client has it.
fn room_of_file(site: &Site, file: u32) -> usize
    requires { file < length site.now.files }
{
    let room = USUAL_ROOM.saturating_add(content_type(site, file).len().saturating_sub(USUAL_TYPE));
    let marks = site.marks();
    if marks.tags || marks.times {
        room.saturating_add(MARKS_ROOM)
    } else {
        room
    }
}

/// How much room the head takes, where it speaks of that file.
fn room_of(site: &Site, served: &Served, file: Option<u32>) -> usize
    requires { IfSome file (λ place. place < length site.now.files) }
{
    match (served, file) {
        (Served::Moved(location), _) => USUAL_ROOM.saturating_add(location.len()),
        (_, Some(file)) => room_of_file(site, file),
        _ => USUAL_ROOM,
    }
}

/// The date at a second since 1970-01-01 00:00:00 UTC.
pub fn date_at(second: u64) -> HttpDate
    requires { IsSecond second }
    ensures { unix_secs result ≡ second }
{
    let Ok(date) = HttpDate::from_unix_secs(second) else {
        unreachable!()
    };
    date
}

/// The file that is served, whole or in part, or that the client has as it is.
fn file_of(_site: &Site, served: &Served) -> Option<u32>
    requires { IsServedOf _site.now served.now }
    ensures is { option_and_then (λ place. slice_get _site.now.files place) result
        ≡ spec.file_of _site.now served.now }
    ensures there { IfSome result (λ place. place < length _site.now.files) }
{
    match served {
        Served::Whole(part) => Some(part.file),
        Served::Part(part) => Some(part.file),
        Served::Unmodified(place) => Some(*place),
        _ => None,
    }
}

/// Adds a line: a name with what parts it from its value, and the value.
fn add_line(head: &mut Octets, name: &[u8], value: &[u8]) -> Result<(), NoMemory>
    ensures { OnOk result (head.new ≡ head.old ++ spec.head_line_of (name.now ++ value.now)) }
{
    head.add(name)?;
    head.add(value)?;
    head.add(b"\r\n")
}

/// Adds the first two lines.
fn add_first_lines(head: &mut Octets, code: Code, date: &HttpDate) -> Result<(), NoMemory>
    ensures { OnOk result (head.new ≡ head.old ++ spec.first_lines code (date_text date.now)) }
{
    add_line(head, b"HTTP/1.1 ", code.text())?;
    add_line(head, b"Date: ", &date.to_bytes())
}

/// Adds the line of the connection.
fn add_connection(head: &mut Octets, last: bool, minor: u8) -> Result<(), NoMemory>
    ensures { OnOk result (head.new ≡ head.old ++ spec.connection_line last minor) }
{
    if last {
        head.add(b"Connection: close\r\n")
    } else if minor == 0 {
        head.add(b"Connection: keep-alive\r\n")
    } else {
        Ok(())
    }
}

/// Adds the line of the methods that are served.
fn add_allow(head: &mut Octets, served: &Served) -> Result<(), NoMemory>
    ensures { OnOk result (head.new ≡ head.old ++ spec.allow_line served.now) }
{
    match served {
        Served::Options => head.add(ALLOW),
        Served::Refused(Code::MethodNotAllowed) => head.add(ALLOW),
        _ => Ok(()),
    }
}

/// Adds the line of what to ask for instead.
fn add_location(head: &mut Octets, served: &Served) -> Result<(), NoMemory>
    ensures { OnOk result (head.new ≡ head.old ++ spec.location_line served.now) }
{
    match served {
        Served::Moved(location) => add_line(head, b"Location: ", location.as_slice()),
        _ => Ok(()),
    }
}

/// Adds which bytes of how many follow.
fn add_part(head: &mut Octets, part: &FilePart) -> Result<(), NoMemory>
    ensures { OnOk result (head.new
        ≡ head.old ++ spec.head_line_of (codes "Content-Range: bytes " ++ decimal part.now.from
        ++ codes "-" ++ decimal (part.now.to - 1) ++ codes "/" ++ decimal part.now.size)) }
{
    head.add(b"Content-Range: bytes ")?;
    head.add_number(part.from)?;
    head.add(b"-")?;
    head.add_number(part.to.saturating_sub(1))?;
    head.add(b"/")?;
    head.add_number(part.size)?;
    head.add(b"\r\n")
}

/// Adds how many bytes there are, where a range lies behind them.
fn add_unsatisfied(head: &mut Octets, size: u64) -> Result<(), NoMemory>
    ensures { OnOk result (head.new
        ≡ head.old ++ spec.head_line_of (codes "Content-Range: bytes */" ++ decimal size)) }
{
    head.add(b"Content-Range: bytes */")?;
    head.add_number(size)?;
    head.add(b"\r\n")
}

/// Adds the line of the range.
fn add_range(head: &mut Octets, served: &Served) -> Result<(), NoMemory>
    ensures { OnOk result (head.new ≡ head.old ++ spec.range_line served.now) }
{
    match served {
        Served::Part(part) => add_part(head, part),
        Served::Unsatisfied(size) => add_unsatisfied(head, *size),
        _ => Ok(()),
    }
}

/// Adds the line of the tag of the file, where files have tags.
fn add_tag(head: &mut Octets, site: &Site, file: Option<u32>) -> Result<(), NoMemory>
    requires { IfSome file (λ place. place < length site.now.files) }
    ensures { OnOk result (head.new ≡ head.old ++ spec.tag_line site.now.marks
        (option_and_then (λ place. slice_get site.now.files place) file)) }
{
    let Some(file) = file else {
        return Ok(());
    };
    match entity_tag(site, file) {
        Some(tag) => add_line(head, b"ETag: ", tag),
        None => Ok(()),
    }
}

/// Adds the line of the last change of the file, where times count: no later one than the second of the response.
fn add_time(head: &mut Octets, site: &Site, file: Option<u32>, now: u64) -> Result<(), NoMemory>
    requires there { IfSome file (λ place. place < length site.now.files) }
    requires now { IsSecond now }
    ensures { OnOk result (IsTimeAdded (spec.told_second site.now.marks now
        (option_and_then (λ place. slice_get site.now.files place) file)) head.old head.new) }
{
    let Some(file) = file else {
        return Ok(());
    };
    if !site.marks().times {
        return Ok(());
    }
    let date = date_at(last_change(site, file).min(now));
    add_line(head, b"Last-Modified: ", &date.to_bytes())
}

/// Whether bytes of a file are sent.
fn sends_file(served: &Served) -> bool
    ensures { result ≡ spec.sends_file served.now }
{
    matches!(served, Served::Whole(_) | Served::Part(_))
}

/// Adds the line that parts of the file may be asked for, where files have marks.
fn add_accepts(head: &mut Octets, site: &Site, served: &Served) -> Result<(), NoMemory>
    ensures { OnOk result
        (head.new ≡ head.old ++ spec.accepts_line site.now.marks served.now) }
{
    let marks = site.marks();
    if (marks.tags || marks.times) && sends_file(served) {
        head.add(b"Accept-Ranges: bytes\r\n")
    } else {
        Ok(())
    }
}

/// Adds the line of the type of a file.
fn add_type_of_file(head: &mut Octets, site: &Site, file: u32) -> Result<(), NoMemory>
    requires { file < length site.now.files }
    ensures { OnOk result (head.new ≡ head.old ++ spec.head_line_of
        (codes "Content-Type: " ++ spec.type_of_file site.now (slice_get site.now.files file))) }
{
    add_line(head, b"Content-Type: ", content_type(site, file))
}

/// Adds the line of the content type.
fn add_type(head: &mut Octets, site: &Site, served: &Served) -> Result<(), NoMemory>
    requires { IsServedOf site.now served.now }
    ensures { OnOk result (head.new ≡ head.old ++ spec.type_line site.now served.now) }
{
    match served {
        Served::Options => Ok(()),
        Served::Unmodified(_) => Ok(()),
        Served::Whole(part) => add_type_of_file(head, site, part.file),
        Served::Part(part) => add_type_of_file(head, site, part.file),
        Served::Page(auto) => add_line(head, b"Content-Type: ", page_type(*auto)),
        _ => head.add(TEXT),
    }
}

/// Adds the last lines.
fn add_last_lines(head: &mut Octets, size: u64) -> Result<(), NoMemory>
    ensures { OnOk result (head.new ≡ head.old ++ spec.last_lines size) }
{
    head.add(b"Content-Length: ")?;
    head.add_number(size)?;
    head.add(b"\r\n\r\n")
}

/// Adds the lines behind the type: where the client has the file as it is there is no length.
fn add_end(head: &mut Octets, served: &Served, size: u64) -> Result<(), NoMemory>
    ensures { OnOk result (head.new ≡ head.old ++ spec.end_lines served.now size) }
{
    match served {
        Served::Unmodified(_) => head.add(b"\r\n"),
        _ => add_last_lines(head, size),
    }
}

/// Adds the lines that speak of the file that is served.
fn add_marks(
    head: &mut Octets,
    site: &Site,
    served: &Served,
    file: Option<u32>,
    now: u64,
) -> Result<(), NoMemory>
    requires there { IfSome file (λ place. place < length site.now.files) }
    requires now { IsSecond now }
    ensures { OnOk result (AreMarksAdded site.now served.now
        (option_and_then (λ place. slice_get site.now.files place) file) now head.old head.new) }
{
    add_tag(head, site, file)?;
    add_time(head, site, file, now)?;
    add_accepts(head, site, served)
}

/// Writes the head of the response of this plan with the note, the body of a GET having so many bytes.
pub fn write_head(
    head: &mut Octets,
    site: &Site,
    plan: &Plan,
    note: &Note,
    size: u64,
    date: &HttpDate,
) -> Result<(), NoMemory>
    requires of { IsServedOf site.now plan.now.served }
    requires now { IsSecond note.now.date }
    requires size { size ≡ spec.body_length (spec.body_of_get plan.now.served note.now.page) }
    ensures { OnOk result (IsHeadAdded site.now plan.now note.now (date_text date.now)
        head.old head.new) }
{
    let served = &plan.served;
    let file = file_of(site, served);
    head.reserve(room_of(site, served, file))?;
    add_first_lines(head, served.code(), date)?;
    add_connection(head, note.last, plan.minor)?;
    add_allow(head, served)?;
    add_location(head, served)?;
    add_range(head, served)?;
    add_marks(head, site, served, file, note.date)?;
    add_type(head, site, served)?;
    add_end(head, served, size)
}

/// Writes the head of the response to a refused head.
pub fn write_refusal(head: &mut Octets, code: Code, date: &HttpDate) -> Result<(), NoMemory>
    ensures { OnOk result (head.new ≡ head.old ++ spec.refusal_head code (date_text date.now)) }
{
    head.reserve(USUAL_ROOM)?;
    add_first_lines(head, code, date)?;
    add_connection(head, true, 1)?;
    head.add(TEXT)?;
    add_last_lines(head, code.text().len() as u64 + 1)
}

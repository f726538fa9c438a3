//! What the conditions of a request say of a file (RFC 9110, section 13).
//! Why it is so stands in docs/DECISIONS.md: 121, Which conditions count.
ghost use Rattle.std.specs.Prelude.{◌≡◌, ◌<◌, Some, length, option_map, slice_get};
ghost use Rattle.mpm_base.specs.declared.store.File.{File};
ghost use Rattle.file_table.specs.declared.marks.Marks.{Marks as SeenMarks};
ghost use Rattle.http_core.specs.Conditions as spec;
ghost use Rattle.http_core.specs.ConditionsInside.{AreMarksOf, is_that_tag};
ghost use Rattle.http_core.specs.Served.{range_of_file, verdict_of};

use file_table::{Site, entity_tag, last_change};
use http_read::Request;
use httpdate::HttpDate;

/// What they say.
#[derive(Clone, Copy)]
pub enum Verdict {
    /// The file is sent.
    Sends,
    /// It isn't the one that the client has in mind (section 15.5.13).
    Fails,
    /// The client has it as it is (section 15.4.5).
    Unmodified,
}

/// By what a file may be asked for: its tag, where files have tags, and the second of its last change, where times count.
#[derive(Clone, Copy)]
struct FileMarks<'a> {
    tag: Option<&'a [u8]>,
    second: Option<u64>,
}

/// The marks of the file.
fn marks_of(site: &Site, file: u32) -> FileMarks<'_>
    requires { file < length site.now.files }
    ensures { AreMarksOf site.now.marks (slice_get site.now.files file) result }
{
    let second = if site.marks().times {
        Some(last_change(site, file))
    } else {
        None
    };
    FileMarks {
        tag: entity_tag(site, file),
        second,
    }
}

/// Whether If-Match names the file; None where it doesn't stand.
fn matches_file(request: &Request, marks: FileMarks<'_>) -> Option<bool>
    ensures { (m : SeenMarks) (f : File) → AreMarksOf m (Some f) marks.entry
        → result ≡ option_map (spec.matches_file m f) request.now.conditions.if_match }
{
    if request.if_match_has(b"", b"*")? {
        return Some(true);
    }
    match marks.tag {
        Some(tag) => request.if_match_has(b"", tag),
        None => Some(false),
    }
}

/// Whether If-None-Match names the file; None where it doesn't stand.
fn names_file(request: &Request, marks: FileMarks<'_>) -> Option<bool>
    ensures { (m : SeenMarks) (f : File) → AreMarksOf m (Some f) marks.entry
        → result ≡ option_map (spec.names_file m f) request.now.conditions.if_none_match }
{
    if request.if_none_match_has(b"", b"*")? {
        return Some(true);
    }
    let Some(tag) = marks.tag else {
        return Some(false);
    };
    if request.if_none_match_has(b"", tag)? {
        return Some(true);
    }
    request.if_none_match_has(b"W/", tag)
}

/// The second of a date.
fn date_in(value: Option<&[u8]>) -> Option<u64>
    ensures { result ≡ spec.date_in (option_map (λ v. v.now) value.entry) }
{
    match HttpDate::parse_ascii(value?) {
        Ok(date) => Some(date.unix_secs()),
        Err(_) => None,
    }
}

/// Whether the file was changed behind the date.
fn is_changed_since(marks: FileMarks<'_>, value: Option<&[u8]>) -> bool
    ensures { (m : SeenMarks) (f : File) → AreMarksOf m (Some f) marks.entry
        → result ≡ spec.is_changed_since m f (option_map (λ v. v.now) value.entry) }
{
    let Some(own) = marks.second else {
        return false;
    };
    match date_in(value) {
        Some(second) => second < own,
        None => false,
    }
}

/// Whether there is a date behind which the file wasn't changed.
fn is_unchanged_since(marks: FileMarks<'_>, value: Option<&[u8]>) -> bool
    ensures { (m : SeenMarks) (f : File) → AreMarksOf m (Some f) marks.entry
        → result ≡ spec.is_unchanged_since m f (option_map (λ v. v.now) value.entry) }
{
    let Some(own) = marks.second else {
        return false;
    };
    match date_in(value) {
        Some(second) => own <= second,
        None => false,
    }
}

/// Whether the file isn't the one that the client has in mind.
fn fails_match(request: &Request, marks: FileMarks<'_>) -> bool
    ensures { (m : SeenMarks) (f : File) → AreMarksOf m (Some f) marks.entry
        → result ≡ spec.fails_match m request.now.conditions f }
{
    match matches_file(request, marks) {
        Some(named) => !named,
        None => is_changed_since(marks, request.if_unmodified_since()),
    }
}

/// Whether the client has the file as it is.
fn is_unmodified(request: &Request, marks: FileMarks<'_>) -> bool
    ensures { (m : SeenMarks) (f : File) → AreMarksOf m (Some f) marks.entry
        → result ≡ spec.is_unmodified m request.now.conditions f }
{
    match names_file(request, marks) {
        Some(named) => named,
        None => is_unchanged_since(marks, request.if_modified_since()),
    }
}

/// What the conditions say, by these marks of the file.
fn verdict_by(request: &Request, marks: FileMarks<'_>) -> Verdict
    ensures { (m : SeenMarks) (f : File) → AreMarksOf m (Some f) marks.entry
        → result ≡ spec.verdict_by_marks m request.now.conditions f }
{
    if fails_match(request, marks) {
        Verdict::Fails
    } else if is_unmodified(request, marks) {
        Verdict::Unmodified
    } else {
        Verdict::Sends
    }
}

/// What the conditions of the request say of the file at the place.
pub fn verdict_on(site: &Site, request: &Request, file: u32) -> Verdict
    requires { file < length site.now.files }
    ensures { result ≡ verdict_of site.now request.now (slice_get site.now.files file) }
{
    let marks = site.marks();
    if marks.tags || marks.times {
        verdict_by(request, marks_of(site, file))
    } else {
        Verdict::Sends
    }
}

/// Whether the value is exactly the tag.
fn is_exactly(tag: Option<&[u8]>, value: Option<&[u8]>) -> bool
    ensures { result ≡ is_that_tag (option_map (λ t. t.now) tag.entry)
        (option_map (λ v. v.now) value.entry) }
{
    match (tag, value) {
        (Some(tag), Some(value)) => value == tag,
        _ => false,
    }
}

/// The Range of the request, where it counts for the file at the place.
pub fn range_on<'a>(site: &Site, request: &'a Request, file: u32) -> Option<&'a [u8]>
    requires { file < length site.now.files }
    ensures { option_map (λ range. range.now) result
        ≡ range_of_file site.now request.now (slice_get site.now.files file) }
{
    let exact = is_exactly(entity_tag(site, file), request.if_range());
    let counts = !request.ranged_if() | exact;
    if counts { request.range() } else { None }
}

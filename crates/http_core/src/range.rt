//! The value of a Range field, and what it selects.
ghost use Rattle.std.specs.Prelude.{◌≡◌, IfSome};
ghost use Rattle.http_core.specs.Range.{range_between, range_in_value, range_of_bytes, selection_of};
ghost use Rattle.http_core.specs.RangeInside.{HasSmallBound, IsWithinSize};

use http_read::place_of_byte;
use mpm_base::{is_same_ignoring_case, number_in_digits};

/// The most digits of a position.
const MOST_DIGITS: usize = 18;

/// A range of bytes (RFC 9110, section 14.1.2).
#[derive(Clone, Copy)]
pub enum Range {
    /// From the one position to the other, which is one of them.
    Between(u64, u64),
    /// From the position to the end.
    From(u64),
    /// The last so many bytes.
    Last(u64),
}

/// What a range selects of a file.
#[derive(Clone, Copy)]
pub enum Selection {
    /// The whole file: the range is ignored.
    Whole,
    /// From the one place up to the other, which isn't one of them.
    Part(u64, u64),
    /// Nothing: the range can't be satisfied.
    Unsatisfiable,
}

/// The range by what stands before and after its dash.
fn range_between(before: &[u8], after: &[u8]) -> Option<Range>
    ensures value { result ≡ range_between before.now after.now }
    ensures bound { IfSome result HasSmallBound }
{
    if before.is_empty() {
        return match number_in_digits(after, MOST_DIGITS) {
            Some(count) => Some(Range::Last(count)),
            None => None,
        };
    }
    let first = number_in_digits(before, MOST_DIGITS)?;
    if after.is_empty() {
        return Some(Range::From(first));
    }
    match number_in_digits(after, MOST_DIGITS) {
        Some(last) => Some(Range::Between(first, last)),
        None => None,
    }
}

/// The range by what follows its unit.
fn range_of_bytes(text: &[u8]) -> Option<Range>
    ensures value { result ≡ range_of_bytes text.now }
    ensures bound { IfSome result HasSmallBound }
{
    let place = place_of_byte(text, b'-');
    if place < text.len() {
        range_between(&text[..place], &text[place + 1..])
    } else {
        None
    }
}

/// The one range in bytes that the value of a field says (RFC 9110, section 14.2).
pub fn range_of(text: &[u8]) -> Option<Range>
    ensures value { result ≡ range_in_value text.now }
    ensures bound { IfSome result HasSmallBound }
{
    if text.len() >= 6 && is_same_ignoring_case(&text[..6], b"bytes=") {
        range_of_bytes(&text[6..])
    } else {
        None
    }
}

/// What the range selects of a file of so many bytes.
pub fn selection_of(size: u64, range: Range) -> Selection
    requires { HasSmallBound range }
    ensures value { result ≡ selection_of size range }
    ensures within { IsWithinSize size result }
{
    match range {
        Range::Last(count) => {
            if count == 0 {
                Selection::Unsatisfiable
            } else {
                Selection::Part(size.saturating_sub(count), size)
            }
        }
        Range::From(first) => {
            if size <= first {
                Selection::Unsatisfiable
            } else {
                Selection::Part(first, size)
            }
        }
        Range::Between(first, last) => {
            if last < first {
                Selection::Whole
            } else if size <= first {
                Selection::Unsatisfiable
            } else {
                Selection::Part(first, size.min(last + 1))
            }
        }
    }
}

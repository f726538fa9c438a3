//! Laws of the lines of the access log. Each is the contract of a function that does nothing.
ghost use Rattle.std.specs.Prelude.{◌≡◌, ℕ, ◌<◌, List, [], ◌∷◌, ◌++◌, map, take, Some};
ghost use Rattle.std.specs.List.{All};
ghost use Rattle.httpdate.specs.Date.{unix_secs};
ghost use Rattle.httpdate.specs.declared.date.HttpDate.{HttpDate};
ghost use Rattle.http_read.specs.declared.request.Limits.{Limits};
ghost use Rattle.http_read.specs.RequestParts.{RequestParts};
ghost use Rattle.http_read.specs.HeadLines.{line_len};
ghost use Rattle.http_read.specs.Head.{BeginsHead, IsRefusal};
ghost use Rattle.mpm_base.specs.Moment.{IsSecond};
ghost use Rattle.access_log.specs.RequestLine.{lines_of, request_line};
ghost use Rattle.access_log.specs.EscapedLine.{escaped};
ghost use Rattle.access_log.specs.LogTime.{parts_at};
ghost use Rattle.access_log.specs.LogLine.{Logged, line_text, log_text};
ghost use Rattle.access_log.specs.LogReading.{IsReadBack, unescaped};

/// The time of a line is that of the date which HTTP has for its second.
pub fn times_are_those_of_dates()
    ensures { (date : HttpDate) → parts_at (unix_secs date) ≡ date.parts }
{}

/// An escaped line is read back to the line that it stands for.
pub fn escaped_lines_are_read_back()
    ensures { (line : List ℕ) → All (λ b. b < 256) line → unescaped (escaped line) ≡ Some line }
{}

/// By the common log format each part of a line is read back, and behind its escapes the request line, unless it is empty.
pub fn lines_are_read_back()
    ensures { (e : Logged) → IsSecond e.date → All (λ b. b < 256) e.line → IsReadBack e }
{}

/// A text of several lines is split at its line feeds into just these lines; none has a line feed but the one that ends it.
pub fn lines_are_apart()
    ensures { (entries : List Logged) → All (λ e. IsSecond e.date) entries
        → lines_of (log_text entries) ≡ map line_text entries ++ [] ∷ [] }
{}

/// The request line of a whole head is its first line, all of it.
pub fn request_lines_are_first_lines()
    ensures { (limits : Limits) (bytes : List ℕ) (request : RequestParts) (head_len : ℕ)
        (head : BeginsHead limits bytes request head_len)
        → let first = head.ends.text.head_lines.first in
        request_line limits.line bytes ≡ take (line_len first) first }
{}

/// The request line of a head, whole or refused, stays the same whatever follows.
pub fn request_lines_stay()
    ensures whole { (limits : Limits) (bytes more : List ℕ) (request : RequestParts) (head_len : ℕ)
        → BeginsHead limits bytes request head_len
        → request_line limits.line (bytes ++ more) ≡ request_line limits.line bytes }
    ensures refused { (limits : Limits) (bytes more : List ℕ) (code : ℕ)
        → IsRefusal limits bytes code
        → request_line limits.line (bytes ++ more) ≡ request_line limits.line bytes }
{}

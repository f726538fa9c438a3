//! The logical lines of a text: a line that ends with a backslash is joined with the next one.
ghost use Rattle.std.specs.Prelude.{◌≡◌, ◌==◌, ◌+◌, ◌-◌, ◌<◌, ◌≤◌, ◌∷◌, ℕ, take, length, option_map, slice_index, IfOk};
ghost use Rattle.std.specs.Str.Lines.{lines, strip_carriage_return};
ghost use Rattle.std.specs.String.{string_bytes};
ghost use Rattle.conf_text.specs.Line.{continues, front, logical, Line};
ghost use Rattle.conf_text.specs.Parts.{parts_around, Parts};

use mpm_base::NoMemory;

/// What stands before and after the first line feed.
fn at_line_end(text: &str) -> Option<(&str, &str)>
    ensures { option_map (λ p. record { before = p.0.now; after = p.1.now }) result
        ≡ parts_around 10 text.now }
{
    text.split_once('\n')
}

/// The text without its last byte, which is an ASCII character.
fn before_last(text: &str) -> &str
    requires some { 0 < length text.now }
    requires ascii { slice_index text.now (length text.now - 1) < 128 }
    ensures { result.now ≡ take (length text.now - 1) text.now }
{
    text.split_at(text.len() - 1).0
}

/// Whether that is the last byte.
fn ends_with(text: &str, byte: u8) -> bool
    requires { 0 < byte }
    ensures { result ≡ (slice_index text.now (length text.now - 1) == byte) }
{
    match text.as_bytes().last() {
        Some(last) => *last == byte,
        None => false,
    }
}

/// The line without the carriage return at its end.
fn without_return(line: &str) -> &str
    ensures { result.now ≡ strip_carriage_return line.now }
{
    if ends_with(line, b'\r') {
        before_last(line)
    } else {
        line
    }
}

/// The first line of a text, and the text after it.
fn first_line(text: &str) -> (&str, &str)
    requires { 0 < length text.now }
    ensures lines { lines text.now ≡ result.0.now ∷ lines result.1.now }
    ensures shorter { length result.1.now < length text.now }
{
    match at_line_end(text) {
        Some((line, after)) => (without_return(line), after),
        None => (text, ""),
    }
}

/// Puts the first logical line of a text into `line`. Answers the text after it, and of how many lines it
/// was joined. Where memory lacks, `line` has some of it.
pub fn take_line<'a>(text: &'a str, line: &mut String) -> Result<(&'a str, u64), NoMemory>
    requires { 0 < length text.now }
    ensures line { IfOk result (λ r. (n : ℕ)
        → logical n (lines text.now)
        ≡ record { number = n; bytes = string_bytes line.new }
        ∷ logical (n + r.1) (lines r.0.now)) }
    ensures room { IfOk result (λ r. length r.0.now + r.1 ≤ length text.now) }
    ensures shorter { IfOk result (λ r. length r.0.now < length text.now) }
{
    line.clear();
    let mut rest = text;
    let mut count = 0;
    while !rest.is_empty() {
        let (piece, after) = first_line(rest);
        rest = after;
        count += 1;
        if !ends_with(piece, b'\\') {
            line.push_str(piece)?;
            return Ok((rest, count));
        }
        line.push_str(before_last(piece))?;
    }
    Ok((rest, count))
}
